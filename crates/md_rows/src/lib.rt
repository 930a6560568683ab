//! How the rows of tables and the texts of examples are written.
//!
//! A [`Field`] of a row is read with its escapes ([`unescape`], which reads those of examples too); attributes and faults
//! stand in a field in a notation of their own ([`attributes_of`], [`shown_attributes`]), and a [`Sum`] stands for answers
//! that are too many for a row. `docs/TESTING.md` says how each is written.
#![tactic(auto)]

mod escapes;
mod field;
mod notation;
mod sums;

pub use escapes::{escape, turns_of, unescape};
pub use field::{Field, Modifiers, RowError, yes_or_no};
pub use notation::{attributes_of, fault_of, put, shown_attributes, shown_fault, shown_filled};
pub use sums::Sum;
