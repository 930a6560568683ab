//! Keys by which texts compare, and patterns with wildcards.
#![tactic(auto)]

mod characters;
mod key;
mod pattern;
mod scan;

pub use key::Key;
pub use pattern::{Pattern, wild_decides};
