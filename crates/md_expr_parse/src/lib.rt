//! Reads tokens as an expression.
#![tactic(auto)]

mod build;
mod group;
mod read;
mod survey;

pub use build::{Builder, Level};
pub use group::item;
pub use read::{MOST_COMPARISONS, MOST_GROUPS, ReadError, expression, items, read as read_tokens};
pub use survey::{Place, measure};
