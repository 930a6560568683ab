//! Plain search texts and names as expressions.
#![tactic(auto)]

mod plain;
mod words;

pub use plain::{MOST_BYTES, interpret, named};
