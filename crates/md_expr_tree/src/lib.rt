//! Expressions as trees, their tokens, and the grammar that relates both to a text.
#![tactic(auto)]

mod token;
mod tree;

pub use token::{Item, Token};
pub use tree::{Expr, Literal, Op, Subject, Test};
