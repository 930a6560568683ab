//! Reads a text as the tokens of an expression.
#![tactic(auto)]

mod class;
mod find;
mod numbers;
mod prefix;
mod signs;
mod strings;
mod times;
mod tokens;

pub use class::Kind;
pub use prefix::characters;
pub use strings::Act;
pub use times::Keyword;
pub use tokens::tokens as tokens_of;
