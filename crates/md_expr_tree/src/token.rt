// Tokens of a text, and what the connectives join.
use crate::tree::{Literal, Op, Test};
use md_value::Name;

/// A token of an expression's text.
#[derive(Debug, Drop)]
pub enum Token {
    /// The name of an attribute, or the word `InRange`.
    Name(Name),
    /// A string, a number or a time form.
    Value(Literal),
    /// An operator of comparison.
    Op(Op),
    /// `*`: the subject of a comparison, or what a subject is compared with.
    Star,
    /// `&&`
    And,
    /// `||`
    Or,
    /// `!`
    Not,
    /// `(`
    Open,
    /// `)`
    Close,
    /// `,`
    Comma,
}

/// What the connectives and groups of an expression join.
#[derive(Debug, Drop)]
pub enum Item {
    /// A comparison.
    Test(Test),
    /// `&&`
    And,
    /// `||`
    Or,
    /// `(`
    Open,
    /// `!` with the parenthesis behind it.
    OpenNot,
    /// `)`
    Close,
}
