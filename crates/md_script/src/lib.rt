//! The script of the command `live`: its lines, and what each of them says.
//!
//! [`read_script`] makes a [`Script`] of UTF-8 bytes (RFC 3629): the [`Line`]s that say something, each with its number
//! and its moment, or the first cause for which it is refused. The grammar is this program's own and stands in
//! `docs/FORMATS.md`: words between single spaces, paths and contents with the five escapes `\s \t \n \r \\`, `#` before a
//! comment, and an expression after `where`, whose grammar follows Apple's File Metadata Query Expression Syntax. A line
//! ends as Rust's `str::lines` has it. The law [`one_reading`] says that acceptance and the causes exclude each other, and
//! [`expressions_are_read`] that the expression of a query is the one that its text reads as.
#![tactic(auto)]

mod escapes;
mod grammar;
mod laws;
mod lines;
mod options;
mod query;
mod read;
mod script;
mod words;

pub use laws::{expressions_are_read, one_reading};
pub use options::MOST_KEYS;
pub use read::{MOST_BYTES, MOST_LINES, read_script};
pub use script::{Line, Script, ScriptError, What};
