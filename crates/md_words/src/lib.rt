//! The words of the program: the grammar of its commands.
//!
//! [`read_words`] reads all words as one [`Command`]: a tool with its arguments, and the offset of local time from UTC.
//! Options stand in any order, each at most once but for those that may be repeated. Words that are not in the grammar are
//! refused as [`WordsError::Usage`], whatever is wrong with them, and nothing is asked of a tree, a script or a clock here.
//!
//! The grammar is `command_of` in `specs/Grammar`: a function on the whole list of words.
#![tactic(auto)]

mod command;
mod files;
mod find;
mod numbers;
mod offset;
mod once;
mod options;
mod read;
mod tools;
mod utf8;
mod word;

pub use command::{Command, Mode, Tool, WordsError};
pub use numbers::number_in;
pub use once::set_once;
pub use read::read_words;
pub use tools::MOST_MADE;
pub use utf8::Utf8;
