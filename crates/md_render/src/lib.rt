//! The texts that the program prints: of a journal's entries, of what a client holds, of a file's attributes, and of what is
//! wrong with a file.
//!
//! `entry_text` has a line for an event with its reply, and below it a line for each hit or each item of a notice;
//! `held_text` has a line for what a client holds, and below it a line for each path. `attrs_text` and `fault_text` are
//! those of md_file_text.
//!
//! The third entry of a journal, a commit of ticket 1 that makes version 1, is `3 committed 1 1`; a client 1 that holds
//! `a.txt` by its query 2, on version 1, is `c1 q2 holds 1 1` and then `  a.txt`.
#![tactic(auto)]

mod entries;
mod held;
pub mod laws;
mod lines;
mod replies;

pub use entries::{entry_text, push_entry};
pub use held::held_text;
pub use md_file_text::{attrs_text, escaped, fault_text};
