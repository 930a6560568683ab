//! The summary of the run of a generated script over the files that are generated with it.
//!
//! [`summarize`] answers lines of a word and a number, in the manner of `wc`: how many events the run had, the newest
//! version's number, its rows, the notices with the sizes of their three lists, and how many rows each client holds at the
//! end. What the run comes to is md_live's `Sum`, over the files and the script of md_gen's `Made`, in a tree that never
//! fails. A generated script is always read and its forms of time are in range, so memory is all that can want.
#![tactic(auto)]

mod printed;
mod summaries;

pub use summaries::summarize;
