//! The command `live`: the lines of a script, run one after the other over a server of their own.
//!
//! [`run`] is its main call. It asks a tree for the files that the script imports, turns each line into the events of a
//! job, an event of a query or the showing of what a client holds, and gives a [`FileReport`](md_files::FileReport): the journal
//! of the events with what was shown in between, the lines on files, and how the askings ended. Its clause `headline` says
//! what all this is for: the text is that of one run of the abstract machine, in which what each client holds is always its
//! expression's answer on one committed version. [`sum_up`] gives a [`Sum`] in place of the text, and [`out_of_range`] the
//! first form of time whose moment is out of range in a run that begins now.
#![tactic(auto)]

mod counted;
mod given;
pub mod laws;
mod moments;
mod runs;
mod session;
mod sums;
mod tally;
mod time_forms;

pub use runs::run;
pub use sums::{Sum, sum_up};
pub use tally::Tally;
pub use time_forms::out_of_range;
