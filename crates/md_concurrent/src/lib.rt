//! The lines of a script, run by workers that end the jobs and by clients that ask, beside each other on one server.
//!
//! [`run_concurrently`] is its main call. It reads the files that the script imports, in the order of the lines, runs the team of the
//! script and gives the server and the journal. Whatever the schedule was, the journal is merged of the script, and the table is
//! that of a run on one thread.
#![tactic(auto)]

mod concurrent;

pub use concurrent::{ConcurrentRun, run_concurrently};
