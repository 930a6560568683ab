//! The run of a script's jobs by workers beside the clients of the script, each in a thread of its own, on one server.
//!
//! [`run_team`] draws the tickets of the jobs, starts a thread for each client and each worker, waits for all of them and
//! gives the server and the journal, which is merged of the jobs and of what the clients ask, whatever the schedule was.
#![tactic(auto)]

mod readying;
mod run;
mod team;

pub use run::run_team;
