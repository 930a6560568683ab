//! Actors: clients and workers, which act side by side on one server behind a turn lock.
//!
//! A client has its events answered in order. A worker claims the numbers of jobs, one at a time, finds out what each job
//! commits, outside the lock, and ends the job's ticket. [`run_actor`] runs either of them, in whatever thread it is called;
//! its clauses say what the actor's pass has made of the journal, whatever other actors do meanwhile.
//!
//! A run has these steps: [`draw_all`] draws the tickets of the jobs; [`split_all`] makes the actors; [`spread`] runs each of
//! them in a thread of its own; [`close_all`] gives the server and the journal. By [`laws`] the journal is then merged of the
//! jobs and of what the clients ask, whatever the schedule was.
#![tactic(auto)]

mod act;
mod actor;
mod calls;
mod client;
mod close;
mod draws;
mod jobs;
pub mod laws;
mod team;
mod worker;

pub use actor::{Actor, Client, Ended, Role, run_actor};
pub use calls::{Runs, spread};
pub use close::close_all;
pub use draws::draw_all;
pub use jobs::Jobs;
pub use team::split_all;
