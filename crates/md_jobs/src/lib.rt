//! The jobs of a script, for workers that run them side by side, and what the clients of the script ask.
//!
//! [`read_jobs`] asks a tree for the files that the script imports, in the order of the script, and makes [`ScriptJobs`]: for
//! each line that puts, imports or removes a path one job, which a worker turns into a change, outside of any lock, by
//! importing the file that was read.
#![tactic(auto)]

mod jobs;
mod read;
mod source;

pub use jobs::ScriptJobs;
pub use read::read_jobs;
pub use source::{FileSource, ReadFile, ScriptJob, Task};
