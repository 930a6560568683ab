//! What the clients of a script ask, each client's events in the order of the script.
//!
//! [`read_clients`] makes the [`Client`](md_workers::Client)s of a run by workers, in the order of their numbers.
#![tactic(auto)]

mod asks;
mod clients;

pub use clients::read_clients;
