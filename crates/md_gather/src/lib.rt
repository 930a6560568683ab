//! Gathering in parts: the hits of a query on one version of a store, so many at a time.
//!
//! A [`Gather`] has the candidates of its query, in path order. A part reads the rows of those that are left, one after
//! another, until it has as many hits as it is asked for; `Gather::advance` then passes over the candidates that it read. So
//! all parts together read each candidate's row once.
#![tactic(auto)]

mod gather;
mod walk;

pub use gather::{Gather, Reached};
