//! The canonical spelling of query expressions.
#![tactic(auto)]

mod comparisons;
mod exprs;
mod laws;
mod literals;
mod pushes;

pub use exprs::print;
pub use laws::spelling_reads_back;
