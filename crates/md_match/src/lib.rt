//! The meaning of query expressions, and filters of rows.
#![tactic(auto)]

mod check;
mod filter;
mod forms;
pub mod laws;
mod ready;
mod wanted;

pub use filter::{Filter, FilterError};
pub use forms::first_out_of_range;
pub use wanted::starred;
