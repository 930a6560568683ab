//! Rows that are kept in the order of sort keys.
//!
//! [`Sorted`] keeps rows with distinct paths in an order, which compares the first values of its sort keys in turn, then
//! the paths. Room is made first, by `reserve`; then rows are set and taken out without memory, and each is found by its
//! place or by its path.
//!
//! By size, the greatest first, a row `b` of 30 bytes stands at place 0, a row `a` of 20 bytes at place 1, and a row `c`
//! without a size at place 2, as it would in the other direction; `b` set again with 10 bytes stands at place 1.
#![tactic(auto)]

mod compare;
mod index;
mod laws;
mod sorted;

pub use laws::one_order;
pub use sorted::Sorted;
