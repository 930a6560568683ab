//! Lists of numbers in pages, where an insert moves the numbers of one page, and one number of each page after it.
//!
//! A [`SlotList`] is seen by contracts as its list, and how many numbers there is room for. Room is made first, by
//! `reserve`; then an insert takes no memory.
#![tactic(auto)]

mod page;
mod paged;

pub use paged::SlotList;
