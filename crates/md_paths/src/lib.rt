//! Distinct paths by number, each found by its text: mostly at once, and in a time that grows with the logarithm of how many
//! there are at worst.
//!
//! A [`PathTable`] numbers paths from 0 in the order in which they are added, and lists their numbers in the order of the
//! paths' bytes too. A guess by a hash comes first, and a search where it is wrong: no choice of paths makes the search
//! slow, as it can with a hash table. Room is made first, by `reserve`; then a path is added without memory. Each path is
//! kept once, and its number in a list of pages.
#![tactic(auto)]

mod hints;
mod table;

pub use table::PathTable;
