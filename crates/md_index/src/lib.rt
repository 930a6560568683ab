//! Ordered indexes of attributes: which places have a value between two edges.
#![tactic(auto)]

mod between;
mod blocks;
mod facts;
mod index;
mod indexed_value;
mod keyed;
mod keys;
mod named;
mod names;
mod orders;
mod places;
mod range;
mod span;
mod stretch;
mod values;
mod wanted;

pub use between::{Edge, Mark, Probe};
pub use index::{Index, IndexReady};
pub use range::{PlacesFound, in_order};
