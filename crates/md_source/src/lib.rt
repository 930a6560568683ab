//! The outside of the server: what it reads and writes, as traits with a content, where an object tells it,
//! and a count of failures that never falls. A call that answers [`Failed`] raises the count, and no other does.
#![tactic(auto)]

mod adapters;
mod clock;
mod failure;
mod folder;
mod gate;
mod listing;
mod machine_clock;
mod memory;
mod memory_tree;
mod put;
mod sink;
mod source;
mod sure;
mod sure_tree;
mod tree;

pub use adapters::{Reading, Writing};
pub use clock::{Clock, MemoryClock, SureClock};
pub use failure::Failed;
pub use folder::Folder;
pub use gate::{Gate, OpenGate, Point};
pub use listing::is_content;
pub use machine_clock::MachineClock;
pub use memory::{MemorySink, MemorySource};
pub use memory_tree::MemoryTree;
pub use put::{PutEnd, put_all, put_texts};
pub use sink::Sink;
pub use source::{Source, SourceEnd, read_all};
pub use sure::{SureSink, SureSource};
pub use sure_tree::SureTree;
pub use tree::{Entry, ListEnd, ReadEnd, Tree};
