//! A turn lock round a server and the journal of all that was done to it.
//!
//! A [`Turn`] owns a [`Core`], a server that answers events as md_machine's machine does, and its journal. Who has a
//! [`Pass`] may act: it waits for its turn, has one event answered, and is given the entry's place in the journal and the
//! reply. Passes are split and joined, so that each thread has its own; a pass carries the acts that it may still make,
//! the journal that it has seen and its own entries. [`Turn::close`] takes all passes and gives the server and the one
//! journal, whose replies are the machine's.
//!
//! The lock is a ticket lock over `atomic_table`: two words, the tickets drawn and the turn that is served, and one slot
//! for the server with its journal. The rule that its steps keep is `Kept` of `specs/Turns.antt`; [`laws`] says what
//! follows of it. A mutex stands before the tickets, so that who draws one is served at once and is a thread that runs;
//! those who wait for the mutex sleep. Nothing is said of who is served when, nor that waiting ends.
#![tactic(auto)]

mod journal;
mod journaled;
pub mod laws;
mod pass;
mod rule;
mod steps;
mod turn;

pub use journal::JournalEntry;
pub use journaled::Core;
pub use pass::Pass;
pub use turn::{Refused, Turn};
