//! Entries of a journal.
use md_machine::{Event, Reply};

/// An event with its reply, at its place in the journal, counted from 1.
#[derive(Drop)]
pub struct JournalEntry {
    pub place: u64,
    pub event: Event,
    pub reply: Reply,
}
