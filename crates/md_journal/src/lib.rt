//! What is printed of a run of a script by workers beside its clients.
//!
//! [`push_journal`] appends the text of a journal, its entries by place.
#![tactic(auto)]

mod text;

pub use text::push_journal;
