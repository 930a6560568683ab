//! One live query over a store of versions: what it answers when it is asked, and what the answer makes of it.
//!
//! A [`Query`] has its spec, the filter that is made of it, the version that it speaks of, and how far it is. Rows are read
//! from the store, in which its caller keeps that version pinned. `Query::reply` gives the machine's reply to an [`Ask`] with its [`Effect`] and changes nothing;
//! `Query::settle` takes the effect over and cannot fail. So a caller may copy a reply, or give it up where memory runs
//! out, before anything has changed.
//!
//! Contracts see a query as a `Standing`: all that the machine's query is but its client and number, by which its caller
//! finds it, and its base's table, which the store has.
#![tactic(auto)]

mod asking;
mod query;
mod reading;
mod tables;

pub use asking::{Ask, Effect};
pub use query::Query;
pub use reading::read;
pub use tables::copy_rows;
