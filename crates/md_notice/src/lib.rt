//! Followers: what a query's client holds, in the order that it asked for.
//!
//! A [`Follower`] is made when a query is created, with the query's order and the version that the reply `Created` names.
//! It is given each part that the query hands out and then each notice, and holds the rows of its hits: it tells how many
//! there are, which row stands at a place and at which place a path stands, without memory. [`laws`] say that it then
//! shows exactly what is held of the replies, in order.
//!
//! Where a query for text files, by name, hands out `b.txt` and `c.txt` and then a notice that adds `a.txt` and removes
//! `c.txt`, its follower holds `a.txt` at place 0 and `b.txt` at place 1.
#![tactic(auto)]

mod apply;
mod follower;
pub mod laws;

pub use follower::Follower;
