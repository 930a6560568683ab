//! Test files and a script over them, made from a number.
//!
//! [`make`] draws from Knuth's linear congruential sequence modulo 2^64: texts, JSON objects (RFC 8259) and CSV records
//! (RFC 4180) in the folder `g`, and a script by which eight clients ask for them, while files are imported and removed.
//! A [`Made`] is determined by the start and the number of files, from 1 to 10,000. The law [`each_is_read`] says
//! that every such script is in the grammar of scripts, within its limits, and that its forms of time are in range.
#![tactic(auto)]

mod draws;
mod files;
mod kind;
mod laws;
mod lines;
mod made;
mod script;
mod words;

pub use laws::each_is_read;
pub use made::{Made, make};
