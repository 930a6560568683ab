//! The texts of paths, of attributes and of what failed at a path.
//!
//! [`attrs_text`] has a line for each attribute, with its values as they are read on a terminal, or the values alone; what
//! is absent is a marker. [`fault_text`] and [`failure_text`] are the lines on a file that could not be imported or read.
//! Paths and texts stand on one line, with escapes. All want only memory: the moments of attributes are in range.
//!
//! A file with the size 12 and the authors `Ann` and `Bo` has the lines
//! `kMDItemAuthors = (`, `    "Ann",`, `    "Bo"`, `)` and `kMDItemFSSize  = 12`.
#![tactic(auto)]

mod attributes;
mod escapes;
mod faults;
mod fields;
mod values;

pub use attributes::attrs_text;
pub use escapes::{escaped, push_path, push_shown, shown_path};
pub use faults::{Failure, failure_text, fault_text};
