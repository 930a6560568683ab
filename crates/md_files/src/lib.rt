//! What the tools on files ask a tree for and print: the attributes of files, the counts of imports, and the lists of
//! the importers and of the attributes.
//!
//! The main type is [`FileReport`]: the texts for out and err, and how the askings ended, in which a failed asking counts more
//! than an absent path. [`show`] makes it of files and [`import`] of files and folders, which they ask a tree for in turn;
//! [`ask_file`] asks for one file and imports it. Their contracts say which answers of the tree a report is of, when each
//! end comes, and that all is printed where all is known and no call failed. No more askings failed than the tree's count of
//! failures rose by, as `laws` says.
#![tactic(auto)]

mod asking;
mod importing;
pub mod laws;
mod report;
mod showing;
mod tables;

pub use asking::{ImportResult, ask_file, imported, read_prefix};
pub use importing::{import, in_path_order};
pub use report::{End, FileReport};
pub use showing::show;
pub use tables::{attributes, importers};
