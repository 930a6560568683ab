//! Query expressions after Apple's File Metadata Query Expression Syntax: their texts and their trees.
#![tactic(auto)]

mod reading;

pub use md_expr_parse::{MOST_COMPARISONS, MOST_GROUPS, ReadError};
pub use md_expr_plain::{MOST_BYTES, interpret, named};
pub use md_expr_print::{print, spelling_reads_back};
pub use md_expr_tree::{Expr, Literal, Op, Subject, Test};
pub use reading::{one_reading, one_verdict, printed_is_read, read};
