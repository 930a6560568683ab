//! What importers share: the attributes that the content of a file sets, in the schema's order, and the first fault.
//!
//! A [`FileValues`] is a file's content seen as what it gives each name: a list of values, or a fault. [`file_attributes`]
//! asks it for each name of the schema that files set, ascending, and the first fault decides. Beside it stand the values
//! that every importer makes alike: a text, a date that is an ISO 8601 text, and the text content, which is the content's
//! texts with a space between each two, put by [`put_content`]. The attributes and their kinds are those of md_value's
//! schema, after Apple's `MDItem` keys.
#![tactic(auto)]

mod content;
mod files;
mod puts;
mod values;

pub use content::{joined, push_spaced};
pub use files::{FileValues, file_attributes};
pub use puts::{put_content, put_text, put_value, put_values};
pub use values::{date_value, text_value};
