//! The importer of JSON (RFC 8259): attributes from the members of one object.
//!
//! [`fill`] makes an `Attrs` of a text that is one object. A member whose key is a name of the schema that files set gives
//! that attribute's values: a string or a whole number its own, an array those of its members where the attribute may have
//! many, `null` none. RFC 8259 leaves open what equal keys mean: here the last member counts, as its reader keeps it. The
//! text content is all strings, depth first, the members of an object by ascending key. A text that is no JSON, or no
//! object, or has a value of another kind is a fault, of which the first is answered.
#![tactic(auto)]

mod attributes;
mod object;
mod strings;
mod values;

pub use attributes::fill;
