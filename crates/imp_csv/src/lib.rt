//! The importer of CSV (RFC 4180): attributes from the columns that a header names.
//!
//! [`fill`] makes an `Attrs` of records, the first of which is the header: a column whose header is a name of the schema
//! that files set gives that attribute the fields of the later records that are not empty. `md_csv_columns` and
//! `md_csv_rows` count, and the text content is all fields of all records, the header's too. RFC 4180 asks that each record
//! has as many fields as the others: the first that has not is a fault, and is reported before any field's.
#![tactic(auto)]

mod attributes;
mod field;
mod fields;
mod reading;
mod records;
mod row;
mod table;
mod values;

pub use attributes::fill;
