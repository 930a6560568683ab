// The records of a text.
ghost use Rattle.std.specs.Prelude.{◌≡◌, ◌<◌, [], false, IfOk, MatchOption, length};
ghost use Rattle.csv.specs.Reading.{strip_bom};
ghost use Rattle.csv.specs.declared.parser.State.TheVariants as st;
ghost use Rattle.imp_csv.specs.Tables.{records_of};
ghost use Rattle.imp_csv.specs.Records.{records_at, begins_line, AddsRecord, SkipsLines};

use crate::field::{after_byte, push_field};
use crate::fields::Fields;
use crate::records::Records;
use md_value::Memory;
use std::alloc::Global;

// The text without a byte order mark before it.
fn without_mark(text: &str) -> &str
    ensures { result.now ≡ strip_bom text.now }
{
    match text.strip_prefix('\u{feff}') {
        Some(rest) => rest,
        None => text,
    }
}

// What follows a `\r` or `\n` that a text begins with.
fn after_line_end(text: &str) -> Option<&str>
    ensures { MatchOption result (begins_line text.now ≡ false) (λ rest. (records_at st.StartRecord [] [] text.now ≡ records_at st.StartRecord [] [] rest.now) × (length rest.now < length text.now)) }
{
    match after_byte(b'\r', text) {
        Some(rest) => Some(rest),
        None => after_byte(b'\n', text),
    }
}

// The text without the ends of lines before it, which end no record.
fn without_line_ends(text: &str) -> &str
    ensures { SkipsLines text.now result.now }
{
    let mut rest = text;
    while let Some(next) = after_line_end(rest) {
        rest = next;
    }
    rest
}

// Adds the fields of the record that a text begins with, and gives the text from its end on.
fn push_record<'a>(fields: &mut Fields, made: &mut String, text: &'a str) -> Result<&'a str, Memory>
    ensures { IfOk result (λ rest. AddsRecord fields.old text.now fields.new rest.now) }
{
    let mut rest = push_field(fields, made, text)?;
    while let Some(next) = after_byte(b',', rest) {
        rest = push_field(fields, made, next)?;
    }
    Ok(rest)
}

/// The records of a text, with no header, of any lengths and untrimmed. No text is refused.
pub(crate) fn records(alloc: Global, text: &str) -> Result<Records, Memory>
    ensures { IfOk result (λ records. records ≡ records_of text.now) }
{
    let mut fields = Fields::new(alloc);
    let mut lengths = Vec::new(alloc);
    let mut made = String::new(alloc);
    let mut rest = without_line_ends(without_mark(text));
    while !rest.is_empty() {
        let before = fields.len();
        rest = without_line_ends(push_record(&mut fields, &mut made, rest)?);
        lengths.push(fields.len() - before)?;
    }
    Ok(Records::of(fields, lengths))
}
