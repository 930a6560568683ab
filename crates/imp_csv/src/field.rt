// One field of a text.
ghost use Rattle.std.specs.Prelude.{◌≡◌, ◌++◌, ◌==◌, ◌≤◌, ◌<◌, ◌∷◌, IfOk, MatchOption, List, ℕ, [], false, length, string_bytes};
ghost use Rattle.std.specs.List.{position};
ghost use Rattle.csv.specs.declared.parser.State.TheVariants as st;
ghost use Rattle.imp_csv.specs.Tables.{Row};
ghost use Rattle.imp_csv.specs.Records.{records_at, ends_field, begins_with, IsEnded, Unquotes, AddsField};

use crate::fields::Fields;
use md_value::Memory;

/// What follows a byte of ASCII that a text begins with.
pub(crate) fn after_byte(byte: u8, text: &str) -> Option<&str>
    requires { byte < 128 }
    ensures { MatchOption result (begins_with byte text.now ≡ false) (λ rest. text.now ≡ byte ∷ rest.now) }
{
    match text.as_bytes() {
        [first, ..] if *first == byte => Some(&text[1..]),
        _ => None,
    }
}

fn ends_field(byte: u8) -> bool
    ensures { result ≡ ends_field byte }
{
    byte == b',' || byte == b'\r' || byte == b'\n'
}

// Where the first byte stands that ends a field in no quotes.
fn plain_end(text: &[u8]) -> Option<usize>
    ensures { result ≡ position ends_field text.now }
{
    text.iter().position(|byte| ends_field(*byte))
}

// What a field in no quotes has still, and the text from its end on.
fn split_plain(text: &str) -> (&str, &str)
    ensures reads { (row : Row) (field : List ℕ) → records_at st.InField row field text.now ≡ records_at st.InField row (field ++ result.0.now) result.1.now }
    ensures ended { IsEnded result.1.now }
    ensures shorter { length result.1.now ≤ length text.now }
{
    match plain_end(text.as_bytes()) {
        Some(place) => text.split_at(place),
        None => (text, ""),
    }
}

// Where the first quote stands.
fn quote_place(text: &[u8]) -> Option<usize>
    ensures { result ≡ position (λ byte. byte == 34) text.now }
{
    text.iter().position(|byte| *byte == b'"')
}

// What stands before the first quote, and what follows that quote.
fn split_quoted(text: &str) -> (&str, &str)
    ensures reads { (row : Row) (field : List ℕ) → records_at st.InQuoted row field text.now ≡ records_at st.AfterQuote row (field ++ result.0.now) result.1.now }
    ensures shorter { length result.1.now ≤ length text.now }
{
    match quote_place(text.as_bytes()) {
        Some(place) => (&text[..place], &text[place + 1..]),
        None => (text, ""),
    }
}

// Adds to a field what stands before the next quote, and gives what follows that quote.
fn push_quoted<'a>(field: &mut String, text: &'a str) -> Result<&'a str, Memory>
    ensures { IfOk result (λ rest. Unquotes (string_bytes field.old) text.now (string_bytes field.new) rest.now) }
{
    let (inside, rest) = split_quoted(text);
    field.push_str(inside)?;
    Ok(rest)
}

// Adds to a field what stands in quotes, of which the first is gone, and gives what follows the last of them.
fn unquote<'a>(field: &mut String, text: &'a str) -> Result<&'a str, Memory>
    ensures unquotes { IfOk result (λ rest. Unquotes (string_bytes field.old) text.now (string_bytes field.new) rest.now) }
    ensures closed { IfOk result (λ rest. begins_with 34 rest.now ≡ false) }
{
    let mut rest = push_quoted(field, text)?;
    while let Some(next) = after_byte(b'"', rest) {
        field.push('"')?;
        rest = push_quoted(field, next)?;
    }
    Ok(rest)
}

// Makes a field of what stands in quotes, of which the first is gone, and of what follows them, and gives the text from its
// end on.
fn make_quoted<'a>(field: &mut String, text: &'a str) -> Result<&'a str, Memory>
    ensures reads { IfOk result (λ rest. (row : Row) → records_at st.InQuoted row [] text.now ≡ records_at st.InField row (string_bytes field.new) rest.now) }
    ensures ended { IfOk result (λ rest. IsEnded rest.now) }
    ensures shorter { IfOk result (λ rest. length rest.now ≤ length text.now) }
{
    field.clear();
    let (plain, rest) = split_plain(unquote(field, text)?);
    field.push_str(plain)?;
    Ok(rest)
}

/// Adds the field that a text begins with, and gives the text from its end on. `made` is room for a field in quotes.
pub(crate) fn push_field<'a>(
    fields: &mut Fields,
    made: &mut String,
    text: &'a str,
) -> Result<&'a str, Memory>
    ensures { IfOk result (λ rest. AddsField fields.old text.now fields.new rest.now) }
{
    if let Some(quoted) = after_byte(b'"', text) {
        let rest = make_quoted(made, quoted)?;
        fields.push(made)?;
        return Ok(rest);
    }
    let (plain, rest) = split_plain(text);
    fields.push(plain)?;
    Ok(rest)
}
