// The places of a pattern's pieces in a text, each the leftmost that the pieces before it leave.
ghost use Rattle.std.specs.Prelude.{◌≡◌, ◌<◌, [], ◌∷◌, ◌++◌, chars, encode_utf8_all, length, map};
ghost use Rattle.std.specs.Option.{option_copied};
ghost use Rattle.md_text.specs.Wild.{wild, some_end};
ghost use Rattle.md_text.specs.Scan.{first_after};

use md_value::Text;
use memchr::memmem;

// What stands after the leftmost place of the piece in the text.
fn after_first<'a>(text: &'a [u8], piece: &[u8]) -> Option<&'a [u8]>
    ensures { option_copied result ≡ first_after piece.now text.now }
{
    let place = memmem::find(text, piece)?;
    Some(&text[place + piece.len()..])
}

fn bytes_of(piece: &Text) -> &[u8]
    ensures { result.now ≡ encode_utf8_all piece.now }
{
    piece.as_str().as_bytes()
}

// Whether the pieces stand in the text one after another, and the last of them at its end.
fn is_followed(text: &[u8], middle: &[Text], last: &Text) -> bool
    ensures { result ≡ some_end (wild (map encode_utf8_all middle.now ++ encode_utf8_all last.now ∷ [])) text.now }
{
    let mut rest = text;
    for piece in middle {
        match after_first(rest, bytes_of(piece)) {
            Some(after) => rest = after,
            None => return false,
        }
    }
    rest.ends_with(bytes_of(last))
}

// A character of one text begins in the bytes of another only where one of its characters does, so
// that the bytes match as the characters do.
fn are_wild_bytes(text: &[u8], pieces: &[Text]) -> bool
    requires { 0 < length pieces.now }
    ensures { result ≡ wild (map encode_utf8_all pieces.now) text.now }
{
    let Some((first, others)) = pieces.split_first() else {
        unreachable!()
    };
    let Some((last, middle)) = others.split_last() else {
        return text == bytes_of(first);
    };
    match text.strip_prefix(bytes_of(first)) {
        Some(rest) => is_followed(rest, middle, last),
        None => false,
    }
}

/// Whether the text is the pieces with any texts between them. Its time is linear in the text.
pub fn is_wild(text: &str, pieces: &[Text]) -> bool
    requires { 0 < length pieces.now }
    ensures { result ≡ wild pieces.now (chars text.now) }
{
    are_wild_bytes(text.as_bytes(), pieces)
}
