// The lines of a text, and the words of a line.
ghost use Rattle.std.specs.Prelude.{◌≡◌, ◌==◌, ◌<◌, [], ◌∷◌, length, is_some, IfSome, MatchOption};
ghost use Rattle.std.specs.List.{position_or_len, list_any, before_first, after_first};
ghost use Rattle.std.specs.Str.Lines.{lines, strip_carriage_return};
ghost use Rattle.md_script.specs.Lines.{first_word, after_word};

// Where a byte stands first, or the length.
fn place_of(byte: u8, text: &[u8]) -> usize
    ensures { result ≡ position_or_len (λ b. b == byte) text.now }
{
    match text.iter().position(|b| *b == byte) {
        Some(place) => place,
        None => text.len(),
    }
}

/// The first byte, and the others.
pub fn first(text: &[u8]) -> Option<(u8, &[u8])>
    ensures { MatchOption result (text.now ≡ []) (λ x. text.now ≡ x.0 ∷ x.1.now) }
{
    match text {
        [] => None,
        [byte, rest @ ..] => Some((*byte, rest)),
    }
}

/// What stands before the first such byte and what stands after it, if there is one.
pub fn split_once(byte: u8, text: &[u8]) -> Option<(&[u8], &[u8])>
    ensures found { is_some result ≡ list_any (λ b. b == byte) text.now }
    ensures parts { IfSome result (λ p. (p.0.now ≡ before_first (λ b. b == byte) text.now) × (p.1.now ≡ after_first (λ b. b == byte) text.now)) }
{
    let end = place_of(byte, text);
    if end < text.len() {
        Some((&text[..end], &text[end + 1..]))
    } else {
        None
    }
}

/// The word before the first space, and what follows the space.
#[tactic(auto, unfolding(crate::specs::Lines::first_word, crate::specs::Lines::after_word))]
pub fn split_word(text: &[u8]) -> (&[u8], &[u8])
    ensures word { result.0.now ≡ first_word text.now }
    ensures rest { result.1.now ≡ after_word text.now }
{
    let end = place_of(b' ', text);
    if end < text.len() {
        (&text[..end], &text[end + 1..])
    } else {
        (text, &[])
    }
}

fn without_carriage_return(line: &[u8]) -> &[u8]
    ensures { result.now ≡ strip_carriage_return line.now }
{
    match line {
        [rest @ .., b'\r'] => rest,
        _ => line,
    }
}

/// The first line, and what follows it.
pub fn first_line(bytes: &[u8]) -> (&[u8], &[u8])
    requires { 0 < length bytes.now }
    ensures lines { lines bytes.now ≡ result.0.now ∷ lines result.1.now }
    ensures shorter { length result.1.now < length bytes.now }
{
    let end = place_of(b'\n', bytes);
    if end < bytes.len() {
        (without_carriage_return(&bytes[..end]), &bytes[end + 1..])
    } else {
        (bytes, &[])
    }
}

pub fn count_lines(bytes: &[u8]) -> usize
    ensures { result ≡ length (lines bytes.now) }
{
    let mut count = 0;
    let mut rest = bytes;
    while !rest.is_empty() {
        let (_, after) = first_line(rest);
        count += 1;
        rest = after;
    }
    count
}
