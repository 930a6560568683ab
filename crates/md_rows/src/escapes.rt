// The escapes in the texts of `data/`.
use std::alloc::{AllocError, Global};

/// The bytes that a text with escapes stands for, or `None` where an escape is not well formed.
///
/// `\n`, `\r`, `\t`, `\0` and `\\` are a line feed, a carriage return, a tab, a zero byte and a backslash, `\xNN` is the byte
/// of two hexadecimal digits, `\u{H}` the character of hexadecimal digits, and a backslash before a line feed joins the lines. `\{COUNT TEXT}` is TEXT so many times, and
/// `\{FIRST..LAST TEXT}` once for each number from FIRST to LAST. In TEXT `\#` is the number of the turn, from 1 or from
/// FIRST, and `\}` a brace; no repetition stands in another.
pub fn unescape(alloc: Global, text: &[u8]) -> Result<Option<Vec<u8>>, AllocError> {
    let mut bytes = Vec::new(alloc);
    let mut rest = text;
    for _ in 0..text.len() {
        let Some((first, after)) = rest.split_first() else {
            break;
        };
        rest = after;
        if *first != b'\\' {
            bytes.push(*first)?;
        } else if let [b'{', repetition @ ..] = rest {
            let Some(after) = push_repeated(alloc, repetition, &mut bytes)? else {
                return Ok(None);
            };
            rest = after;
        } else {
            let Some(after) = push_escaped(rest, &mut bytes)? else {
                return Ok(None);
            };
            rest = after;
        }
    }
    Ok(Some(bytes))
}

// Adds what one escape stands for, whose text begins after the backslash, and gives what follows.
fn push_escaped<'a>(text: &'a [u8], bytes: &mut Vec<u8>) -> Result<Option<&'a [u8]>, AllocError> {
    let (byte, rest) = match text {
        [b'n', rest @ ..] => (b'\n', rest),
        [b'r', rest @ ..] => (b'\r', rest),
        [b't', rest @ ..] => (b'\t', rest),
        [b'0', rest @ ..] => (0, rest),
        [b'\\', rest @ ..] => (b'\\', rest),
        [b'\n', rest @ ..] => return Ok(Some(rest)),
        [b'u', rest @ ..] => return push_character_of(rest, bytes),
        [b'x', high, low, rest @ ..] => match byte_of(*high, *low) {
            Some(byte) => (byte, rest),
            None => return Ok(None),
        },
        _ => return Ok(None),
    };
    bytes.push(byte)?;
    Ok(Some(rest))
}

// Adds the character of `{H}`, and gives what follows.
fn push_character_of<'a>(
    text: &'a [u8],
    bytes: &mut Vec<u8>,
) -> Result<Option<&'a [u8]>, AllocError> {
    let Some((character, rest)) = character_of(text) else {
        return Ok(None);
    };
    bytes.extend_from_slice(character.encode_utf8(&mut [0; 4]).as_bytes())?;
    Ok(Some(rest))
}

fn character_of(text: &[u8]) -> Option<(char, &[u8])> {
    let (digits, rest) = split_once(text.strip_prefix(b"{")?, b'}')?;
    let digits = std::str::from_utf8(digits).ok()?;
    let number = u32::from_str_radix(digits, 16).ok()?;
    Some((char::from_u32(number)?, rest))
}

fn byte_of(high: u8, low: u8) -> Option<u8> {
    Some((digit_of(high)? << 4) | digit_of(low)?)
}

fn digit_of(digit: u8) -> Option<u8> {
    match digit {
        b'0'..=b'9' => Some(digit - b'0'),
        b'a'..=b'f' => Some(digit - b'a' + 10),
        b'A'..=b'F' => Some(digit - b'A' + 10),
        _ => None,
    }
}

// Adds the turns of a repetition, whose text begins after the brace, and gives what follows its end.
fn push_repeated<'a>(
    alloc: Global,
    text: &'a [u8],
    bytes: &mut Vec<u8>,
) -> Result<Option<&'a [u8]>, AllocError> {
    let Some((count, body)) = split_once(text, b' ') else {
        return Ok(None);
    };
    let Some((first, last)) = turns_of(count) else {
        return Ok(None);
    };
    let Some((body, after)) = split_at_brace(body) else {
        return Ok(None);
    };
    let well_formed = if has_number(body) {
        push_turns(alloc, body, first, last, bytes)?
    } else {
        push_copies(
            alloc,
            body,
            last.saturating_sub(first).saturating_add(1),
            bytes,
        )?
    };
    Ok(if well_formed { Some(after) } else { None })
}

// What stands before and after the first of these bytes.
fn split_once(text: &[u8], byte: u8) -> Option<(&[u8], &[u8])> {
    for (place, other) in text.iter().enumerate() {
        if *other == byte {
            return around(text, place);
        }
    }
    None
}

// What stands before and after the first brace that no backslash stands before.
fn split_at_brace(text: &[u8]) -> Option<(&[u8], &[u8])> {
    let mut escaped = false;
    for (place, byte) in text.iter().enumerate() {
        if escaped {
            escaped = false;
        } else if *byte == b'\\' {
            escaped = true;
        } else if *byte == b'}' {
            return around(text, place);
        }
    }
    None
}

fn around(text: &[u8], place: usize) -> Option<(&[u8], &[u8])> {
    let (before, rest) = text.split_at_checked(place)?;
    let (_, after) = rest.split_first()?;
    Some((before, after))
}

/// The numbers of the turns of `COUNT` or `FIRST..LAST`.
pub fn turns_of(count: &[u8]) -> Option<(u64, u64)> {
    let count = std::str::from_utf8(count).ok()?;
    let (first, last) = count.split_once("..").unwrap_or(("1", count));
    Some((first.parse().ok()?, last.parse().ok()?))
}

// Whether the text speaks of the number of its turn.
fn has_number(text: &[u8]) -> bool {
    let mut escaped = false;
    for byte in text {
        if escaped && *byte == b'#' {
            return true;
        }
        escaped = !escaped && *byte == b'\\';
    }
    false
}

// Adds a text once for each of these numbers, where it is well formed.
fn push_turns(
    alloc: Global,
    text: &[u8],
    first: u64,
    last: u64,
    bytes: &mut Vec<u8>,
) -> Result<bool, AllocError> {
    for turn in first..=last {
        let number = format!(in alloc; "{turn}")?;
        if !push_turn(text, number.as_bytes(), bytes)? {
            return Ok(false);
        }
    }
    Ok(true)
}

// Adds a text without a number so many times, where it is well formed.
fn push_copies(
    alloc: Global,
    text: &[u8],
    count: u64,
    bytes: &mut Vec<u8>,
) -> Result<bool, AllocError> {
    let mut copy = Vec::new(alloc);
    if !push_turn(text, b"", &mut copy)? {
        return Ok(false);
    }
    for _ in 0..count {
        bytes.extend_from_slice(&copy)?;
    }
    Ok(true)
}

// Adds a text in the turn of this number, where it is well formed.
fn push_turn(text: &[u8], number: &[u8], bytes: &mut Vec<u8>) -> Result<bool, AllocError> {
    let mut rest = text;
    for _ in 0..text.len() {
        match rest {
            [] => break,
            [b'\\', b'#', after @ ..] => {
                bytes.extend_from_slice(number)?;
                rest = after;
            }
            [b'\\', b'}', after @ ..] => {
                bytes.push(b'}')?;
                rest = after;
            }
            [b'\\', after @ ..] => {
                let Some(after) = push_escaped(after, bytes)? else {
                    return Ok(false);
                };
                rest = after;
            }
            [byte, after @ ..] => {
                bytes.push(*byte)?;
                rest = after;
            }
        }
    }
    Ok(true)
}

/// A text as escapes spell it, so that it stands on one line.
pub fn escape(alloc: Global, bytes: &[u8]) -> Result<String, AllocError> {
    let mut text = String::new(alloc);
    match std::str::from_utf8(bytes) {
        Ok(read) => {
            for character in read.chars() {
                push_character(&mut text, character)?;
            }
        }
        Err(_) => {
            for byte in bytes {
                push_byte(alloc, &mut text, *byte)?;
            }
        }
    }
    Ok(text)
}

fn push_character(text: &mut String, character: char) -> Result<(), AllocError> {
    match character {
        '\n' => text.push_str("\\n"),
        '\r' => text.push_str("\\r"),
        '\t' => text.push_str("\\t"),
        '\0' => text.push_str("\\0"),
        '\\' => text.push_str("\\\\"),
        _ => text.push(character),
    }
}

fn push_byte(alloc: Global, text: &mut String, byte: u8) -> Result<(), AllocError> {
    if byte < 0x80 {
        push_character(text, char::from(byte))
    } else {
        text.push_str(format!(in alloc; "\\x{byte:02x}")?.as_str())
    }
}
