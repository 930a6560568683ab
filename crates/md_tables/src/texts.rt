// Keys of texts and patterns.
use md_rows::{Field, RowError, Sum, yes_or_no};
use md_text::{Key, Pattern};
use md_value::Text;
use std::alloc::{AllocError, Global};
use std::cmp::Ordering;

fn shown(alloc: Global, key: &Key) -> Result<String, AllocError> {
    let mut shown = String::new(alloc);
    for character in key.as_slice() {
        shown.push(*character)?;
    }
    Ok(shown)
}

/// A text and modifiers: the characters of the key.
pub fn key(alloc: Global, fields: &[Field]) -> Result<String, RowError> {
    let [text, modifiers] = fields else {
        return Err(RowError::Count);
    };
    let modifiers = modifiers.modifiers()?;
    let key = Key::of(alloc, text.text()?, modifiers.fold, modifiers.marks)?;
    Ok(shown(alloc, &key)?)
}

// Adds the four keys of a character to the sum, each with a line feed behind it.
fn add_keys(alloc: Global, sum: &mut Sum, character: char) -> Result<(), RowError> {
    let mut room = [0; 4];
    let text = character.encode_utf8(&mut room);
    for (fold, marks) in [(false, false), (true, false), (false, true), (true, true)] {
        sum.add(&shown(alloc, &Key::of(alloc, text, fold, marks)?)?);
        sum.add("\n");
    }
    Ok(())
}

/// The numbers of a first and of a last character: one sum over the keys of all of them.
pub fn key_range(alloc: Global, fields: &[Field]) -> Result<String, RowError> {
    let [first, last] = fields else {
        return Err(RowError::Count);
    };
    let mut sum = Sum::new();
    for number in first.count()?..=last.count()? {
        if let Some(character) = char::from_u32(number) {
            add_keys(alloc, &mut sum, character)?;
        }
    }
    Ok(format!(in alloc; "{:016x}", sum.value())?)
}

/// Two texts and modifiers: how their keys compare.
pub fn key_order(alloc: Global, fields: &[Field]) -> Result<String, RowError> {
    let [left, right, modifiers] = fields else {
        return Err(RowError::Count);
    };
    let modifiers = modifiers.modifiers()?;
    let left = Key::of(alloc, left.text()?, modifiers.fold, modifiers.marks)?;
    let right = Key::of(alloc, right.text()?, modifiers.fold, modifiers.marks)?;
    let word = match left.cmp(&right) {
        Ordering::Less => "less",
        Ordering::Equal => "equal",
        Ordering::Greater => "greater",
    };
    Ok(String::from_str(alloc, word)?)
}

/// Pieces with `|` between them, modifiers and a text: whether the text matches.
pub fn pattern(alloc: Global, fields: &[Field]) -> Result<String, RowError> {
    let [words, modifiers, text] = fields else {
        return Err(RowError::Count);
    };
    let modifiers = modifiers.modifiers()?;
    let mut pieces = Vec::new(alloc);
    for piece in words.text()?.split('|') {
        pieces.push(Text::of(alloc, piece)?)?;
    }
    if pieces.is_empty() {
        return Err(RowError::Field);
    }
    let pattern = Pattern::of(alloc, &pieces, modifiers.fold, modifiers.marks)?;
    let matches = pattern.matches(alloc, text.text()?, modifiers.fold, modifiers.marks)?;
    yes_or_no(alloc, matches)
}
