// The characters of a key: decomposed, folded, and less their marks.
ghost use Rattle.std.specs.Prelude.{◌≡◌, ◌++◌, ◌<◌, [], chars, encode_utf8_all, map, filter, flat_map, string_bytes, Bool, IfOk, IsTrue, OnOk, if◌then◌else◌};
ghost use Rattle.std.specs.Char.{to_ascii_lowercase};
ghost use Rattle.caseless.specs.Caseless.{default_case_fold, canonical_key};
ghost use Rattle.ucd_case.specs.CaseFolding.{full_fold};
ghost use Rattle.unicode_normalization.specs.Decompose.{decompose};
ghost use Rattle.unicode_normalization.specs.Forms.{Nfd, nfd};
ghost use Rattle.unicode_normalization.specs.Order.{is_ordered, is_reorderable};
ghost use Rattle.md_text.specs.Key.{key, is_kept};

use std::alloc::{AllocError, Global};
use ucd_case::full_folding;
use ucd_category::GeneralCategory;
use unicode_normalization::Form;
use unicode_normalization::char::{canonical_combining_class, decomposition};
use unicode_normalization::slice::extend_nfd;

fn characters_of(alloc: Global, text: &str) -> Result<Vec<char>, AllocError>
    ensures { IfOk result (λ made. made.items ≡ chars text.now) }
{
    text.chars().collect(alloc)
}

fn push_folded(made: &mut Vec<char>, character: char) -> Result<(), AllocError>
    ensures { OnOk result (made.new.items ≡ made.old.items ++ full_fold character) }
{
    let folded = full_folding(character);
    if folded.is_empty() {
        made.push(character)?;
        return Ok(());
    }
    made.extend_from_slice(folded)
}

// Adds the full case folding of the characters.
fn push_all_folded(made: &mut Vec<char>, characters: &[char]) -> Result<(), AllocError>
    ensures { OnOk result (made.new.items ≡ made.old.items ++ default_case_fold characters.now) }
{
    for character in characters {
        push_folded(made, *character)?;
    }
    Ok(())
}

fn is_kept(character: char) -> bool
    ensures { result ≡ is_kept character }
{
    !matches!(
        GeneralCategory::for_char(character),
        GeneralCategory::NonspacingMark
    )
}

fn drop_marks(characters: &mut Vec<char>)
    ensures { characters.new.items ≡ filter is_kept characters.old.items }
{
    characters.retain(
        |character: &char| -> bool
            ensures { result ≡ is_kept character.now }
        { is_kept(*character) },
    );
}

// Most decompositions have one or two characters.
#[inline]
fn push_few(made: &mut Vec<char>, characters: &[char]) -> Result<(), AllocError>
    ensures { OnOk result (made.new.items ≡ made.old.items ++ characters.now) }
{
    for character in characters {
        made.push(*character)?;
    }
    Ok(())
}

// Adds the full canonical decomposition of each of the characters.
fn push_all_decomposed(made: &mut Vec<char>, characters: &[char]) -> Result<(), AllocError>
    ensures { OnOk result (made.new.items ≡ made.old.items ++ flat_map (decompose Nfd) characters.now) }
{
    for character in characters {
        let mut space = [*character; 3];
        push_few(made, decomposition(*character, Form::Nfd, &mut space))?;
    }
    Ok(())
}

// Whether a mark stands after one that it has to stand before.
#[tactic(auto, unfolding(unicode_normalization::specs::Order::is_reorderable))]
fn is_reorderable(before: char, after: char) -> bool
    ensures { result ≡ is_reorderable before after }
{
    let class = canonical_combining_class(after);
    class > 0 && class < canonical_combining_class(before)
}

// Whether the characters are in canonical order.
fn is_ordered(characters: &[char]) -> bool
    ensures { result ≡ is_ordered characters.now }
{
    let [first, rest @ ..] = characters else {
        return true;
    };
    let mut before = *first;
    for after in rest {
        if is_reorderable(before, *after) {
            return false;
        }
        before = *after;
    }
    true
}

// Adds the canonical decomposition of the characters. Most texts are in order once each character is decomposed.
#[tactic(auto, using(crate::proofs::Parts::nfd_ordered))]
fn push_nfd(made: &mut Vec<char>, characters: &[char]) -> Result<(), AllocError>
    requires { made.old.items ≡ [] }
    ensures { OnOk result (made.new.items ≡ nfd characters.now) }
{
    push_all_decomposed(made, characters)?;
    if is_ordered(made) {
        return Ok(());
    }
    made.clear();
    extend_nfd(made, characters)
}

// Puts the canonical decomposition of the characters in their place. What `room` held is gone.
fn decompose(characters: &mut Vec<char>, room: &mut Vec<char>) -> Result<(), AllocError>
    ensures { OnOk result (characters.new.items ≡ nfd characters.old.items) }
{
    room.clear();
    push_nfd(room, characters)?;
    std::mem::swap(characters, room);
    Ok(())
}

// The same for characters most of which are decomposed, which is tested first.
fn decompose_again(characters: &mut Vec<char>, room: &mut Vec<char>) -> Result<(), AllocError>
    ensures { OnOk result (characters.new.items ≡ nfd characters.old.items) }
{
    room.clear();
    extend_nfd(room, characters)?;
    std::mem::swap(characters, room);
    Ok(())
}

// Puts the full case folding of the characters in their place. What `room` held is gone.
fn fold(characters: &mut Vec<char>, room: &mut Vec<char>) -> Result<(), AllocError>
    ensures { OnOk result (characters.new.items ≡ default_case_fold characters.old.items) }
{
    room.clear();
    push_all_folded(room, characters)?;
    std::mem::swap(characters, room);
    Ok(())
}

// Puts the canonical decomposition of the characters in their place; folded, the key of definition D145 of the Unicode
// Standard.
fn with_marks(
    characters: &mut Vec<char>,
    room: &mut Vec<char>,
    fold_case: bool,
) -> Result<(), AllocError>
    ensures { OnOk result (characters.new.items
        ≡ (if fold_case then canonical_key characters.old.items else nfd characters.old.items)) }
{
    decompose(characters, room)?;
    if !fold_case {
        return Ok(());
    }
    fold(characters, room)?;
    decompose_again(characters, room)
}

// Puts the key of the characters in their place. What `room` held is gone.
#[tactic(auto, unfolding(crate::specs::Key::key))]
fn make_key(
    characters: &mut Vec<char>,
    room: &mut Vec<char>,
    fold: bool,
    marks: bool,
) -> Result<(), AllocError>
    ensures { OnOk result (characters.new.items ≡ key fold marks characters.old.items) }
{
    with_marks(characters, room, fold)?;
    if marks {
        drop_marks(characters);
    }
    Ok(())
}

fn push_all(text: &mut String, characters: &[char]) -> Result<(), AllocError>
    ensures { OnOk result (string_bytes text.new ≡ string_bytes text.old ++ encode_utf8_all characters.now) }
{
    for character in characters {
        text.push(*character)?;
    }
    Ok(())
}

// Adds the key of the characters to a text, and takes them away.
#[inline]
fn push_key(
    text: &mut String,
    characters: &mut Vec<char>,
    room: &mut Vec<char>,
    fold: bool,
    marks: bool,
) -> Result<(), AllocError>
    ensures added { OnOk result (string_bytes text.new
        ≡ string_bytes text.old ++ encode_utf8_all (key fold marks characters.old.items)) }
    ensures taken { OnOk result (characters.new.items ≡ []) }
{
    if characters.is_empty() {
        return Ok(());
    }
    make_key(characters, room, fold, marks)?;
    push_all(text, characters)?;
    characters.clear();
    Ok(())
}

// The key of an ASCII character.
fn ascii_character(character: char, fold: bool) -> char
    requires { character < 128 }
    ensures { result ≡ (if fold then to_ascii_lowercase character else character) }
{
    if fold {
        character.to_ascii_lowercase()
    } else {
        character
    }
}

// No key goes over an ASCII character: it is a starter that decomposes to itself. Only what stands between them goes by the
// tables.
fn mixed_key(alloc: Global, text: &str, fold: bool, marks: bool) -> Result<String, AllocError>
    ensures { IfOk result (λ made. chars (string_bytes made) ≡ key fold marks (chars text.now)) }
{
    let mut made = String::with_capacity(alloc, text.len())?;
    let mut others = Vec::new(alloc);
    let mut room = Vec::new(alloc);
    for character in text.chars() {
        if character.is_ascii() {
            push_key(&mut made, &mut others, &mut room, fold, marks)?;
            made.push(ascii_character(character, fold))?;
        } else {
            others.push(character)?;
        }
    }
    push_key(&mut made, &mut others, &mut room, fold, marks)?;
    Ok(made)
}

// An ASCII text is its own decomposition, folds to lower case and has no marks.
fn ascii_key(alloc: Global, text: &[u8], fold: bool) -> Result<Vec<char>, AllocError>
    ensures { IfOk result (λ made. made.items
        ≡ (if fold then map to_ascii_lowercase text.now else text.now)) }
{
    if fold {
        text.iter()
            .map(|byte| char::from(byte.to_ascii_lowercase()))
            .collect(alloc)
    } else {
        text.iter().map(|byte| char::from(*byte)).collect(alloc)
    }
}

/// Whether this shows that the text is its own key, under any `marks`.
pub fn is_own_key(text: &str, fold: bool) -> bool
    ensures { (marks : Bool) → IsTrue result → key fold marks (chars text.now) ≡ chars text.now }
{
    !fold && text.is_ascii()
}

/// The key of a text, as a text.
pub fn key_text(alloc: Global, text: &str, fold: bool, marks: bool) -> Result<String, AllocError>
    ensures { IfOk result (λ made. chars (string_bytes made) ≡ key fold marks (chars text.now)) }
{
    if fold && text.is_ascii() {
        return text.to_ascii_lowercase(alloc);
    }
    mixed_key(alloc, text, fold, marks)
}

/// The characters of the key of a text.
pub fn key_characters(
    alloc: Global,
    text: &str,
    fold: bool,
    marks: bool,
) -> Result<Vec<char>, AllocError>
    ensures { IfOk result (λ made. made.items ≡ key fold marks (chars text.now)) }
{
    if text.is_ascii() {
        return ascii_key(alloc, text.as_bytes(), fold);
    }
    let key = mixed_key(alloc, text, fold, marks)?;
    characters_of(alloc, &key)
}
