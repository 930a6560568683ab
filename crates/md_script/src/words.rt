// The numbers, paths, contents and expressions of a line.
ghost use Rattle.std.specs.Prelude.{◌≡◌, ◌≤◌, length, IfOk, IfSome, Some, None, if◌then◌else◌};
ghost use Rattle.std.specs.Option.{option_map};
ghost use Rattle.std.specs.List.{list_any};
ghost use Rattle.std.specs.Str.{is_utf8};
ghost use Rattle.md_value.specs.Path.{normal};
ghost use Rattle.md_script.specs.Lines.{is_space};
ghost use Rattle.md_words.specs.Numbers.{number_in};
ghost use Rattle.md_script.specs.Words.{client_of, number_of, is_path, folder_of, below_root, path_of, content_of, expression_of};

use crate::escapes::unescaped;
use crate::lines::first;
use md_expr::{Expr, ReadError, read};
use md_value::{Path, PathError};
use md_words::{Utf8, number_in};
use std::alloc::{AllocError, Global};
use std::str;

/// The bytes as a text, if they are UTF-8.
pub fn text_of(bytes: &[u8]) -> Option<&str>
    ensures { option_map (λ t. t.now) result ≡ (if is_utf8 bytes.now then Some bytes.now else None) }
{
    match str::from_utf8(bytes) {
        Ok(text) => Some(text),
        Err(_) => None,
    }
}

/// Whether the bytes are UTF-8.
pub fn is_text(bytes: &[u8]) -> bool
    ensures { result ≡ is_utf8 bytes.now }
{
    text_of(bytes).is_some()
}

// The number from 0 to the most that digits write.
#[tactic(auto, using(crate::proofs::Numerals::no_text, crate::proofs::Numerals::same_number))]
fn number_up_to(most: u64, text: &[u8]) -> Option<u64>
    ensures value { result ≡ number_in 0 most text.now }
    ensures most { IfSome result (λ n. n ≤ most) }
{
    let digits = text_of(text)?;
    number_in(0, most, digits)
}

/// The number of 32 bits that digits write.
#[tactic(auto, unfolding(crate::specs::Words::number_of))]
pub fn number_of(text: &[u8]) -> Option<u32>
    ensures { result ≡ number_of text.now }
{
    let number = number_up_to(u32::MAX as u64, text)?;
    Some(number as u32)
}

/// The number of a client, in digits after the letter `c`.
#[tactic(auto, unfolding(crate::specs::Words::client_of))]
pub fn client_of(word: &[u8]) -> Option<u8>
    ensures { result ≡ client_of word.now }
{
    let Some((letter, digits)) = first(word) else {
        return None;
    };
    if letter != b'c' {
        return None;
    }
    let client = number_up_to(u8::MAX as u64, digits)?;
    Some(client as u8)
}

fn has_space(word: &[u8]) -> bool
    ensures { result ≡ list_any is_space word.now }
{
    word.contains(&b' ')
}

#[tactic(auto, unfolding(crate::specs::Words::is_path))]
fn read_path(alloc: Global, text: &[u8]) -> Result<Option<Path>, AllocError>
    ensures { IfOk result (λ path. path ≡ (if is_path text.now then Some (normal text.now) else None)) }
{
    let Some(text) = text_of(text) else {
        return Ok(None);
    };
    match Path::read(alloc, text) {
        Ok(path) => Ok(Some(path)),
        Err(PathError::Bad) => Ok(None),
        Err(PathError::Memory) => Err(AllocError),
    }
}

/// The path that a text writes with escapes. It may be the root.
#[tactic(auto, unfolding(crate::specs::Words::folder_of))]
pub fn folder_of(alloc: Global, text: &[u8]) -> Result<Option<Path>, AllocError>
    ensures { IfOk result (λ path. path ≡ folder_of text.now) }
{
    match unescaped(alloc, text)? {
        Some(text) => read_path(alloc, &text),
        None => Ok(None),
    }
}

fn below_root(path: Path) -> Option<Path>
    ensures { result ≡ below_root path }
{
    if path.is_root() {
        return None;
    }
    Some(path)
}

/// The path that one word writes, other than the root.
#[tactic(auto, unfolding(crate::specs::Words::path_of))]
pub fn path_of(alloc: Global, word: &[u8]) -> Result<Option<Path>, AllocError>
    ensures { IfOk result (λ path. path ≡ path_of word.now) }
{
    if has_space(word) {
        return Ok(None);
    }
    match folder_of(alloc, word)? {
        Some(path) => Ok(below_root(path)),
        None => Ok(None),
    }
}

fn content_in(alloc: Global, text: &[u8]) -> Result<Option<Utf8>, AllocError>
    ensures { IfOk result (λ r. r ≡ (if is_utf8 text.now then Some text.now else None)) }
{
    match text_of(text) {
        Some(text) => Ok(Some(Utf8::of(alloc, text)?)),
        None => Ok(None),
    }
}

/// The content that the rest of a line writes.
#[tactic(auto, unfolding(crate::specs::Words::content_of))]
pub fn content_of(alloc: Global, rest: &[u8]) -> Result<Option<Utf8>, AllocError>
    ensures { IfOk result (λ text. text ≡ content_of rest.now) }
{
    match unescaped(alloc, rest)? {
        Some(text) => content_in(alloc, &text),
        None => Ok(None),
    }
}

/// The expression that a text is.
#[tactic(auto, unfolding(crate::specs::Words::expression_of, crate::specs::Readings::reading_of), using(md_expr::proofs::Verdicts::verdict_read, md_expr::proofs::Verdicts::verdict_refused))]
pub fn expression_of(alloc: Global, text: &[u8]) -> Result<Option<Expr>, AllocError>
    ensures { IfOk result (λ expr. expr ≡ expression_of text.now) }
{
    let Some(expression) = text_of(text) else {
        return Ok(None);
    };
    match read(alloc, expression) {
        Ok(expr) => Ok(Some(expr)),
        Err(ReadError::Memory) => Err(AllocError),
        Err(_) => Ok(None),
    }
}
