// The files that are made.
ghost use Rattle.std.specs.Prelude.{◌≡◌, ◌<◌, ◌≤◌, ◌++◌, IfOk, OnOk, string_bytes};
ghost use Rattle.md_gen.specs.Files.{after_content, after_file, after_files, content, csv, drawn_content, drawn_file, drawn_files, json, path};

use crate::draws::Draws;
use crate::kind::Kind;
use crate::words::word;
use md_source::Entry;
use md_value::{Path, PathError, PlainVec};
use std::alloc::{AllocError, Global};

/// How many kinds of files there are.
const KINDS: usize = 3;

/// How many words there are.
const WORDS: usize = 8;

/// How many ratings there are, from 0 on.
const RATINGS: usize = 6;

// Appends an object of a title and a rating.
fn push_json(text: &mut String, title: &str, rating: usize) -> Result<(), AllocError>
    ensures { OnOk result (string_bytes text.new ≡ string_bytes text.old ++ json title.now rating) }
{
    write!(
        text,
        "{{\"kMDItemTitle\":\"{title}\",\"kMDItemStarRating\":{rating}}}"
    )
}

// Appends a record of a keyword and a note, below the names of both.
fn push_csv(text: &mut String, keyword: &str, note: &str) -> Result<(), AllocError>
    ensures { OnOk result (string_bytes text.new ≡ string_bytes text.old ++ csv keyword.now note.now) }
{
    write!(text, "kMDItemKeywords,notes\n{keyword},{note}\n")
}

// Appends a file's content.
fn push_content(
    text: &mut String,
    kind: Kind,
    first: &str,
    second: &str,
    rating: usize,
) -> Result<(), AllocError>
    ensures { OnOk result (string_bytes text.new ≡ string_bytes text.old ++ content kind first.now second.now rating) }
{
    match kind {
        Kind::Text => write!(text, "{first} {second}"),
        Kind::Json => push_json(text, first, rating),
        Kind::Csv => push_csv(text, first, second),
    }
}

// The content of a file of a kind.
#[tactic(auto, unfolding(crate::specs::Files::drawn_content))]
fn content(alloc: Global, draws: &mut Draws, kind: Kind) -> Result<String, AllocError>
    ensures content { IfOk result (λ text. string_bytes text ≡ drawn_content draws.old.state kind) }
    ensures draws { draws.new.state ≡ after_content draws.old.state }
{
    let first = word(draws.draw(WORDS));
    let second = word(draws.draw(WORDS));
    let rating = draws.draw(RATINGS);
    let mut text = String::new(alloc);
    push_content(&mut text, kind, first, second, rating)?;
    Ok(text)
}

// Appends the path of a file.
#[tactic(auto, unfolding(crate::specs::Files::path))]
fn push_path(text: &mut String, i: u32, kind: Kind) -> Result<(), AllocError>
    ensures { OnOk result (string_bytes text.new ≡ string_bytes text.old ++ path i kind) }
{
    let ending = kind.ending();
    write!(text, "g/f{i}{ending}")
}

// The path of the i-th file, of which there are few enough that it is never refused.
fn path_of(alloc: Global, i: u32, kind: Kind) -> Result<Path, AllocError>
    requires { i < 10000 }
    ensures { IfOk result (λ made. made ≡ path i kind) }
{
    let mut text = String::new(alloc);
    push_path(&mut text, i, kind)?;
    match Path::read(alloc, text.as_str()) {
        Ok(path) => Ok(path),
        Err(PathError::Bad) => unreachable!(),
        Err(PathError::Memory) => Err(AllocError),
    }
}

// A file and what it holds.
#[tactic(auto, unfolding(crate::specs::Files::drawn_file))]
fn file(alloc: Global, draws: &mut Draws, i: u32) -> Result<(Entry, PlainVec<u8>), AllocError>
    requires { i < 10000 }
    ensures file { IfOk result (λ made. made ≡ drawn_file draws.old.state i) }
    ensures draws { draws.new.state ≡ after_file draws.old.state }
{
    let kind = Kind::of(draws.draw(KINDS));
    let content = content(alloc, draws, kind)?.into_bytes();
    let path = path_of(alloc, i, kind)?;
    let entry = Entry {
        path,
        size: content.len() as u64,
        changed: 0,
    };
    Ok((entry, PlainVec::from_vec(content)))
}

/// The first n files, with what they hold.
pub(crate) fn files(
    alloc: Global,
    draws: &mut Draws,
    n: u32,
) -> Result<Vec<(Entry, PlainVec<u8>)>, AllocError>
    requires { n ≤ 10000 }
    ensures { IfOk result (λ made. (made.items ≡ drawn_files draws.old.state 0 n) × (draws.new.state ≡ after_files draws.old.state n)) }
{
    let mut made = Vec::with_capacity(alloc, n as usize)?;
    for i in 0..n {
        made.push(file(alloc, draws, i)?)?;
    }
    Ok(made)
}
