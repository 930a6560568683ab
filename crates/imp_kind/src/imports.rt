// The import of a file.
ghost use Rattle.std.specs.Prelude.{◌≡◌, nat_eq, ◌∷◌, []};
ghost use Rattle.std.specs.List.{starts_with};
ghost use Rattle.md_value.specs.Values.{IsMoment};
ghost use Rattle.imp_rules.specs.Faults.{FillsAs};
ghost use Rattle.csv.specs.Reading.{strip_bom};
ghost use Rattle.imp_kind.specs.Imports.{text_of_kind, bytes_of_kind, sized_bytes, content_attributes, import, IsImported};

use crate::base::put_base;
use crate::{FileKind, kind_of};
use md_source::Entry;
use md_value::{Attrs, Fault, FillFault};
use std::alloc::Global;

/// The most bytes of a file that are imported.
const MOST_BYTES: u64 = 16_777_216;

/// What the import of a file gives.
#[derive(Debug, Drop)]
pub enum Imported {
    Attrs(Attrs),
    /// The first thing that is wrong with the file.
    Fault(Fault),
    Memory,
}

// Whether the byte order mark, U+FEFF in UTF-8, stands before the text.
fn has_mark(text: &[u8]) -> bool
    ensures { result ≡ starts_with nat_eq text.now (239 ∷ 187 ∷ 191 ∷ []) }
{
    text.starts_with(b"\xef\xbb\xbf")
}

// The text without a byte order mark before it.
#[tactic(auto, using(crate::proofs::Marks::cut_off, crate::proofs::Marks::left_whole))]
fn without_mark(text: &str) -> &str
    ensures { result.now ≡ strip_bom text.now }
{
    if has_mark(text.as_bytes()) {
        &text[3..]
    } else {
        text
    }
}

fn text_of_kind(alloc: Global, kind: FileKind, text: &str, offset: i32) -> Result<Attrs, FillFault>
    ensures { FillsAs result (text_of_kind kind text.now offset) }
{
    match kind {
        FileKind::Plain => imp_text::fill(alloc, text),
        FileKind::Json => imp_json::fill(alloc, text, offset),
        FileKind::Csv => imp_csv::fill(alloc, text, offset),
        FileKind::Other => Ok(Attrs::new(alloc)),
    }
}

fn bytes_of_kind(
    alloc: Global,
    kind: FileKind,
    bytes: &[u8],
    offset: i32,
) -> Result<Attrs, FillFault>
    ensures { FillsAs result (bytes_of_kind kind bytes.now offset) }
{
    match std::str::from_utf8(bytes) {
        Ok(text) => text_of_kind(alloc, kind, without_mark(text), offset),
        Err(error) => Err(FillFault::Fault(Fault::NotUtf8(error.valid_up_to() as u64))),
    }
}

fn sized_bytes(
    alloc: Global,
    kind: FileKind,
    size: u64,
    bytes: &[u8],
    offset: i32,
) -> Result<Attrs, FillFault>
    ensures { FillsAs result (sized_bytes kind size bytes.now offset) }
{
    if size > MOST_BYTES {
        return Err(FillFault::Fault(Fault::TooLarge(size)));
    }
    bytes_of_kind(alloc, kind, bytes, offset)
}

fn content_attributes(
    alloc: Global,
    kind: FileKind,
    size: u64,
    bytes: &[u8],
    offset: i32,
) -> Result<Attrs, FillFault>
    ensures { FillsAs result (content_attributes kind size bytes.now offset) }
{
    match kind {
        FileKind::Other => Ok(Attrs::new(alloc)),
        _ => sized_bytes(alloc, kind, size.max(bytes.len() as u64), bytes, offset),
    }
}

fn attributes_of(
    alloc: Global,
    entry: &Entry,
    bytes: &[u8],
    offset: i32,
) -> Result<Attrs, FillFault>
    requires { IsMoment entry.now.changed }
    ensures { FillsAs result (import entry.now bytes.now offset) }
{
    let kind = kind_of(&entry.path);
    let mut attrs = content_attributes(alloc, kind, entry.size, bytes, offset)?;
    put_base(alloc, &mut attrs, entry, kind)?;
    Ok(attrs)
}

/// The attributes of a file with this entry and these bytes, which may be fewer than the entry says. A date alone is
/// the first second of that day at `offset`, in minutes by which local time is ahead of UTC.
///
/// A file of kind `Other` has no fault. For the others, `TooLarge(n)` comes exactly where n, the greater of the entry's
/// size and the number of bytes, is over 16,777,216, then `NotUtf8(n)` exactly where the bytes are not UTF-8, with the
/// length of the longest prefix that is, and then the faults of the kind over the text without a byte order mark.
pub fn import(alloc: Global, entry: &Entry, bytes: &[u8], offset: i32) -> Imported
    requires { IsMoment entry.now.changed }
    ensures { IsImported result (import entry.now bytes.now offset) }
{
    match attributes_of(alloc, entry, bytes, offset) {
        Ok(attrs) => Imported::Attrs(attrs),
        Err(FillFault::Fault(fault)) => Imported::Fault(fault),
        Err(FillFault::Memory) => Imported::Memory,
    }
}
