// Imports of files.
use imp_kind::{FileKind, Imported, import, kind_of};
use md_rows::{Field, RowError, shown_attributes, shown_fault, shown_filled};
use md_source::Entry;
use md_value::Path;
use std::alloc::Global;

/// When the files were changed: 2024-03-15 10:00:00 in UTC.
const CHANGED: i64 = 1_710_496_800;

/// A path: the kind of its file.
pub fn kind(alloc: Global, fields: &[Field]) -> Result<String, RowError> {
    let [path] = fields else {
        return Err(RowError::Count);
    };
    let word = match kind_of(&Path::read(alloc, path.text()?)?) {
        FileKind::Plain => "text",
        FileKind::Json => "json",
        FileKind::Csv => "csv",
        FileKind::Other => "other",
    };
    Ok(String::from_str(alloc, word)?)
}

/// A path, a size, bytes and an offset: the attributes of the file, or its fault.
pub fn file(alloc: Global, fields: &[Field]) -> Result<String, RowError> {
    let [path, size, bytes, offset] = fields else {
        return Err(RowError::Count);
    };
    let entry = Entry {
        path: Path::read(alloc, path.text()?)?,
        size: size.unsigned()?,
        changed: CHANGED,
    };
    match import(alloc, &entry, bytes.bytes(), offset.offset()?) {
        Imported::Attrs(attrs) => Ok(shown_attributes(alloc, &attrs)?),
        Imported::Fault(fault) => Ok(shown_fault(alloc, &fault)?),
        Imported::Memory => Err(RowError::Memory),
    }
}

/// A text: the attributes that a text file of it gives.
pub fn text(alloc: Global, fields: &[Field]) -> Result<String, RowError> {
    let [text] = fields else {
        return Err(RowError::Count);
    };
    shown_filled(alloc, imp_text::fill(alloc, text.text()?))
}

/// A JSON text and an offset: the attributes that it gives, or its fault.
pub fn json(alloc: Global, fields: &[Field]) -> Result<String, RowError> {
    let [text, offset] = fields else {
        return Err(RowError::Count);
    };
    shown_filled(alloc, imp_json::fill(alloc, text.text()?, offset.offset()?))
}

/// A CSV text and an offset: the attributes that it gives, or its fault.
pub fn csv(alloc: Global, fields: &[Field]) -> Result<String, RowError> {
    let [text, offset] = fields else {
        return Err(RowError::Count);
    };
    shown_filled(alloc, imp_csv::fill(alloc, text.text()?, offset.offset()?))
}
