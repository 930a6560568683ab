// Printed texts.
use md_file_text::{Failure, attrs_text, failure_text, fault_text, shown_path};
use md_rows::{Field, RowError, attributes_of, fault_of};
use md_value::{Name, Path};
use std::alloc::Global;

/// Attributes, names with a space between them, `lines` or `raw`, and a marker: the text.
pub fn attributes(alloc: Global, fields: &[Field]) -> Result<String, RowError> {
    let [attrs, names, form, marker] = fields else {
        return Err(RowError::Count);
    };
    let raw = match form.text()? {
        "lines" => false,
        "raw" => true,
        _ => return Err(RowError::Field),
    };
    let mut asked = Vec::new(alloc);
    for name in names.text()?.split_ascii_whitespace() {
        asked.push(Name::read(alloc, name)?)?;
    }
    let attrs = attributes_of(alloc, attrs.text()?)?;
    Ok(attrs_text(alloc, &attrs, &asked, raw, marker.text()?)?)
}

/// A path: how it stands at the beginning of a line.
pub fn path(alloc: Global, fields: &[Field]) -> Result<String, RowError> {
    let [path] = fields else {
        return Err(RowError::Count);
    };
    Ok(shown_path(alloc, &Path::read(alloc, path.text()?)?)?)
}

/// A path and a fault of its file: the line.
pub fn fault(alloc: Global, fields: &[Field]) -> Result<String, RowError> {
    let [path, fault] = fields else {
        return Err(RowError::Count);
    };
    let path = Path::read(alloc, path.text()?)?;
    Ok(fault_text(alloc, &path, &fault_of(alloc, fault.text()?)?)?)
}

/// A path and `not found`, `not read` or `not listed`: the line.
pub fn failure(alloc: Global, fields: &[Field]) -> Result<String, RowError> {
    let [path, failure] = fields else {
        return Err(RowError::Count);
    };
    let failure = match failure.text()? {
        "not found" => Failure::NotFound,
        "not read" => Failure::NotRead,
        "not listed" => Failure::NotListed,
        _ => return Err(RowError::Field),
    };
    let path = Path::read(alloc, path.text()?)?;
    Ok(failure_text(alloc, &path, failure)?)
}
