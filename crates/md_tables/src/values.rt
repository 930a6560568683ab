// Names, paths and attributes.
use md_rows::{Field, RowError, put, shown_attributes, yes_or_no};
use md_value::{Attrs, Kind, Name, NameError, Path, PathError, schema_of};
use std::alloc::Global;

/// A text: the name that is read of it, or `bad`.
pub fn name(alloc: Global, fields: &[Field]) -> Result<String, RowError> {
    let [text] = fields else {
        return Err(RowError::Count);
    };
    match Name::read(alloc, text.text()?) {
        Ok(name) => Ok(String::from_str(alloc, name.as_str())?),
        Err(NameError::Bad) => Ok(String::from_str(alloc, "bad")?),
        Err(NameError::Memory) => Err(RowError::Memory),
    }
}

/// A text: the path that is read of it and its last component with ` / ` between them, or `bad`.
pub fn path(alloc: Global, fields: &[Field]) -> Result<String, RowError> {
    let [text] = fields else {
        return Err(RowError::Count);
    };
    match Path::read(alloc, text.text()?) {
        Ok(path) => Ok(format!(in alloc; "{} / {}", path.as_str(), path.name())?),
        Err(PathError::Bad) => Ok(String::from_str(alloc, "bad")?),
        Err(PathError::Memory) => Err(RowError::Memory),
    }
}

/// A path and a folder: whether the path is inside the folder.
pub fn inside(alloc: Global, fields: &[Field]) -> Result<String, RowError> {
    let [path, folder] = fields else {
        return Err(RowError::Count);
    };
    let path = Path::read(alloc, path.text()?)?;
    let folder = Path::read(alloc, folder.text()?)?;
    yes_or_no(alloc, path.inside(&folder))
}

/// Attributes that are put in turn: how each ended, and the attributes at the end.
pub fn puts(alloc: Global, fields: &[Field]) -> Result<String, RowError> {
    let [written] = fields else {
        return Err(RowError::Count);
    };
    let mut attrs = Attrs::new(alloc);
    let mut known = String::new(alloc);
    for attribute in written.text()?.split_terminator(';') {
        known.push_str(put(alloc, &mut attrs, attribute)?)?;
        known.push(' ')?;
    }
    known.push_str(&shown_attributes(alloc, &attrs)?)?;
    Ok(known)
}

fn kind_word(kind: Kind) -> &'static str {
    match kind {
        Kind::Text => "text",
        Kind::Number => "number",
        Kind::Flag => "flag",
        Kind::Moment => "date",
    }
}

/// A name: its kind, whether files may give several values, and whether files set it, or `none`.
pub fn schema(alloc: Global, fields: &[Field]) -> Result<String, RowError> {
    let [name] = fields else {
        return Err(RowError::Count);
    };
    let Some(rule) = schema_of(&Name::read(alloc, name.text()?)?) else {
        return Ok(String::from_str(alloc, "none")?);
    };
    let many = if rule.many { "many" } else { "one" };
    let maker = if rule.from_files { "file" } else { "server" };
    Ok(format!(in alloc; "{} {many} {maker}", kind_word(rule.kind))?)
}
