// Files and scripts that are made from a number.
use md_gen::{Made, make};
use md_rows::{Field, RowError, Sum};
use md_words::MOST_MADE;
use std::alloc::Global;

fn made(alloc: Global, fields: &[Field]) -> Result<Made, RowError> {
    let [start, count] = fields else {
        return Err(RowError::Count);
    };
    let start = start.unsigned()?;
    let count = count.count()?;
    if count < 1 || MOST_MADE < count {
        return Err(RowError::Field);
    }
    Ok(make(alloc, start, count)?)
}

// The files in turn, each as its path, its size, its time of change and its content, and then the script.
fn shown(alloc: Global, made: &Made) -> Result<String, RowError> {
    let mut shown = String::new(alloc);
    for (entry, bytes) in &made.files {
        let content = std::str::from_utf8(bytes.as_slice()).map_err(|_| RowError::Field)?;
        let path = entry.path.as_str();
        let size = entry.size;
        write!(&mut shown, "{path} {size} {} {content}\n", entry.changed)?;
    }
    shown.push_str(made.script.as_str())?;
    Ok(shown)
}

/// A start and a number of files: the files and the script.
pub fn files(alloc: Global, fields: &[Field]) -> Result<String, RowError> {
    shown(alloc, &made(alloc, fields)?)
}

/// A start and a number of files: the bytes of that text and one sum over them.
pub fn sums(alloc: Global, fields: &[Field]) -> Result<String, RowError> {
    let text = shown(alloc, &made(alloc, fields)?)?;
    let mut sum = Sum::new();
    sum.add(&text);
    Ok(format!(in alloc; "{} {:016x}", text.len(), sum.value())?)
}
