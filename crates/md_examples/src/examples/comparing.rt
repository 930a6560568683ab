// What a run printed, and where it differs from what is wanted.
use md_rows::escape;
use std::alloc::{AllocError, Global};

/// What a run printed, or is to print.
#[derive(Debug, Drop)]
pub struct Printed {
    pub status: u8,
    pub out: Vec<u8>,
    pub err: Vec<u8>,
}

impl Printed {
    /// Where another run differs from what is wanted here: a line for the status and for each text.
    pub fn differences(&self, alloc: Global, got: &Printed) -> Result<Vec<String>, AllocError> {
        let mut lines = Vec::new(alloc);
        if self.status != got.status {
            let line = format!(in alloc; "status: wanted {}, got {}", self.status, got.status)?;
            lines.push(line)?;
        }
        push_difference(alloc, "out", &self.out, &got.out, &mut lines)?;
        push_difference(alloc, "err", &self.err, &got.err, &mut lines)?;
        Ok(lines)
    }
}

// Adds the first line in which a text differs from the wanted one.
fn push_difference(
    alloc: Global,
    name: &str,
    wanted: &[u8],
    got: &[u8],
    lines: &mut Vec<String>,
) -> Result<(), AllocError> {
    if wanted == got {
        return Ok(());
    }
    let wanted = lines_of(alloc, wanted)?;
    let got = lines_of(alloc, got)?;
    let same = wanted
        .iter()
        .zip(got.iter())
        .take_while(|(line, other)| line == other)
        .count();
    let number = same.saturating_add(1);
    let wanted = shown(alloc, wanted.get(same).copied())?;
    let got = shown(alloc, got.get(same).copied())?;
    lines.push(format!(in alloc; "{name}, line {number}: wanted {wanted}, got {got}")?)?;
    Ok(())
}

// The lines of a text, each with its line feed.
fn lines_of(alloc: Global, text: &[u8]) -> Result<Vec<&[u8]>, AllocError> {
    text.split_inclusive(|byte| *byte == b'\n').collect(alloc)
}

fn shown(alloc: Global, line: Option<&[u8]>) -> Result<String, AllocError> {
    match line {
        Some(line) => {
            let line = escape(alloc, line)?;
            format!(in alloc; "\"{line}\"")
        }
        None => String::from_str(alloc, "no more"),
    }
}
