// The reader of a script.
ghost use Rattle.std.specs.Prelude.{◌≡◌, ◌⊎◌, IfOk, IfErr, Ok, Err};
ghost use Rattle.md_script.specs.Scripts.{verdict};
ghost use Rattle.md_script.specs.declared.script.ScriptError.TheVariants.{Memory};

use crate::grammar::{Meaning, said};
use crate::lines::{count_lines, first_line};
use crate::{Line, Script, ScriptError};
use std::alloc::Global;

/// The most bytes that a script has.
pub const MOST_BYTES: usize = 67_108_864;

/// The most lines that a script has.
pub const MOST_LINES: usize = 100_000;

/// Reads a script: UTF-8 text in lines that end in a line feed, which the last may lack. A carriage return before the
/// line feed is dropped. It is refused as `TooLong` where it has over `MOST_BYTES` bytes, else as `TooManyLines` where
/// it has over `MOST_LINES` lines, else as `BadLine` with the first line that is not in the grammar, if there is one.
pub fn read_script(alloc: Global, bytes: &[u8]) -> Result<Script, ScriptError>
    ensures ok { IfOk result (λ script. verdict bytes.now ≡ Ok script) }
    ensures refused { IfErr result (λ error. (verdict bytes.now ≡ Err error) ⊎ (error ≡ Memory)) }
{
    if bytes.len() > MOST_BYTES {
        return Err(ScriptError::TooLong);
    }
    if count_lines(bytes) > MOST_LINES {
        return Err(ScriptError::TooManyLines);
    }
    let mut lines = Vec::new(alloc);
    let mut number = 0;
    let mut at_ms = 0;
    let mut rest = bytes;
    while !rest.is_empty() {
        let (line, after) = first_line(rest);
        number += 1;
        match said(alloc, line)? {
            Some(Meaning::Nothing) => {}
            Some(Meaning::At(ms)) => at_ms = ms,
            Some(Meaning::Says(what)) => lines.push(Line {
                number,
                at_ms,
                what,
            })?,
            None => return Err(ScriptError::BadLine(number)),
        }
        rest = after;
    }
    Ok(Script::new(lines))
}
