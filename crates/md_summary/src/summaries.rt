// The summary of a generated run.
ghost use Rattle.std.specs.Prelude.{◌≡◌, ◌≤◌, ◌∷◌, [], IfOk, None, Ok, codes, length, pos, string_bytes};
ghost use Rattle.md_words.specs.Grammar.{most_made};
ghost use Rattle.md_script.specs.Limits.{most_lines};
ghost use Rattle.md_script.specs.Scripts.{verdict};
ghost use Rattle.md_gen.specs.Reads.{IsRead};
ghost use Rattle.md_live.specs.TimeForms.{out_of_range};
ghost use Rattle.md_summary.specs.Summary.{Summarizes};

use crate::printed::summary_text;
use md_gen::{each_is_read, make};
use md_live::sum_up;
use md_script::{Script, ScriptError, read_script};
use md_source::SureTree;
use md_time::LocalTime;
use md_value::{Path, PathError};
use std::alloc::{AllocError, Global};

/// The clients that ask in a generated script.
const CLIENTS: [u8; 8] = [0, 1, 2, 3, 4, 5, 6, 7];

// The folder of the generated files.
fn folder(alloc: Global) -> Result<Path, AllocError>
    ensures { IfOk result (λ path. path ≡ codes "g") }
{
    match Path::read(alloc, "g") {
        Ok(path) => Ok(path),
        Err(PathError::Bad) => unreachable!(),
        Err(PathError::Memory) => Err(AllocError),
    }
}

// The folders of the generated files: the root and their own.
fn folders(alloc: Global) -> Result<Vec<Path>, AllocError>
    ensures { IfOk result (λ folders. folders.items ≡ [] ∷ codes "g" ∷ []) }
{
    let mut folders = Vec::new(alloc);
    folders.push(Path::root(alloc))?;
    folders.push(folder(alloc)?)?;
    Ok(folders)
}

// Reads a generated script, which is refused for want of memory alone.
fn read(alloc: Global, text: &str) -> Result<Script, AllocError>
    requires { IsRead text.now }
    ensures script { IfOk result (λ script. verdict text.now ≡ Ok script) }
    ensures timely { IfOk result (λ script. out_of_range (pos 0) (pos 0) script ≡ None) }
    ensures few { IfOk result (λ script. length script ≤ most_lines) }
{
    match read_script(alloc, text.as_bytes()) {
        Ok(script) => Ok(script),
        Err(ScriptError::Memory) => Err(AllocError),
        Err(_) => unreachable!(),
    }
}

/// Generates so many files and a script, from a start, runs the script over the files, from the moment 0 in UTC, and sums up
/// the run: the lines `files`, `events`, `version`, `rows`, `notices`, `added`, `changed` and `removed`, each with its
/// number, and `held` with the numbers of rows that the clients 0 to 7 hold at the end. Fails only where memory runs out.
pub fn summarize(alloc: Global, start: u64, count: u32) -> Result<String, AllocError>
    requires some { 1 ≤ count }
    requires most { count ≤ most_made }
    ensures { IfOk result (λ text. Summarizes start count (string_bytes text)) }
{
    let made = make(alloc, start, count)?;
    each_is_read();
    let script = read(alloc, made.script.as_str())?;
    let mut tree = SureTree::new(folders(alloc)?, made.files);
    let epoch = LocalTime {
        moment: 0,
        offset: 0,
    };
    let sum = sum_up(alloc, &mut tree, &epoch, script.lines(), &CLIENTS)?;
    summary_text(alloc, count, &sum)
}
