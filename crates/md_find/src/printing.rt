// The paths that were found, or their number.
ghost use Rattle.std.specs.Prelude.{◌≡◌, ◌++◌, IfOk, OnOk, string_bytes};
ghost use Rattle.std.specs.List.{flat_map};
ghost use Rattle.md_find.specs.Finds.{ended, found_text};

use crate::Output;
use md_value::Path;
use std::alloc::{AllocError, Global};

fn push_path(text: &mut String, path: &Path, end: &str) -> Result<(), AllocError>
    ensures { OnOk result (string_bytes text.new ≡ string_bytes text.old ++ ended end.now path.now) }
{
    text.push_str(path.as_str())?;
    text.push_str(end)
}

// Each path with this end behind it.
fn paths_text(alloc: Global, paths: &[Path], end: &str) -> Result<String, AllocError>
    ensures { IfOk result (λ text. string_bytes text ≡ flat_map (ended end.now) paths.now) }
{
    let mut text = String::new(alloc);
    for path in paths {
        push_path(&mut text, path, end)?;
    }
    Ok(text)
}

fn count_text(alloc: Global, paths: &[Path]) -> Result<String, AllocError>
    ensures { IfOk result (λ text. string_bytes text ≡ found_text Output.Count paths.now) }
{
    let count = paths.len();
    format!(in alloc; "{count}\n")
}

/// What is printed of these paths. Fails only where memory runs out.
pub fn found_text(alloc: Global, output: Output, paths: &[Path]) -> Result<String, AllocError>
    ensures { IfOk result (λ text. string_bytes text ≡ found_text output paths.now) }
{
    match output {
        Output::Lines => paths_text(alloc, paths, "\n"),
        Output::Zeros => paths_text(alloc, paths, "\0"),
        Output::Count => count_text(alloc, paths),
    }
}
