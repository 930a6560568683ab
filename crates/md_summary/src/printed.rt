// The text of a summary.
ghost use Rattle.std.specs.Prelude.{◌≡◌, ◌++◌, IfOk, OnOk, string_bytes};
ghost use Rattle.md_summary.specs.Printed.{held_line, line, spaced, summary_text, tally_text};

use md_live::{Sum, Tally};
use std::alloc::{AllocError, Global};

// Appends a line of a word and a number.
fn push_line(text: &mut String, word: &str, number: u128) -> Result<(), AllocError>
    ensures { OnOk result (string_bytes text.new ≡ string_bytes text.old ++ line word.now number) }
{
    writeln!(text, "{word} {number}")
}

// Appends the lines on the notices.
fn push_tally(text: &mut String, tally: &Tally) -> Result<(), AllocError>
    ensures { OnOk result (string_bytes text.new ≡ string_bytes text.old ++ tally_text tally.now) }
{
    push_line(text, "notices", u128::from(tally.notices))?;
    push_line(text, "added", tally.added)?;
    push_line(text, "changed", tally.changed)?;
    push_line(text, "removed", tally.removed)
}

// Appends numbers, with a space before each.
fn push_spaced(text: &mut String, numbers: &[usize]) -> Result<(), AllocError>
    ensures { OnOk result (string_bytes text.new ≡ string_bytes text.old ++ spaced numbers.now) }
{
    for number in numbers {
        write!(text, " {number}")?;
    }
    Ok(())
}

// Appends the line on how many rows each client holds.
fn push_held(text: &mut String, held: &[usize]) -> Result<(), AllocError>
    ensures { OnOk result (string_bytes text.new ≡ string_bytes text.old ++ held_line held.now) }
{
    text.push_str("held")?;
    push_spaced(text, held)?;
    text.push_str("\n")
}

/// The lines on a run over so many files.
pub(crate) fn summary_text(alloc: Global, count: u32, sum: &Sum) -> Result<String, AllocError>
    ensures { IfOk result (λ text. string_bytes text ≡ summary_text count sum.now) }
{
    let mut text = String::new(alloc);
    push_line(&mut text, "files", u128::from(count))?;
    push_line(&mut text, "events", u128::from(sum.events))?;
    push_line(&mut text, "version", u128::from(sum.version))?;
    push_line(&mut text, "rows", sum.rows as u128)?;
    push_tally(&mut text, &sum.tally)?;
    push_held(&mut text, sum.held.as_slice())?;
    Ok(text)
}
