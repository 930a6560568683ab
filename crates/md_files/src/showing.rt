// The attributes of files.
ghost use Rattle.std.specs.Prelude.{◌≡◌, ◌≤◌, ◌++◌, ◌||◌, true, false, is_some, IfOk, IfSome, OnOk};
ghost use Rattle.md_source.specs.Causes.{Rose};
ghost use Rattle.md_files.specs.FileAnswers.{IsAsked, InTurnSoFar};
ghost use Rattle.md_files.specs.Findings.{separator, given_attrs};
ghost use Rattle.md_files.specs.Reports.{Shows, EndHasCause, tells_files};
ghost use Rattle.md_files.specs.Additions.{next_text};

use crate::{End, FileReport, ImportResult, ask_file};
use md_file_text::attrs_text;
use md_source::Tree;
use md_value::{Name, Path};
use std::alloc::{AllocError, Global};

// Appends what stands between the attributes of two files.
fn push_separator(report: &mut FileReport, is_raw: bool) -> Result<(), AllocError>
    ensures { OnOk result (report.new ≡ record report.old { out = report.old.out ++ separator is_raw }) }
{
    if is_raw {
        report.push_out("\0")?;
    }
    Ok(())
}

// Appends the attributes that a file gives, behind those of other files if there are some. Whether there are some now.
fn push_attrs(
    alloc: Global,
    report: &mut FileReport,
    some: bool,
    raw: bool,
    marker: &str,
    names: &[Name],
    asked: &ImportResult,
) -> Result<bool, AllocError>
    ensures text { OnOk result (report.new ≡ record report.old { out = report.old.out ++ next_text some raw marker.now names.now asked.now }) }
    ensures some { IfOk result (λ now. now ≡ (some || is_some (given_attrs asked.now))) }
{
    let ImportResult::Attrs(attrs) = asked else {
        return Ok(some);
    };
    push_separator(report, some && raw)?;
    let text = attrs_text(alloc, attrs, names, raw, marker)?;
    report.push_out(text.as_str())?;
    Ok(true)
}

/// Asks a tree for files in turn, and makes the text of their attributes: of these names in their order, or of all by
/// ascending name where none is given, with the marker for what is absent. Raw, there are only the values, with a zero
/// byte between two of them and none after the last. A date alone is the first second of that day at `offset`, in minutes
/// by which local time is ahead of UTC.
///
/// A file with a fault, one that is absent and one that could not be read have a line on err, in the order of the paths.
/// Fails only where memory runs out.
pub fn show<T: Tree>(
    alloc: Global,
    tree: &mut T,
    offset: i32,
    raw: bool,
    marker: &str,
    names: &[Name],
    files: &[Path],
) -> Result<FileReport, AllocError>
    ensures shows { IfOk result (λ report. Shows (T.content tree.old) (T.failures tree.old) (T.failures tree.new) offset raw marker.now names.now files.now report) }
    // Also where memory runs out.
    ensures so_far { InTurnSoFar (IsAsked (T.content tree.old)) (T.failures tree.old) (T.failures tree.new) files.now }
    ensures cause { IfOk result (λ report. EndHasCause (T.failures tree.old) (T.failures tree.new) report.end) }
    ensures later { T.failures tree.old ≤ T.failures tree.new }
    ensures content { T.content tree.new ≡ T.content tree.old }

    // Where the content is known.
    ensures absent { IfOk result (λ report. IfSome (T.content tree.old) (λ content.
        report.end ≡ End.Absent → tells_files content files.now ≡ false)) }
    ensures complete { IfOk result (λ report. IfSome (T.content tree.old) (λ content.
        tells_files content files.now ≡ true → ¬ (Rose (T.failures tree.old) (T.failures tree.new)) → report.end ≡ End.Ok)) }
{
    let mut report = FileReport::new(alloc);
    let mut some = false;
    for path in files {
        let asked = ask_file(alloc, tree, path, offset)?;
        some = push_attrs(alloc, &mut report, some, raw, marker, names, &asked)?;
        report.add_named(alloc, path, &asked)?;
    }
    Ok(report)
}
