// The import of files and of folders.
ghost use Rattle.std.specs.Prelude.{◌≡◌, ◌≤◌, ◌≢◌, ◌∷◌, ◌++◌, [], true, false, All, AllPairs, IfOk, IfSome, IsPermutation, OnOk};
ghost use Rattle.md_value.specs.Values.{IsMoment, is_before};
ghost use Rattle.md_source.specs.Causes.{Rose};
ghost use Rattle.md_files.specs.FileAnswers.{HasNoFile, IsRead, InTurnSoFar};
ghost use Rattle.md_files.specs.Findings.{asked_count};
ghost use Rattle.md_files.specs.Folders.{IsFoundSoFar, AreFoundSoFar};
ghost use Rattle.md_files.specs.Reports.{Imports, EndHasCause, tells_all};
ghost use Rattle.md_files.specs.Additions.{CountsFile, CountsFiles, CountsPath};

use crate::asking::read_file;
use crate::{End, FileReport, ImportResult};
use md_file_text::escaped;
use md_source::{Entry, ListEnd, ReadEnd, Tree};
use md_value::Path;
use std::alloc::{AllocError, Global};

// Appends the number of attributes that a file gives.
fn push_count(
    alloc: Global,
    report: &mut FileReport,
    path: &Path,
    asked: &ImportResult,
) -> Result<(), AllocError>
    ensures { OnOk result (report.new ≡ record report.old { out = report.old.out ++ asked_count path.now asked.now }) }
{
    let ImportResult::Attrs(attrs) = asked else {
        return Ok(());
    };
    let path = escaped(alloc, path)?;
    let count = attrs.len();
    let line = format!(in alloc; "{path}: {count} attributes\n")?;
    report.push_out(line.as_str())
}

/// The entries of files of distinct paths, ascending by path. Takes no memory.
pub fn in_path_order(mut entries: Vec<Entry>) -> Vec<Entry>
    requires { AllPairs (λ entry other. entry.path ≢ other.path) entries.items }
    ensures same { IsPermutation entries.items result.items }
    ensures ordered { AllPairs (λ entry other. is_before entry.path other.path ≡ true) result.items }
{
    entries.sort_unstable_by(|entry, other| entry.path.as_str().cmp(other.path.as_str()));
    entries
}

// Imports a named file whose entry is known.
fn import_file<T: Tree>(
    alloc: Global,
    tree: &mut T,
    offset: i32,
    entry: &Entry,
    report: &mut FileReport,
) -> Result<(), AllocError>
    requires { IsMoment entry.now.changed }
    ensures counts { OnOk result (CountsFile (T.content tree.old) (T.failures tree.old) (T.failures tree.new) offset entry.now report.old report.new) }
    ensures so_far { InTurnSoFar (IsRead (T.content tree.old)) (T.failures tree.old) (T.failures tree.new) (entry.now ∷ []) }
    ensures later { T.failures tree.old ≤ T.failures tree.new }
    ensures content { T.content tree.new ≡ T.content tree.old }
{
    let asked = read_file(alloc, tree, entry, offset)?;
    push_count(alloc, report, &entry.path, &asked)?;
    report.add_named(alloc, &entry.path, &asked)
}

// Imports the files of a listing in turn.
fn import_files<T: Tree>(
    alloc: Global,
    tree: &mut T,
    offset: i32,
    entries: &[Entry],
    report: &mut FileReport,
) -> Result<(), AllocError>
    requires { All (λ entry. IsMoment entry.changed) entries.now }
    ensures counts { OnOk result (CountsFiles (T.content tree.old) (T.failures tree.old) (T.failures tree.new) offset entries.now report.old report.new) }
    ensures so_far { InTurnSoFar (IsRead (T.content tree.old)) (T.failures tree.old) (T.failures tree.new) entries.now }
    ensures later { T.failures tree.old ≤ T.failures tree.new }
    ensures content { T.content tree.new ≡ T.content tree.old }
{
    for entry in entries {
        let asked = read_file(alloc, tree, entry, offset)?;
        push_count(alloc, report, &entry.path, &asked)?;
        report.add_listed(alloc, &entry.path, &asked)?;
    }
    Ok(())
}

// Imports the files below the folder of a path that is no file.
fn import_folder<T: Tree>(
    alloc: Global,
    tree: &mut T,
    offset: i32,
    path: &Path,
    report: &mut FileReport,
) -> Result<(), AllocError>
    requires { HasNoFile (T.content tree.old) path.now }
    ensures counts { OnOk result (CountsPath (T.content tree.old) (T.failures tree.old) (T.failures tree.new) offset path.now report.old report.new) }
    ensures so_far { IsFoundSoFar (T.content tree.old) (T.failures tree.old) (T.failures tree.new) path.now }
    ensures later { T.failures tree.old ≤ T.failures tree.new }
    ensures content { T.content tree.new ≡ T.content tree.old }
{
    match tree.list(alloc, path) {
        Ok(entries) => {
            let entries = in_path_order(entries);
            import_files(alloc, tree, offset, &entries, report)
        }
        Err(ListEnd::Absent) => report.add_named(alloc, path, &ImportResult::Absent),
        Err(ListEnd::Failed) => report.add_unlisted(alloc, path),
        Err(ListEnd::Memory) => Err(AllocError),
    }
}

// Imports what a path stands for.
fn import_path<T: Tree>(
    alloc: Global,
    tree: &mut T,
    offset: i32,
    path: &Path,
    report: &mut FileReport,
) -> Result<(), AllocError>
    ensures counts { OnOk result (CountsPath (T.content tree.old) (T.failures tree.old) (T.failures tree.new) offset path.now report.old report.new) }
    ensures so_far { IsFoundSoFar (T.content tree.old) (T.failures tree.old) (T.failures tree.new) path.now }
    ensures later { T.failures tree.old ≤ T.failures tree.new }
    ensures content { T.content tree.new ≡ T.content tree.old }
{
    match tree.find(alloc, path) {
        Ok(entry) => import_file(alloc, tree, offset, &entry, report),
        Err(ReadEnd::Absent) => import_folder(alloc, tree, offset, path, report),
        Err(ReadEnd::Failed) => report.add_named(alloc, path, &ImportResult::Failed),
        Err(ReadEnd::Memory) => Err(AllocError),
    }
}

/// Asks a tree for files in turn and imports them, and makes a line for each that gives attributes: its path with escapes
/// and the number of its attributes. Where a path is no file, the files below the folder of this path are imported in path
/// order. A date alone is the first second of that day at `offset`, in minutes by which local time is ahead of UTC.
///
/// A file with a fault, a path that is absent, a file that could not be read and a folder that could not be listed have a
/// line on err, in the order of the paths. A file of a folder that is absent when it is read is passed over. Nothing is
/// stored. Fails only where memory runs out.
pub fn import<T: Tree>(
    alloc: Global,
    tree: &mut T,
    offset: i32,
    files: &[Path],
) -> Result<FileReport, AllocError>
    ensures imports { IfOk result (λ report. Imports (T.content tree.old) (T.failures tree.old) (T.failures tree.new) offset files.now report) }
    // Also where memory runs out.
    ensures so_far { AreFoundSoFar (T.content tree.old) (T.failures tree.old) (T.failures tree.new) files.now }
    ensures cause { IfOk result (λ report. EndHasCause (T.failures tree.old) (T.failures tree.new) report.end) }
    ensures later { T.failures tree.old ≤ T.failures tree.new }
    ensures content { T.content tree.new ≡ T.content tree.old }

    // Where the content is known.
    ensures absent { IfOk result (λ report. IfSome (T.content tree.old) (λ content.
        report.end ≡ End.Absent → tells_all content files.now ≡ false)) }
    ensures complete { IfOk result (λ report. IfSome (T.content tree.old) (λ content.
        tells_all content files.now ≡ true → ¬ (Rose (T.failures tree.old) (T.failures tree.new)) → report.end ≡ End.Ok)) }
{
    let mut report = FileReport::new(alloc);
    for path in files {
        import_path(alloc, tree, offset, path, &mut report)?;
    }
    Ok(report)
}
