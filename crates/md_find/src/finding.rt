// The run of `mdfind`.
ghost use Rattle.std.specs.Prelude.{◌≡◌, ◌∷◌, ◌++◌, [], ◌≤◌, ◌<◌, true, false, All, IfOk, OnOk, IfSome, None, length};
ghost use Rattle.std.specs.List.{cons_option, filter_map};
ghost use Rattle.md_value.specs.Values.{IsMoment};
ghost use Rattle.md_source.specs.Causes.{Rose};
ghost use Rattle.md_source.specs.Tree.{has_folder, entries_below};
ghost use Rattle.md_files.specs.FileAnswers.{IsRead, InTurnSoFar};
ghost use Rattle.md_files.specs.Findings.Finding.{named, no_listing};
ghost use Rattle.md_files.specs.Reports.{report_of};
ghost use Rattle.md_find.specs.Files.{hit_of, reason_of};
ghost use Rattle.md_find.specs.Folders.{most_files, IsFolderSoFar};
ghost use Rattle.md_find.specs.Notes.{noted_all};
ghost use Rattle.md_find.specs.Finds.{found_text, FindsBy, FindsAmong, FindsBelow, Finds, HasCause, EndsBy, form_out, form_reported};

use crate::batches::first_batch;
use crate::printing::found_text;
use crate::reading::{list_files, read_files};
use crate::testing::{Seen, SeenFile, seen_files};
use md_expr_tree::Expr;
use md_files::{End, FileReport, ImportResult};
use md_machine::{Batch, Spec, TimeOutOfRange};
use md_match::Filter;
use md_source::{Entry, ListEnd, Tree};
use md_time::LocalTime;
use md_value::Path;
use md_world::Order;
use std::alloc::{AllocError, Global};
use std::thread::Threads;

/// The most files of a folder that is searched.
pub const MOST_FILES: usize = 1_000_000;

/// What is searched for, and where.
#[derive(Drop)]
pub struct Search {
    pub expr: Expr,
    /// The time from which forms of time are resolved.
    pub local: LocalTime,
    /// The folder below which the files stand.
    pub scope: Path,
}

/// How the paths that are found are printed.
#[derive(Clone, Copy, Debug, PartialEq, Eq)]
pub enum Output {
    /// A line feed after each path.
    Lines,
    /// A zero byte after each path.
    Zeros,
    /// The number of paths and a line feed.
    Count,
}

/// What a search gives.
#[derive(Debug, Drop)]
pub enum SearchResult {
    /// What is printed, and how the askings of the tree ended.
    Done(FileReport),
    /// The folder has over 1,000,000 files.
    Full,
    /// The form of time of this number, from 1 in reading order, is the first whose moment is out of range, or the number
    /// is 4,294,967,295 and the form's is greater.
    OutOfRange(u32),
}

// Adds to a report what became of a file that gives no attributes.
fn note_file(alloc: Global, report: &mut FileReport, file: &SeenFile) -> Result<(), AllocError>
    ensures { OnOk result (report.new ≡ noted_all report.old (cons_option (reason_of file.now) [])) }
{
    match &file.seen {
        Seen::Tested(_) => Ok(()),
        Seen::Bare(asked) => report.add_listed(alloc, &file.path, asked),
    }
}

fn note(alloc: Global, report: &mut FileReport, files: &[SeenFile]) -> Result<(), AllocError>
    ensures { OnOk result (report.new ≡ noted_all report.old (filter_map reason_of files.now)) }
{
    for file in files {
        note_file(alloc, report, file)?;
    }
    Ok(())
}

// Adds the path of a file to those of the hits before it, if it is a hit.
fn keep_file(hits: &mut Vec<Path>, file: SeenFile) -> Result<(), AllocError>
    ensures { OnOk result (hits.new.items ≡ hits.old.items ++ cons_option (hit_of file) []) }
{
    let SeenFile { path, seen } = file;
    if let Seen::Tested(true) = seen {
        hits.push(path)?;
    }
    Ok(())
}

fn keep(hits: &mut Vec<Path>, files: Vec<SeenFile>) -> Result<(), AllocError>
    ensures { OnOk result (hits.new.items ≡ hits.old.items ++ filter_map hit_of files.items) }
{
    for file in files {
        keep_file(hits, file)?;
    }
    Ok(())
}

// What is found by a filter among these files.
fn find_by<R: Threads + Sync, T: Tree>(
    rt: &R,
    alloc: Global,
    tree: &mut T,
    entries: &[Entry],
    filter: &Filter,
    output: Output,
) -> Result<FileReport, AllocError>
    requires { All (λ entry. IsMoment entry.changed) entries.now }
    ensures found { IfOk result (λ report. FindsBy (T.content tree.old) (T.failures tree.old) (T.failures tree.new) filter.now output entries.now report) }
    ensures so_far { InTurnSoFar (IsRead (T.content tree.old)) (T.failures tree.old) (T.failures tree.new) entries.now }
    ensures later { T.failures tree.old ≤ T.failures tree.new }
    ensures content { T.content tree.new ≡ T.content tree.old }
{
    let mut report = FileReport::new(alloc);
    let mut hits = Vec::new(alloc);
    let mut rest = entries;
    while !rest.is_empty() {
        let (batch, later) = first_batch(rest);
        let files = read_files(alloc, tree, batch)?;
        let files = seen_files(rt, alloc, filter, files)?;
        note(alloc, &mut report, &files)?;
        keep(&mut hits, files)?;
        rest = later;
    }
    let text = found_text(alloc, output, hits.as_slice())?;
    report.push_out(text.as_str())?;
    Ok(report)
}

// What is found among these files.
fn find_among<R: Threads + Sync, T: Tree>(
    rt: &R,
    alloc: Global,
    tree: &mut T,
    entries: &[Entry],
    spec: &Spec,
    output: Output,
) -> Result<FileReport, AllocError>
    requires { All (λ entry. IsMoment entry.changed) entries.now }
    ensures found { IfOk result (λ report. FindsAmong (T.content tree.old) (T.failures tree.old) (T.failures tree.new) spec.entry.now output entries.now report) }
    ensures so_far { InTurnSoFar (IsRead (T.content tree.old)) (T.failures tree.old) (T.failures tree.new) entries.now }
    ensures later { T.failures tree.old ≤ T.failures tree.new }
    ensures content { T.content tree.new ≡ T.content tree.old }
{
    let filter = Filter::of(alloc, &spec.expr, spec.now, spec.offset, &spec.scope)?;
    find_by(rt, alloc, tree, entries, &filter, output)
}

// What is printed where no file is found.
fn none_found(alloc: Global, output: Output) -> Result<FileReport, AllocError>
    ensures { IfOk result (λ report. report ≡ report_of (found_text output []) []) }
{
    let mut report = FileReport::new(alloc);
    let text = found_text(alloc, output, &[])?;
    report.push_out(text.as_str())?;
    Ok(report)
}

fn absent(alloc: Global, scope: &Path, output: Output) -> Result<FileReport, AllocError>
    ensures { IfOk result (λ report. report ≡ report_of (found_text output []) (named scope.now ImportResult.Absent ∷ [])) }
{
    let mut report = none_found(alloc, output)?;
    report.add_named(alloc, scope, &ImportResult::Absent)?;
    Ok(report)
}

fn unlisted(alloc: Global, scope: &Path, output: Output) -> Result<FileReport, AllocError>
    ensures { IfOk result (λ report. report ≡ report_of (found_text output []) (no_listing scope.now ∷ [])) }
{
    let mut report = none_found(alloc, output)?;
    report.add_unlisted(alloc, scope)?;
    Ok(report)
}

// What is found below the query's folder.
fn find_below<R: Threads + Sync, T: Tree>(
    rt: &R,
    alloc: Global,
    tree: &mut T,
    spec: Spec,
    output: Output,
) -> Result<SearchResult, AllocError>
    ensures finds { IfOk result (λ found. FindsBelow (T.content tree.old) (T.failures tree.old) (T.failures tree.new) spec output found) }
    ensures so_far { IsFolderSoFar (T.content tree.old) (T.failures tree.old) (T.failures tree.new) spec.scope }
    ensures later { T.failures tree.old ≤ T.failures tree.new }
    ensures content { T.content tree.new ≡ T.content tree.old }
{
    match list_files(alloc, tree, &spec.scope) {
        Ok(entries) => {
            if entries.len() > MOST_FILES {
                return Ok(SearchResult::Full);
            }
            let report = find_among(rt, alloc, tree, &entries, &spec, output)?;
            Ok(SearchResult::Done(report))
        }
        Err(ListEnd::Absent) => Ok(SearchResult::Done(absent(alloc, &spec.scope, output)?)),
        Err(ListEnd::Failed) => Ok(SearchResult::Done(unlisted(alloc, &spec.scope, output)?)),
        Err(ListEnd::Memory) => Err(AllocError),
    }
}

/// Asks a tree for the files below the search's folder, imports them, and makes the text of the paths of those that
/// satisfy the expression, ascending by bytes. The forms of time are resolved first; where one is out of range, the tree is not
/// asked. The files are read by this thread in path order and imported and tested in as many threads as there are
/// processors, at most 1,000 at a time, and no more than 32 MiB of them but where it is one.
///
/// A file with a fault of its content has a line on err and is not among the files that are searched; so it is with one that
/// could not be read. A file that is absent when it is read is passed over. A folder that is absent or could not be listed
/// has a line on err, and no file is found there. Where the folder has over 1,000,000 files, none is read. Fails only where
/// memory runs out.
pub fn find<R: Threads + Sync, T: Tree>(
    rt: &R,
    alloc: Global,
    tree: &mut T,
    search: Search,
    output: Output,
) -> Result<SearchResult, AllocError>
    ensures finds { IfOk result (λ found. Finds (T.content tree.old) (T.failures tree.old) (T.failures tree.new) search output found) }
    // Also where memory runs out.
    ensures so_far { IsFolderSoFar (T.content tree.old) (T.failures tree.old) (T.failures tree.new) search.scope }
    ensures cause { IfOk result (λ found. HasCause (T.failures tree.old) (T.failures tree.new) found) }
    ensures later { T.failures tree.old ≤ T.failures tree.new }
    ensures content { T.content tree.new ≡ T.content tree.old }
    // the form of time that is reported is the first that is out of range, and none is reported exactly where none is.
    ensures out_of_range { IfOk result (λ found. form_reported found ≡ form_out search) }

    // Where the content is known.
    ensures full { IfOk result (λ found. IfSome (T.content tree.old) (λ content.
        found ≡ SearchResult.Full → most_files < length (entries_below content.files search.scope))) }
    ensures absent { IfOk result (λ found. IfSome (T.content tree.old) (λ content.
        EndsBy found End.Absent → has_folder content.folders search.scope ≡ false)) }
    ensures complete { IfOk result (λ found. IfSome (T.content tree.old) (λ content.
        has_folder content.folders search.scope ≡ true → length (entries_below content.files search.scope) ≤ most_files → form_out search ≡ None
        → ¬ (Rose (T.failures tree.old) (T.failures tree.new)) → EndsBy found End.Ok)) }
{
    let Search { expr, local, scope } = search;
    match Spec::new(
        expr,
        local.moment,
        local.offset,
        scope,
        Order::by_path(alloc),
        Batch::NONE,
    ) {
        Ok(spec) => find_below(rt, alloc, tree, spec, output),
        Err(TimeOutOfRange(which)) => Ok(SearchResult::OutOfRange(which)),
    }
}
