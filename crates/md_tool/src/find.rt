// The search for files.
ghost use Rattle.std.specs.Prelude.{◌≡◌, ◌≤◌, ℕ, Bool, List, Option, IsErr, IfOk, Err};
ghost use Rattle.std.specs.Option.{option_map};
ghost use Rattle.md_expr_parse.specs.declared.read.ReadError.TheVariants.{Memory};
ghost use Rattle.md_find.specs.Folders.{IsFolderSoFar};
ghost use Rattle.md_find.specs.Searches.{search_of};
ghost use Rattle.md_tool.specs.Reports.{refused_text, form_out_of_range, too_many_files, of_found};
ghost use Rattle.md_words.specs.declared.command.Mode.{Mode};
ghost use Rattle.md_words.specs.declared.command.Tool.TheVariants.{Find};
ghost use Rattle.md_tool.specs.Outside.{Bytes, inputs};
ghost use Rattle.md_tool.specs.Asking.{output_of, Finds};
ghost use Rattle.md_tool.specs.Causes.{TellsFirst};

use crate::Status;
use crate::report::{Report, no_clock, of_files, refusal};
use md_expr::{Expr, ReadError};
use md_find::{MOST_FILES, Output, Search, SearchResult};
use md_source::{Clock, Tree};
use md_time::LocalTime;
use md_value::{Copied, Path};
use md_words::Utf8;
use std::alloc::{AllocError, Global};
use std::thread::Threads;

// What refuses a search text.
fn refused_text(alloc: Global, error: ReadError) -> Result<Report, AllocError>
    ensures report { IfOk result (λ report. report ≡ refused_text error) }
    ensures memory { error ≡ Memory → IsErr result }
{
    match error {
        ReadError::TooLong => refusal(alloc, Status::Expression, "expression too long"),
        ReadError::NotExpression => refusal(alloc, Status::Expression, "not an expression"),
        ReadError::TooDeep => refusal(alloc, Status::Expression, "expression too deep"),
        ReadError::TooMany => refusal(alloc, Status::Expression, "too many comparisons"),
        ReadError::Memory => Err(AllocError),
    }
}

fn form_out_of_range(alloc: Global, form: u32) -> Result<Report, AllocError>
    ensures { IfOk result (λ report. report ≡ form_out_of_range form) }
{
    let line = format!(in alloc; "time form {form} out of range")?;
    refusal(alloc, Status::Expression, line.as_str())
}

fn too_many_files(alloc: Global) -> Result<Report, AllocError>
    ensures { IfOk result (λ report. report ≡ too_many_files) }
{
    let most = MOST_FILES;
    let line = format!(in alloc; "more than {most} files")?;
    refusal(alloc, Status::Full, line.as_str())
}

// What is printed of what a search gives.
fn of_found(alloc: Global, found: SearchResult) -> Result<Report, AllocError>
    ensures { IfOk result (λ report. report ≡ of_found found) }
{
    match found {
        SearchResult::Done(made) => Ok(of_files(made)),
        SearchResult::Full => too_many_files(alloc),
        SearchResult::OutOfRange(form) => form_out_of_range(alloc, form),
    }
}

/// How the paths that are found are printed: with zero bytes behind them, or their number alone.
pub(crate) fn output_of(zero: bool, count: bool) -> Output
    ensures { result ≡ output_of zero count }
{
    match (zero, count) {
        (_, true) => Output::Count,
        (true, false) => Output::Zeros,
        (false, false) => Output::Lines,
    }
}

/// The text of a word, if there is one.
pub(crate) fn text_of(word: &Option<Utf8>) -> Option<&str>
    ensures { option_map (λ text. text.now) result ≡ word.now }
{
    match word {
        Some(word) => Some(word.as_str()),
        None => None,
    }
}

/// What `mdfind` asks at an offset, the minutes by which local time is ahead of UTC, in a folder, and what is printed of it.
/// `query` is what its search text reads as. Where that is an expression, the clock is read once, and then the tree is asked
/// for the files below the folder.
pub(crate) fn find<R: Threads + Sync, T: Tree, C: Clock>(
    rt: &R,
    alloc: Global,
    offset: i32,
    query: Result<Expr, ReadError>,
    scope: &Path,
    output: Output,
    tree: &mut T,
    clock: &mut C,
) -> Result<Report, AllocError>
    ensures asks { (script : Bytes) → IfOk result (λ report. Finds offset output scope.now query
        (inputs (T.content tree.old) (T.failures tree.old) script.known script.failures (C.moment clock.old) (C.failures clock.old))
        (inputs (T.content tree.new) (T.failures tree.new) script.known script.failures (C.moment clock.new) (C.failures clock.new))
        report) }
    ensures tells { (script : Bytes) (zero count : Bool) (name : Option (List ℕ)) (mode : Mode) (text : Option (List ℕ))
        → search_of name mode text ≡ query → IfOk result (λ report. TellsFirst offset (Find zero count scope.now name mode text)
        (inputs (T.content tree.old) (T.failures tree.old) script.known script.failures (C.moment clock.old) (C.failures clock.old))
        (inputs (T.content tree.new) (T.failures tree.new) script.known script.failures (C.moment clock.new) (C.failures clock.new))
        report.status) }
    ensures memory { query ≡ Err Memory → IsErr result }
    ensures so_far { IsFolderSoFar (T.content tree.old) (T.failures tree.old) (T.failures tree.new) scope.now }
    ensures content { T.content tree.new ≡ T.content tree.old }
    ensures later { T.failures tree.old ≤ T.failures tree.new }
{
    let expr = match query {
        Ok(expr) => expr,
        Err(error) => return refused_text(alloc, error),
    };
    let Ok(moment) = clock.now() else {
        return no_clock(alloc);
    };
    let search = Search {
        expr,
        local: LocalTime { moment, offset },
        scope: scope.copy(alloc)?,
    };
    let found = md_find::find(rt, alloc, tree, search, output)?;
    of_found(alloc, found)
}
