// The run of a script.
ghost use Rattle.std.specs.Prelude.{◌≡◌, ◌≤◌, true, false, IfOk, IfSome, None, length};
ghost use Rattle.md_script.specs.Limits.{most_lines};
ghost use Rattle.md_source.specs.Causes.{Rose};
ghost use Rattle.md_value.specs.Values.{IsMoment};
ghost use Rattle.md_files.specs.FileAnswers.{InTurnSoFar};
ghost use Rattle.md_files.specs.Reports.{EndHasCause};
ghost use Rattle.md_live.specs.Given.{IsGiven, tells_imports};
ghost use Rattle.md_live.specs.Actions.{actions_of};
ghost use Rattle.md_live.specs.Reports.{Runs, report_of_actions};
ghost use Rattle.md_live.specs.Headline.{Headline};
ghost use Rattle.md_live.specs.Telling.{after_actions, unstarted};
ghost use Rattle.md_live.specs.TimeForms.{out_of_range};

use crate::given::give_all;
use crate::session::Session;
use md_files::{End, FileReport, ImportResult};
use md_script::Line;
use md_source::Tree;
use md_time::LocalTime;
use std::alloc::{AllocError, Global};

/// Runs the lines over a server of their own, with what was given to each.
pub(crate) fn run_lines(
    alloc: Global,
    start: &LocalTime,
    lines: &[Line],
    givens: Vec<Option<ImportResult>>,
) -> Result<Session, AllocError>
    requires few { length lines.now ≤ most_lines }
    requires moment { IsMoment start.now.moment }
    requires timely { out_of_range start.now.moment start.now.offset lines.now ≡ None }
    ensures { IfOk result (λ session. session ≡ after_actions unstarted (actions_of start.now.moment start.now.offset lines.now givens.items)) }
{
    let mut session = Session::new(alloc);
    for (line, given) in lines.iter().zip(givens) {
        session.line(alloc, start, line, given)?;
    }
    Ok(session)
}

// Reports on the run of the lines, with what was given to each.
fn run_given(
    alloc: Global,
    start: &LocalTime,
    lines: &[Line],
    givens: Vec<Option<ImportResult>>,
) -> Result<FileReport, AllocError>
    requires few { length lines.now ≤ most_lines }
    requires moment { IsMoment start.now.moment }
    requires timely { out_of_range start.now.moment start.now.offset lines.now ≡ None }
    ensures { IfOk result (λ report. report ≡ report_of_actions (actions_of start.now.moment start.now.offset lines.now givens.items)) }
{
    let session = run_lines(alloc, start, lines, givens)?;
    Ok(session.into_report())
}

/// Runs these lines in order over a server of their own, from its opening state. The run begins at `start`.
///
/// No form of time of the lines is out of range, as [`out_of_range`](crate::out_of_range) tells.
///
/// The files of all `import` lines are read from the tree first, in the order of the script. A file with a fault, one that
/// is absent and one that could not be read get no row; each has a line on err. Fails only where memory runs out.
pub fn run<T: Tree>(
    alloc: Global,
    tree: &mut T,
    start: &LocalTime,
    lines: &[Line],
) -> Result<FileReport, AllocError>
    requires few { length lines.now ≤ most_lines }
    requires moment { IsMoment start.now.moment }
    requires timely { out_of_range start.now.moment start.now.offset lines.now ≡ None }
    ensures runs { IfOk result (λ report. Runs (T.content tree.old) (T.failures tree.old) (T.failures tree.new) start.now.moment start.now.offset lines.now report) }
    // Over the run's events, what each client holds is its answer on one committed version, and the text is that run's.
    ensures headline { IfOk result (λ report. Headline (T.content tree.old) (T.failures tree.old) (T.failures tree.new) start.now.moment start.now.offset lines.now report) }
    ensures cause { IfOk result (λ report. EndHasCause (T.failures tree.old) (T.failures tree.new) report.end) }
    // Also where memory runs out, some of the first of the imported files were asked for in turn, or all, and no others.
    ensures so_far { InTurnSoFar (IsGiven start.now.offset (T.content tree.old)) (T.failures tree.old) (T.failures tree.new) lines.now }
    ensures later { T.failures tree.old ≤ T.failures tree.new }
    ensures content { T.content tree.new ≡ T.content tree.old }

    // Where the content is known.
    ensures absent { IfOk result (λ report. IfSome (T.content tree.old) (λ content.
        report.end ≡ End.Absent → tells_imports content lines.now ≡ false)) }
    ensures complete { IfOk result (λ report. IfSome (T.content tree.old) (λ content.
        tells_imports content lines.now ≡ true → ¬ (Rose (T.failures tree.old) (T.failures tree.new)) → report.end ≡ End.Ok)) }
{
    let givens = give_all(alloc, tree, start.offset, lines)?;
    run_given(alloc, start, lines, givens)
}
