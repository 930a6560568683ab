// The sums of the run of a script.
ghost use Rattle.std.specs.Prelude.{◌≡◌, ◌≤◌, IfOk, None, length};
ghost use Rattle.md_script.specs.Limits.{most_lines};
ghost use Rattle.md_value.specs.Values.{IsMoment};
ghost use Rattle.md_live.specs.Actions.{actions_of};
ghost use Rattle.md_live.specs.Events.{run_events};
ghost use Rattle.md_live.specs.Sums.{Sums, sum_of};
ghost use Rattle.md_live.specs.TimeForms.{out_of_range};

use crate::given::give_all;
use crate::runs::run_lines;
use crate::tally::Tally;
use md_files::ImportResult;
use md_script::Line;
use md_source::Tree;
use md_time::LocalTime;
use md_value::PlainVec;
use std::alloc::{AllocError, Global};

/// The sums of a run.
#[derive(Debug, Drop)]
pub struct Sum {
    /// How many events there were.
    pub events: u64,
    /// The newest version's number.
    pub version: u32,
    /// How many rows that version's table has.
    pub rows: usize,
    pub tally: Tally,
    /// For each of the clients that were asked about, how many rows it holds by its query 1.
    pub held: PlainVec<usize>,
}

// Sums up the run of the lines, with what was given to each.
fn sum_given(
    alloc: Global,
    start: &LocalTime,
    lines: &[Line],
    givens: Vec<Option<ImportResult>>,
    clients: &[u8],
) -> Result<Sum, AllocError>
    requires few { length lines.now ≤ most_lines }
    requires moment { IsMoment start.now.moment }
    requires timely { out_of_range start.now.moment start.now.offset lines.now ≡ None }
    ensures { IfOk result (λ sum. sum ≡ sum_of (run_events (actions_of start.now.moment start.now.offset lines.now givens.items)) clients.now) }
{
    let session = run_lines(alloc, start, lines, givens)?;
    session.sum(alloc, clients)
}

/// Runs these lines as [`run`](crate::run) does, and sums up the run in place of a report, with how many rows each of the
/// clients holds by its query 1 at the end. No form of time of the lines is out of range. Fails only where memory runs out.
pub fn sum_up<T: Tree>(
    alloc: Global,
    tree: &mut T,
    start: &LocalTime,
    lines: &[Line],
    clients: &[u8],
) -> Result<Sum, AllocError>
    requires few { length lines.now ≤ most_lines }
    requires moment { IsMoment start.now.moment }
    requires timely { out_of_range start.now.moment start.now.offset lines.now ≡ None }
    ensures sums { IfOk result (λ sum. Sums (T.content tree.old) (T.failures tree.old) (T.failures tree.new) start.now.moment start.now.offset lines.now clients.now sum) }
    ensures later { T.failures tree.old ≤ T.failures tree.new }
    ensures content { T.content tree.new ≡ T.content tree.old }
{
    let givens = give_all(alloc, tree, start.offset, lines)?;
    sum_given(alloc, start, lines, givens, clients)
}
