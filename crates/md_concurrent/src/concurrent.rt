// The run of a script by workers and clients.
ghost use Rattle.std.specs.Prelude.{◌≡◌, ◌<◌, ◌≤◌, length, map, IfOk};
ghost use Rattle.md_value.specs.Values.{IsMoment};
ghost use Rattle.md_world.specs.declared.TheConstants.Limits.{STANDARD};
ghost use Rattle.md_machine.specs.Runs.{run};
ghost use Rattle.md_merge.specs.Journals.{events_in};
ghost use Rattle.md_merge.specs.Merging.{IsMerged};
ghost use Rattle.md_script.specs.Limits.{most_lines};
ghost use Rattle.md_files.specs.FileAnswers.{InTurnSoFar};
ghost use Rattle.md_live.specs.Given.{IsGiven};
ghost use Rattle.md_jobs.specs.Sources.{job_in};
ghost use Rattle.md_clients.specs.Asks.{asks_in};
ghost use Rattle.md_concurrent.specs.Runs.{RunsConcurrently};

use md_clients::read_clients;
use md_hub::Hub;
use md_jobs::{ScriptJobs, read_jobs};
use md_script::Line;
use md_source::{Gate, Tree};
use md_team::run_team;
use md_time::LocalTime;
use md_turn::JournalEntry;
use std::alloc::{AllocError, Global};
use std::sync::Wait;
use std::thread::Threads;

/// What a run of a script by workers and clients leaves.
#[derive(Drop)]
pub struct ConcurrentRun {
    /// The jobs, in the order of the lines.
    pub jobs: ScriptJobs,
    /// The server after the run.
    pub hub: Hub,
    pub journal: Vec<JournalEntry>,
}

// Runs the jobs of lines beside what clients ask by them.
fn run_jobs<R: Threads + Wait + Sync, G: Gate + Sync>(
    rt: &R,
    alloc: Global,
    start: &LocalTime,
    lines: &[Line],
    jobs: &ScriptJobs,
    workers: u32,
    gate: &G,
) -> Result<(Hub, Vec<JournalEntry>), AllocError>
    requires few { (length lines.now ≤ most_lines) × (length jobs.now.jobs ≤ length lines.now) }
    requires moment { IsMoment start.now.moment }
    requires workers { (0 < workers) × (workers ≤ 64) }
    ensures merged { IfOk result (λ r. IsMerged (map (job_in jobs.now.offset) jobs.now.jobs) (asks_in start.now.moment start.now.offset lines.now) r.1.items) }
    ensures last { IfOk result (λ r. r.0.state ≡ (run STANDARD (events_in r.1.items)).last) }
{
    let clients = read_clients(alloc, start, lines)?;
    run_team(rt, alloc, jobs, clients, workers, gate)
}

/// Runs the jobs of these lines by so many workers, 1 to 64, beside the clients of the lines, each in a thread of its own, over
/// a new server. The run begins at `start`. Each act passes the gate before and after.
///
/// The files of all `import` lines are read from the tree first, in the order of the script. Fails only where memory is refused.
pub fn run_concurrently<R: Threads + Wait + Sync, T: Tree, G: Gate + Sync>(
    rt: &R,
    alloc: Global,
    tree: &mut T,
    start: &LocalTime,
    lines: &[Line],
    workers: u32,
    gate: &G,
) -> Result<ConcurrentRun, AllocError>
    requires few { length lines.now ≤ most_lines }
    requires moment { IsMoment start.now.moment }
    requires workers { (0 < workers) × (workers ≤ 64) }
    ensures runs { IfOk result (λ r. RunsConcurrently (T.content tree.old) (T.failures tree.old) (T.failures tree.new) start.now.moment start.now.offset lines.now r.jobs.jobs r.hub.state r.journal.items) }
    ensures offset { IfOk result (λ r. r.jobs.offset ≡ start.now.offset) }
    // Also where memory runs out, some of the first of the imported files were asked for in turn, or all, and no others.
    ensures so_far { InTurnSoFar (IsGiven start.now.offset (T.content tree.old)) (T.failures tree.old) (T.failures tree.new) lines.now }
    ensures later { T.failures tree.old ≤ T.failures tree.new }
    ensures content { T.content tree.new ≡ T.content tree.old }
{
    let jobs = read_jobs(alloc, tree, start, lines)?;
    let (hub, journal) = run_jobs(rt, alloc, start, lines, &jobs, workers, gate)?;
    Ok(ConcurrentRun { jobs, hub, journal })
}
