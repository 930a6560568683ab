// The run of a team.
ghost use Rattle.std.specs.Prelude.{◌≡◌, ◌<◌, ◌≤◌, [], List, length, map, All, IfOk};
ghost use Rattle.md_world.specs.declared.TheConstants.Limits.{STANDARD};
ghost use Rattle.md_machine.specs.declared.Event.{Event};
ghost use Rattle.md_machine.specs.States.{opening};
ghost use Rattle.md_machine.specs.Runs.{run};
ghost use Rattle.md_turn.specs.Turns.{whole_share};
ghost use Rattle.md_merge.specs.Journals.{events_in};
ghost use Rattle.md_merge.specs.Merging.{IsMerged};
ghost use Rattle.md_workers.specs.Teams.{actor_share, Ask, IsRun};
ghost use Rattle.md_jobs.specs.Sources.{job_in};

use crate::readying::ready;
use crate::team::{Team, run_all};
use md_hub::Hub;
use md_jobs::ScriptJobs;
use md_pool::{ClaimSeat, Claims};
use md_source::Gate;
use md_turn::{JournalEntry, Pass, Turn};
use md_workers::{Client, Jobs, close_all};
use md_world::Limits;
use std::alloc::{AllocError, Global};
use std::sync::Wait;
use std::thread::Threads;

// Runs a team with a new lock and new claims, and ends both.
fn run_with<R: Threads + Wait + Sync, G: Gate + Sync>(
    rt: &R,
    alloc: Global,
    turn: Turn<Hub>,
    claims: Claims,
    mut first: Pass,
    mut seat: ClaimSeat,
    jobs: &ScriptJobs,
    clients: Vec<Client>,
    workers: u32,
    gate: &G,
) -> Result<(Hub, Vec<JournalEntry>), AllocError>
    requires turn { (first.id ≡ turn.id) × (seat.id ≡ claims.id) × (turn.opening ≡ opening STANDARD) }
    requires new { (first.own ≡ []) × (first.refused ≡ 0) × (seat.drawn ≡ []) }
    requires shares { (first.share ≡ whole_share) × (seat.share ≡ whole_share) }
    requires claims { (claims.numbers ≡ length jobs.now.jobs) × (length jobs.now.jobs < 4294967296) }
    requires workers { (0 < workers) × (workers ≤ 64) }
    requires clients { (length clients.items ≤ 256) × All (λ c. length c.events ≤ actor_share) clients.items }
    ensures run { IfOk result (λ r. (asked : List Event) → Ask asked clients.items → IsRun (map (job_in jobs.now.offset) jobs.now.jobs) asked clients.items workers r.0.state r.1.items) }
    ensures last { IfOk result (λ r. r.0.state ≡ (run STANDARD (events_in r.1.items)).last) }
{
    let actors = ready(
        rt, alloc, &turn, &claims, jobs, gate, &mut first, &mut seat, clients, workers,
    )?;
    let team = Team {
        alloc,
        turn: &turn,
        claims: &claims,
        jobs,
        gate,
    };
    let ended = run_all(rt, &team, actors)?;
    close_all(alloc, turn, claims, first, seat, ended)
}

/// Draws the tickets of the jobs, runs a thread for each client and for each of so many workers, 1 to 64, and waits for all: the
/// server and the journal.
///
/// The journal is merged of the jobs and of what the clients ask, and the server is in the state after it, whatever the schedule
/// was. Each act, the draws included, passes the gate before and after; the clients are numbered from 1 in the order given, and
/// the workers behind them.
///
/// Fails only where memory is refused.
pub fn run_team<R: Threads + Wait + Sync, G: Gate + Sync>(
    rt: &R,
    alloc: Global,
    jobs: &ScriptJobs,
    clients: Vec<Client>,
    workers: u32,
    gate: &G,
) -> Result<(Hub, Vec<JournalEntry>), AllocError>
    requires jobs { length jobs.now.jobs < 4294967296 }
    requires workers { (0 < workers) × (workers ≤ 64) }
    requires clients { (length clients.items ≤ 256) × All (λ c. length c.events ≤ actor_share) clients.items }
    ensures merged { IfOk result (λ r. (asked : List Event) → Ask asked clients.items → IsMerged (map (job_in jobs.now.offset) jobs.now.jobs) asked r.1.items) }
    ensures last { IfOk result (λ r. r.0.state ≡ (run STANDARD (events_in r.1.items)).last) }
{
    let hub = Hub::new(alloc, Limits::STANDARD);
    let (turn, first) = Turn::new(alloc, hub)?;
    let (claims, seat) = Claims::new(alloc, jobs.count())?;
    run_with(
        rt, alloc, turn, claims, first, seat, jobs, clients, workers, gate,
    )
}
