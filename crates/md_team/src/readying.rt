// A team before its threads start.
ghost use Rattle.std.specs.Prelude.{◌≡◌, ◌+◌, ◌<◌, ◌≤◌, [], length, IfOk};
ghost use Rattle.md_turn.specs.Turns.{whole_share};
ghost use Rattle.md_turn.specs.Passes.{made_by};
ghost use Rattle.md_team.specs.Teams.{IsReady};

use md_pool::{ClaimSeat, Claims};
use md_source::Gate;
use md_turn::{Core, Pass, Turn};
use md_workers::{Actor, Client, Jobs, draw_all, split_all};
use std::alloc::{AllocError, Global};
use std::sync::Wait;

/// Draws the tickets of the jobs with the first pass of a lock, and splits the passes and the seats of the actors off.
///
/// Fails only where memory is refused.
pub fn ready<R: Wait, C: Core, J: Jobs, G: Gate>(
    rt: &R,
    alloc: Global,
    turn: &Turn<C>,
    claims: &Claims,
    jobs: &J,
    gate: &G,
    first: &mut Pass,
    seat: &mut ClaimSeat,
    clients: Vec<Client>,
    workers: u32,
) -> Result<Vec<Actor>, AllocError>
    requires turn { (first.old.id ≡ turn.now.id) × (seat.old.id ≡ claims.now.id) }
    requires new { (first.old.own ≡ []) × (first.old.refused ≡ 0) × (seat.old.drawn ≡ []) }
    requires shares { (first.old.share ≡ whole_share) × (seat.old.share ≡ whole_share) }
    requires few { (length (J.jobs jobs.now) ≤ 4294967296) × (length clients.items ≤ 256) × (workers ≤ 64) }
    ensures { IfOk result (λ actors. IsReady (J.jobs jobs.now) clients.items workers claims.now first.old first.new seat.old seat.new actors.items) }
{
    draw_all(rt, alloc, turn, jobs, gate, first)?;
    split_all(alloc, turn, claims, first, seat, clients, workers)
}
