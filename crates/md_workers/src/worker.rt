// Workers.
ghost use Rattle.std.specs.Prelude.{◌≡◌, ◌+◌, ◌<◌, ◌≤◌, ◌^◌, [], length, OnOk};
ghost use Rattle.md_turn.specs.Passes.{made_by};
ghost use Rattle.md_merge.specs.Jobs.{end_of};
ghost use Rattle.md_workers.specs.Actors.{HasWorked, IsSamePass, IsSameSeat};

use crate::act::act;
use crate::jobs::Jobs;
use md_machine::Event;
use md_pool::{ClaimSeat, Claims};
use md_source::Gate;
use md_turn::{Core, Pass, Turn};
use md_world::Change;
use std::alloc::{AllocError, Global};
use std::sync::Wait;

// The end of a job: its change is committed, or its ticket closed where there is none.
fn end_of(ticket: u32, change: Option<Change>) -> Event
    ensures { result ≡ end_of ticket change }
{
    match change {
        Some(change) => Event::Commit { ticket, change },
        None => Event::Close { ticket },
    }
}

/// Claims jobs and ends them, until none is left.
///
/// Fails only where memory is refused, and ends there.
pub(crate) fn work<R: Wait, C: Core, J: Jobs, G: Gate>(
    rt: &R,
    alloc: Global,
    turn: &Turn<C>,
    claims: &Claims,
    jobs: &J,
    gate: &G,
    actor: u32,
    pass: &mut Pass,
    seat: &mut ClaimSeat,
) -> Result<(), AllocError>
    requires turn { pass.old.id ≡ turn.now.id }
    requires claims { (seat.old.id ≡ claims.now.id) × (claims.now.numbers ≡ length (J.jobs jobs.now)) }
    requires few { length (J.jobs jobs.now) < 2 ^ 32 }
    requires room { (made_by pass.old + length (J.jobs jobs.now) ≤ pass.old.share) × (length (J.jobs jobs.now) < seat.old.share) × (seat.old.drawn ≡ []) }
    ensures same { IsSamePass pass.old pass.new × IsSameSeat seat.old seat.new }
    ensures worked { OnOk result (HasWorked (J.jobs jobs.now) pass.old pass.new seat.new) }
{
    for _ in rt.forever() {
        let Some(number) = claims.claim(seat) else {
            return Ok(());
        };
        let change = jobs.change(alloc, number)?;
        act(rt, turn, gate, actor, pass, end_of(number + 1, change))?;
    }
    unreachable!()
}
