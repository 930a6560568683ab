// The draws of the jobs' tickets.
ghost use Rattle.std.specs.Prelude.{◌≡◌, ◌+◌, ◌≤◌, length, OnOk};
ghost use Rattle.md_turn.specs.Passes.{made_by};
ghost use Rattle.md_merge.specs.Jobs.{draws};
ghost use Rattle.md_workers.specs.Actors.{HasMade, IsSamePass};

use crate::act::act;
use crate::jobs::Jobs;
use md_machine::Event;
use md_source::Gate;
use md_turn::{Core, Pass, Turn};
use std::alloc::{AllocError, Global};
use std::sync::Wait;

/// The number by which a gate knows the thread that draws the tickets.
const CALLER: u32 = 0;

/// Draws a ticket for each job, in order.
///
/// Fails only where memory is refused.
pub fn draw_all<R: Wait, C: Core, J: Jobs, G: Gate>(
    rt: &R,
    alloc: Global,
    turn: &Turn<C>,
    jobs: &J,
    gate: &G,
    pass: &mut Pass,
) -> Result<(), AllocError>
    requires turn { pass.old.id ≡ turn.now.id }
    requires room { made_by pass.old + length (J.jobs jobs.now) ≤ pass.old.share }
    ensures same { IsSamePass pass.old pass.new }
    ensures count { OnOk result (made_by pass.new ≡ made_by pass.old + length (J.jobs jobs.now)) }
    ensures made { OnOk result (HasMade pass.old pass.new (draws (J.jobs jobs.now))) }
{
    for number in 0..jobs.count() {
        let path = jobs.path(alloc, number)?;
        act(rt, turn, gate, CALLER, pass, Event::Draw { path })?;
    }
    Ok(())
}
