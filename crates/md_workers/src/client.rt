// Clients.
ghost use Rattle.std.specs.Prelude.{◌≡◌, ◌+◌, ◌≤◌, length, OnOk};
ghost use Rattle.md_turn.specs.Passes.{made_by};
ghost use Rattle.md_workers.specs.Actors.{HasMade, IsSamePass};

use crate::act::act;
use md_machine::Event;
use md_source::Gate;
use md_turn::{Core, Pass, Turn};
use md_value::PlainVec;
use std::alloc::AllocError;
use std::sync::Wait;

/// Has a client's events answered, in order.
///
/// Fails only where memory is refused, and ends there.
pub(crate) fn serve<R: Wait, C: Core, G: Gate>(
    rt: &R,
    turn: &Turn<C>,
    gate: &G,
    actor: u32,
    pass: &mut Pass,
    events: PlainVec<Event>,
) -> Result<(), AllocError>
    requires turn { pass.old.id ≡ turn.now.id }
    requires room { made_by pass.old + length events ≤ pass.old.share }
    ensures same { IsSamePass pass.old pass.new }
    ensures made { OnOk result (HasMade pass.old pass.new events) }
{
    for event in events.into_vec() {
        act(rt, turn, gate, actor, pass, event)?;
    }
    Ok(())
}
