// One act of an actor.
ghost use Rattle.std.specs.Prelude.{◌≡◌, ◌+◌, ◌<◌, ◌∷◌, [], OnOk};
ghost use Rattle.md_turn.specs.Passes.{made_by};
ghost use Rattle.md_workers.specs.Actors.{HasMade, IsSamePass};

use md_machine::Event;
use md_source::{Gate, Point};
use md_turn::{Core, Pass, Turn};
use std::alloc::AllocError;
use std::sync::Wait;

/// Has one event answered, and passes the gate before and after.
///
/// Fails only where memory is refused. Then there is no entry.
pub(crate) fn act<R: Wait, C: Core, G: Gate>(
    rt: &R,
    turn: &Turn<C>,
    gate: &G,
    actor: u32,
    pass: &mut Pass,
    event: Event,
) -> Result<(), AllocError>
    requires turn { pass.old.id ≡ turn.now.id }
    requires room { made_by pass.old < pass.old.share }
    ensures same { IsSamePass pass.old pass.new }
    ensures count { OnOk result (made_by pass.new ≡ made_by pass.old + 1) }
    ensures made { OnOk result (HasMade pass.old pass.new (event ∷ [])) }
{
    gate.pass(actor, Point::BeforeAct);
    let answer = turn.act(rt, pass, event);
    gate.pass(actor, Point::AfterAct);
    match answer {
        Ok(_) => Ok(()),
        Err(_) => Err(AllocError),
    }
}
