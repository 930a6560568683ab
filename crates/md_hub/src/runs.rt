// A whole run over a list of events.
ghost use Rattle.std.specs.Prelude.{◌≡◌, IfOk};
ghost use Rattle.md_hub.specs.Received.{IsReceived};

use crate::hub::Hub;
use md_machine::{Event, Reply};
use md_world::{Limits, Steps};
use std::alloc::{AllocError, Global};
use std::sync::ledger::Ledger;

/// The server after these events, and the reply to each. An event that is answered `Memory` leaves no trace; the
/// others are answered as if it had not come. Fails only where the replies find no memory.
pub fn run<L: Ledger>(
    alloc: Global,
    limits: Limits,
    events: &[Event],
    steps: &mut Steps<L>,
) -> Result<(Hub, Vec<Reply>), AllocError>
    ensures { IfOk result (λ r. IsReceived limits events.now r.1.items r.0.state) }
{
    let mut hub = Hub::new(alloc, limits);
    let mut replies = Vec::new(alloc);
    for event in events {
        let reply = hub.step(alloc, event, steps);
        replies.push(reply)?;
    }
    Ok((hub, replies))
}
