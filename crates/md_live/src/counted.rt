// Calls of the server, each over a counter of row reads of its own.
ghost use Rattle.std.specs.Prelude.{◌≡◌, ◌<◌, IfOk};
ghost use Rattle.std.specs.Option.{option_map};
ghost use Rattle.md_machine.specs.States.{query_at};
ghost use Rattle.md_hub.specs.Given.{given_by};
ghost use Rattle.md_hub.specs.Stepping.{IsStep};

use md_hub::{HeldRows, Hub};
use md_machine::{Event, Reply};
use md_world::{Row, Steps};
use std::alloc::{AllocError, Global};
use std::marker::Brand;
use std::sync::ledger::{Blank, Ledger};

fn step_counted<L: Ledger>(alloc: Global, hub: &mut Hub, event: &Event, blank: Blank) -> Reply
    requires name { blank.name ≡ L.name }
    requires parts { (blank.parts ≡ L.parts) × (0 < L.parts) }
    ensures { IsStep hub.old.state event.now result hub.new.state }
{
    let mut steps = Steps::<L>::open(blank);
    hub.step(alloc, event, &mut steps)
}

/// The server's reply to an event.
pub fn step(alloc: Global, hub: &mut Hub, event: &Event) -> Reply
    ensures { IsStep hub.old.state event.now result hub.new.state }
{
    step_counted::<Brand>(alloc, hub, event, Blank::new(1))
}

fn held_counted<L: Ledger>(
    alloc: Global,
    hub: &Hub,
    client: u8,
    number: u32,
    blank: Blank,
) -> Result<Option<HeldRows>, AllocError>
    requires name { blank.name ≡ L.name }
    requires parts { (blank.parts ≡ L.parts) × (0 < L.parts) }
    ensures { IfOk result (λ held. held ≡ option_map given_by (query_at hub.now.state.queries client number)) }
{
    let mut steps = Steps::<L>::open(blank);
    hub.held(alloc, client, number, &mut steps)
}

/// What a live query has given, if there is one. Fails only where memory runs out.
pub fn held(
    alloc: Global,
    hub: &Hub,
    client: u8,
    number: u32,
) -> Result<Option<HeldRows>, AllocError>
    ensures { IfOk result (λ held. held ≡ option_map given_by (query_at hub.now.state.queries client number)) }
{
    held_counted::<Brand>(alloc, hub, client, number, Blank::new(1))
}

fn rows_counted<L: Ledger>(alloc: Global, hub: &Hub, blank: Blank) -> Result<Vec<Row>, AllocError>
    requires name { blank.name ≡ L.name }
    requires parts { (blank.parts ≡ L.parts) × (0 < L.parts) }
    ensures { IfOk result (λ rows. rows.items ≡ hub.now.state.table) }
{
    let mut steps = Steps::<L>::open(blank);
    hub.rows(alloc, &mut steps)
}

/// A copy of the newest table, in path order. Fails only where memory runs out.
pub fn rows(alloc: Global, hub: &Hub) -> Result<Vec<Row>, AllocError>
    ensures { IfOk result (λ rows. rows.items ≡ hub.now.state.table) }
{
    rows_counted::<Brand>(alloc, hub, Blank::new(1))
}
