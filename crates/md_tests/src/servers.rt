// Runs of the server over events that no line of a script gives: late commits, small limits.
ghost use Rattle.std.specs.Prelude.{◌≡◌, ◌<◌};

use md_expr::read;
use md_hub::run;
use md_machine::{Batch, Event, Spec};
use md_render::push_entry;
use md_value::{Attrs, Name, Path, Text, Value};
use md_world::{Change, Limits, Order, Steps};
use std::alloc::Global;
use std::marker::Brand;
use std::sync::ledger::{Blank, Ledger};
use std::test::Fail;

fn counted_journal<L: Ledger>(
    alloc: Global,
    limits: Limits,
    events: &[Event],
    blank: Blank,
) -> Result<String, Fail>
    requires name { blank.name ≡ L.name }
    requires parts { (blank.parts ≡ L.parts) × (0 < L.parts) }
{
    let mut steps = Steps::<L>::open(blank);
    let (hub, replies) = run(alloc, limits, events, &mut steps)?;
    let mut text = String::new(alloc);
    let mut place = 1u64;
    for (event, reply) in events.iter().zip(replies.iter()) {
        push_entry(&mut text, place, event, reply)?;
        place = place.saturating_add(1);
    }
    let rows = hub.rows(alloc, &mut steps)?.len();
    let version = hub.version();
    writeln!(text, "version {version}, {rows} rows")?;
    Ok(text)
}

/// The journal of these events.
fn journal(alloc: Global, limits: Limits, events: &[Event]) -> Result<String, Fail> {
    counted_journal::<Brand>(alloc, limits, events, Blank::new(1))
}

fn draw(alloc: Global, path: &str) -> Result<Event, Fail> {
    let path = Path::read(alloc, path)?;
    Ok(Event::Draw { path })
}

fn put(alloc: Global, ticket: u32, name: &str) -> Result<Event, Fail> {
    let values = vec![in alloc; Value::Text(Text::of(alloc, name)?)]?;
    let mut attrs = Attrs::new(alloc);
    attrs.put(Name::read(alloc, "kMDItemFSName")?, values)?;
    Ok(Event::Commit {
        ticket,
        change: Change::Put(attrs),
    })
}

fn remove(ticket: u32) -> Event {
    Event::Commit {
        ticket,
        change: Change::Remove,
    }
}

// Client 0 creates its query 1 for all files that have a name.
fn create(alloc: Global) -> Result<Event, Fail> {
    let expr = read(alloc, "kMDItemFSName == *")?;
    Ok(Event::Create {
        client: 0,
        number: 1,
        spec: Spec {
            expr,
            now: 0,
            offset: 0,
            scope: Path::root(alloc),
            order: Order::by_path(alloc),
            batch: Batch::NONE,
        },
    })
}

fn disable() -> Event {
    Event::Disable {
        client: 0,
        number: 1,
    }
}

#[test]
fn a_smaller_ticket_is_superseded(rt: HostRuntime) -> Result<(), Fail> {
    let alloc = rt.alloc();
    let mut events = Vec::new(alloc);
    events.push(draw(alloc, "a.txt")?)?;
    events.push(draw(alloc, "a.txt")?)?;
    events.push(put(alloc, 2, "x")?)?;
    events.push(put(alloc, 1, "y")?)?;
    events.push(draw(alloc, "a.txt")?)?;
    events.push(draw(alloc, "a.txt")?)?;
    events.push(remove(4))?;
    events.push(put(alloc, 3, "z")?)?;
    events.push(put(alloc, 3, "z")?)?;
    assert_eq!(rt;
        journal(alloc, Limits::STANDARD, &events)?.as_str(),
        "1 ticket 1 a.txt\n2 ticket 2 a.txt\n3 committed 2 1\n4 superseded 1 2\n5 ticket 3 a.txt\n6 ticket 4 a.txt\n7 committed 4 2\n8 superseded 3 4\n9 no-ticket 3\nversion 2, 0 rows\n"
    );
    Ok(())
}

#[test]
fn a_full_store_keeps_the_ticket(rt: HostRuntime) -> Result<(), Fail> {
    let alloc = rt.alloc();
    let limits = Limits {
        paths: 1,
        tickets: 4,
        queries: 1,
        disables: 2,
    };
    let mut events = Vec::new(alloc);
    events.push(draw(alloc, "a.txt")?)?;
    events.push(put(alloc, 1, "a.txt")?)?;
    events.push(draw(alloc, "b.txt")?)?;
    events.push(put(alloc, 2, "b.txt")?)?;
    events.push(Event::Close { ticket: 2 })?;
    for path in ["c", "d", "e"] {
        events.push(draw(alloc, path)?)?;
    }
    for event in [
        create(alloc)?,
        create(alloc)?,
        disable(),
        disable(),
        disable(),
    ] {
        events.push(event)?;
    }
    assert!(rt;
        journal(alloc, limits, &events)?.as_str().ends_with(
            "4 store-full 2\n5 closed 2\n6 ticket 3 c\n7 ticket 4 d\n8 tickets-spent e\n9 c0 q1 created 1\n10 c0 q1 taken\n11 c0 q1 disabled 1\n12 c0 q1 disabled 2\n13 c0 q1 too-deep\nversion 1, 1 rows\n"
        )
    );
    Ok(())
}

fn draw_and_put(alloc: Global, events: &mut Vec<Event>, ticket: u32) -> Result<(), Fail> {
    events.push(draw(alloc, "a.txt")?)?;
    events.push(put(alloc, ticket, "a.txt")?)?;
    Ok(())
}

// A file is put, and a query of it created.
fn queried(alloc: Global) -> Result<Vec<Event>, Fail> {
    let mut events = Vec::new(alloc);
    draw_and_put(alloc, &mut events, 1)?;
    events.push(create(alloc)?)?;
    Ok(events)
}

// Then the file is put twice again.
fn put_again(alloc: Global) -> Result<Vec<Event>, Fail> {
    let mut events = queried(alloc)?;
    draw_and_put(alloc, &mut events, 2)?;
    draw_and_put(alloc, &mut events, 3)?;
    Ok(events)
}

// Then rows are given up.
fn given_up(alloc: Global) -> Result<Vec<Event>, Fail> {
    let mut events = put_again(alloc)?;
    events.push(Event::Vacuum { client: 0 })?;
    Ok(events)
}

// Then the query is stopped, and rows are given up again.
fn stopped(alloc: Global) -> Result<Vec<Event>, Fail> {
    let mut events = given_up(alloc)?;
    events.push(Event::Stop {
        client: 0,
        number: 1,
    })?;
    events.push(Event::Vacuum { client: 0 })?;
    Ok(events)
}

fn counted_rows<L: Ledger>(alloc: Global, events: &[Event], blank: Blank) -> Result<usize, Fail>
    requires name { blank.name ≡ L.name }
    requires parts { (blank.parts ≡ L.parts) × (0 < L.parts) }
{
    let mut steps = Steps::<L>::open(blank);
    let (hub, _) = run(alloc, Limits::STANDARD, events, &mut steps)?;
    Ok(hub.kept())
}

// How many rows the server keeps after these events.
fn kept(alloc: Global, events: Result<Vec<Event>, Fail>) -> Result<usize, Fail> {
    counted_rows::<Brand>(alloc, &events?, Blank::new(1))
}

#[test]
fn a_vacuum_keeps_what_a_query_sees(rt: HostRuntime) -> Result<(), Fail> {
    let alloc = rt.alloc();
    let before = kept(alloc, put_again(alloc))?;
    let pinned = kept(alloc, given_up(alloc))?;
    let after = kept(alloc, stopped(alloc))?;
    assert_eq!(rt; (before, pinned, after), (3, 2, 1));
    Ok(())
}
