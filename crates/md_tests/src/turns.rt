// Acts of several threads on one server behind a turn lock.
ghost use Rattle.std.specs.Prelude.{◌≡◌};
ghost use Rattle.md_turn.specs.Turns.{whole_share};

use crate::acting::{Done, Plan, act_by_threads, place_of};
use crate::sparing::Sparing;
use md_hub::Hub;
use md_machine::{Event, Reply};
use md_render::push_entry;
use md_turn::{Core, JournalEntry, Pass, Turn};
use md_value::Path;
use md_world::Limits;
use std::alloc::{AllocError, Global};
use std::sync::Wait;
use std::test::Fail;
use std::thread::Threads;

fn vacuum() -> Event {
    Event::Vacuum { client: 0 }
}

fn draw(alloc: Global) -> Result<Event, Fail> {
    let path = Path::read(alloc, "a.txt")?;
    Ok(Event::Draw { path })
}

fn new_hub(alloc: Global) -> Hub {
    Hub::new(alloc, Limits::STANDARD)
}

// The server and its journal, by the one pass that is left.
fn closed<C: Core>(
    alloc: Global,
    turn: Turn<C>,
    pass: Pass,
) -> Result<(C, Vec<JournalEntry>), AllocError>
    requires turn { pass.id ≡ turn.id }
    requires whole { pass.share ≡ whole_share }
{
    let passes = vec![in alloc; pass]?;
    Ok(turn.close(passes))
}

// An act by a pass, and one by a part of it that may make five acts: their places, what the passes have made and may make
// before and after they are one, and how many entries the journal has.
fn take_turns<C: Core, R: Wait>(rt: &R, alloc: Global, core: C) -> Result<String, Fail> {
    let event = draw(alloc)?;
    let (turn, mut first) = Turn::new(alloc, core)?;
    let mut second = turn.split(&mut first, 5)?;
    let place = place_of(rt, &turn, &mut first, event);
    let next = place_of(rt, &turn, &mut second, vacuum());
    let (made, others, share) = (first.made(), second.made(), second.share());
    turn.join(&mut first, second);
    let (all, whole) = (first.made(), first.share());
    let (_, journal) = closed(alloc, turn, first)?;
    let entries = journal.len();
    Ok(format!(in alloc;
        "places {place} {next}, made {made} {others} of {share}, {all} of {whole}, {entries} entries"
    )?)
}

#[test]
fn a_pass_and_its_part_take_turns(rt: HostRuntime) -> Result<(), Fail> {
    let alloc = rt.alloc();
    let text = take_turns(&rt, alloc, new_hub(alloc))?;
    assert_eq!(rt;
        text.as_str(),
        "places 1 2, made 1 1 of 5, 2 of 18446744073709551615, 2 entries"
    );
    Ok(())
}

// An act of drawing, and then one of a vacuum: their places, 0 where memory was refused, and the number of entries.
fn draw_and_vacuum<C: Core, R: Wait>(rt: &R, alloc: Global, core: C) -> Result<String, Fail> {
    let event = draw(alloc)?;
    let (turn, mut pass) = Turn::new(alloc, core)?;
    let place = place_of(rt, &turn, &mut pass, event);
    let next = place_of(rt, &turn, &mut pass, vacuum());
    let made = pass.made();
    let (_, journal) = closed(alloc, turn, pass)?;
    let entries = journal.len();
    Ok(format!(in alloc; "places {place} {next}, made {made}, {entries} entries")?)
}

#[test]
fn a_refused_act_has_no_entry(rt: HostRuntime) -> Result<(), Fail> {
    let alloc = rt.alloc();
    let text = draw_and_vacuum(&rt, alloc, Sparing::of(new_hub(alloc), 1))?;
    assert_eq!(rt; text.as_str(), "places 1 0, made 2, 1 entries");
    Ok(())
}

// What the acts of several clients leave.
#[derive(Drop)]
struct Ran<C> {
    core: C,
    journal: Vec<JournalEntry>,
    made: u64,
    refused: u64,
}

// Has so many clients act on a server, each in a thread of its own.
fn acts_of<C: Core, R: Threads + Wait + Sync>(
    rt: &R,
    alloc: Global,
    core: C,
    threads: u8,
    plan: Plan,
) -> Result<Ran<C>, AllocError> {
    let (turn, pass) = Turn::new(alloc, core)?;
    let Done { pass, refused } = act_by_threads(rt, alloc, &turn, pass, 0, threads, plan);
    let made = pass.made();
    let (core, journal) = closed(alloc, turn, pass)?;
    Ok(Ran {
        core,
        journal,
        made,
        refused,
    })
}

fn line(alloc: Global, place: u64, event: &Event, reply: &Reply) -> Result<String, AllocError> {
    let mut text = String::new(alloc);
    push_entry(&mut text, place, event, reply)?;
    Ok(text)
}

// Whether the server answers the entry's event as the entry says, which has this place.
fn is_answered(
    alloc: Global,
    hub: &mut Hub,
    place: u64,
    entry: &JournalEntry,
) -> Result<bool, AllocError> {
    let (reply, _) = hub.twin(alloc, &entry.event)?;
    let wanted = line(alloc, place, &entry.event, &reply)?;
    let given = line(alloc, entry.place, &entry.event, &entry.reply)?;
    Ok(wanted.as_str() == given.as_str())
}

// Has the journal's events answered by a server of its own. How many entries have another place or reply there.
fn run_again(alloc: Global, hub: &mut Hub, journal: &[JournalEntry]) -> Result<usize, AllocError> {
    let mut differing = 0usize;
    let mut place = 0u64;
    for entry in journal {
        place = place.saturating_add(1);
        if !is_answered(alloc, hub, place, entry)? {
            differing = differing.saturating_add(1);
        }
    }
    Ok(differing)
}

// What was made, what of it was refused, and how many entries of the journal a server of its own answers otherwise: with it,
// whether both servers end at the same version.
fn compared(
    alloc: Global,
    hub: &Hub,
    journal: &[JournalEntry],
    made: u64,
    refused: u64,
) -> Result<String, AllocError> {
    let mut other = new_hub(alloc);
    let differing = run_again(alloc, &mut other, journal)?;
    let entries = journal.len();
    let is_same = hub.version() == other.version();
    format!(in alloc;
        "made {made}, refused {refused}, {entries} entries, {differing} differ, same version {is_same}"
    )
}

// The acts of so many clients on a server.
fn act_on_hub<R: Threads + Wait + Sync>(
    rt: &R,
    alloc: Global,
    threads: u8,
    plan: Plan,
) -> Result<String, AllocError> {
    let Ran {
        core,
        journal,
        made,
        refused,
    } = acts_of(rt, alloc, new_hub(alloc), threads, plan)?;
    compared(alloc, &core, &journal, made, refused)
}

// The acts of so many clients on a server that memory is refused to.
fn act_on_sparing<R: Threads + Wait + Sync>(
    rt: &R,
    alloc: Global,
    threads: u8,
    plan: Plan,
) -> Result<String, AllocError> {
    let Ran {
        core,
        journal,
        made,
        refused,
    } = acts_of(rt, alloc, Sparing::of(new_hub(alloc), 0), threads, plan)?;
    compared(alloc, &core.hub, &journal, made, refused)
}

const ONE_ACT: Plan = Plan {
    acts: 1,
    splits: false,
};

const MANY_ACTS: Plan = Plan {
    acts: 10_000,
    splits: false,
};

const SPLIT_ACTS: Plan = Plan {
    acts: 1_000,
    splits: true,
};

const SPARED_ACTS: Plan = Plan {
    acts: 900,
    splits: false,
};

#[test]
fn two_threads_make_one_journal(rt: HostRuntime) -> Result<(), Fail> {
    let text = act_on_hub(&rt, rt.alloc(), 2, ONE_ACT)?;
    assert_eq!(rt;
        text.as_str(),
        "made 2, refused 0, 2 entries, 0 differ, same version true"
    );
    Ok(())
}

#[test]
fn eight_threads_make_one_journal(rt: HostRuntime) -> Result<(), Fail> {
    let text = act_on_hub(&rt, rt.alloc(), 8, MANY_ACTS)?;
    assert_eq!(rt;
        text.as_str(),
        "made 80000, refused 0, 80000 entries, 0 differ, same version true"
    );
    Ok(())
}

#[test]
fn a_pass_is_split_while_others_act(rt: HostRuntime) -> Result<(), Fail> {
    let text = act_on_hub(&rt, rt.alloc(), 4, SPLIT_ACTS)?;
    assert_eq!(rt;
        text.as_str(),
        "made 4000, refused 0, 4000 entries, 0 differ, same version true"
    );
    Ok(())
}

#[test]
fn acts_are_refused_among_acts_of_others(rt: HostRuntime) -> Result<(), Fail> {
    let text = act_on_sparing(&rt, rt.alloc(), 4, SPARED_ACTS)?;
    assert_eq!(rt;
        text.as_str(),
        "made 3600, refused 1200, 2400 entries, 0 differ, same version true"
    );
    Ok(())
}
