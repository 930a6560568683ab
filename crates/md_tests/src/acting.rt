// Clients that act beside each other on one server behind a turn lock.
ghost use Rattle.std.specs.Prelude.{◌≡◌, ◌+◌};
ghost use Rattle.std.specs.Thread.{IsSync, IsSend};

use md_expr::read;
use md_machine::{Batch, Event, Reply, Spec};
use md_turn::{Core, Pass, Turn};
use md_value::{Attrs, Name, Path, Text, Value};
use md_world::{Change, Order};
use std::alloc::Global;
use std::sync::Wait;
use std::thread::{Threads, join};

/// A client, and the ticket that it drew last.
#[derive(Drop)]
struct Client {
    number: u8,
    ticket: u32,
}

fn path(alloc: Global, client: u8) -> Option<Path> {
    let text = format!(in alloc; "{client}.txt").ok()?;
    Path::read(alloc, text.as_str()).ok()
}

fn change(alloc: Global, name: &str) -> Option<Change> {
    let text = Text::of(alloc, name).ok()?;
    let values = vec![in alloc; Value::Text(text)].ok()?;
    let mut attrs = Attrs::new(alloc);
    let name = Name::read(alloc, "kMDItemFSName").ok()?;
    attrs.put(name, values).ok()?;
    Some(Change::Put(attrs))
}

// All files that have a name.
fn spec(alloc: Global) -> Option<Spec> {
    Some(Spec {
        expr: read(alloc, "kMDItemFSName == *").ok()?,
        now: 0,
        offset: 0,
        scope: Path::root(alloc),
        order: Order::by_path(alloc),
        batch: Batch::NONE,
    })
}

impl Client {
    // What it asks in each of eight turns: its file is put, its query asked what has changed, a ticket closed. None comes where
    // memory runs out.
    fn event(&self, alloc: Global, turn: u64) -> Option<Event> {
        let client = self.number;
        let ticket = self.ticket;
        let number = 1;
        let now_ms = turn;
        Some(match turn % 8 {
            0 => Event::Create {
                client,
                number,
                spec: spec(alloc)?,
            },
            1 | 5 => Event::Draw {
                path: path(alloc, client)?,
            },
            2 => Event::Commit {
                ticket,
                change: change(alloc, "a")?,
            },
            3 => Event::Gather {
                client,
                number,
                now_ms,
            },
            4 => Event::Poll {
                client,
                number,
                now_ms,
            },
            6 => Event::Close { ticket },
            _ => Event::Vacuum { client },
        })
    }

    fn hear(&mut self, reply: &Reply) {
        if let Reply::Ticket(ticket) = reply {
            self.ticket = *ticket;
        }
    }
}

/// Has an event answered, if the pass may act: the entry's place in the journal, and the reply. Neither comes where memory was
/// refused.
fn answer_of<C: Core, R: Wait>(
    rt: &R,
    turn: &Turn<C>,
    pass: &mut Pass,
    event: Event,
) -> Option<(u64, Reply)>
    requires { pass.old.id ≡ turn.now.id }
    ensures { (pass.new.id ≡ pass.old.id) × (pass.new.share ≡ pass.old.share) }
{
    if pass.made() < pass.share() {
        turn.act(rt, pass, event).ok()
    } else {
        None
    }
}

/// Has an event answered, if the pass may act: the entry's place in the journal, or 0 where memory was refused.
pub fn place_of<C: Core, R: Wait>(rt: &R, turn: &Turn<C>, pass: &mut Pass, event: Event) -> u64
    requires { pass.old.id ≡ turn.now.id }
    ensures { (pass.new.id ≡ pass.old.id) × (pass.new.share ≡ pass.old.share) }
{
    match answer_of(rt, turn, pass, event) {
        Some((place, _)) => place,
        None => 0,
    }
}

// One act of a client. Whether it was answered.
fn act_for<C: Core, R: Wait>(
    rt: &R,
    alloc: Global,
    turn: &Turn<C>,
    pass: &mut Pass,
    client: &mut Client,
    number: u64,
) -> bool
    requires { pass.old.id ≡ turn.now.id }
    ensures { (pass.new.id ≡ pass.old.id) × (pass.new.share ≡ pass.old.share) }
{
    let Some(event) = client.event(alloc, number) else {
        return false;
    };
    let Some((_, reply)) = answer_of(rt, turn, pass, event) else {
        return false;
    };
    client.hear(&reply);
    true
}

// Half of what is left of the pass's share becomes a pass of its own.
fn split_half<C: Core>(turn: &Turn<C>, pass: &mut Pass) -> Pass
    requires { pass.old.id ≡ turn.now.id }
    ensures ids { (pass.new.id ≡ pass.old.id) × (result.id ≡ pass.old.id) }
    ensures shares { pass.new.share + result.share ≡ pass.old.share }
{
    let left = pass.share() - pass.made();
    turn.split(pass, left / 2).unwrap()
}

// One act of a client by a pass that is split off for it and taken in again. Whether it was answered.
fn act_apart<C: Core, R: Wait>(
    rt: &R,
    alloc: Global,
    turn: &Turn<C>,
    pass: &mut Pass,
    client: &mut Client,
    number: u64,
) -> bool
    requires { pass.old.id ≡ turn.now.id }
    ensures { (pass.new.id ≡ pass.old.id) × (pass.new.share ≡ pass.old.share) }
{
    let mut other = split_half(turn, pass);
    let is_answered = act_for(rt, alloc, turn, &mut other, client, number);
    turn.join(pass, other);
    is_answered
}

/// What each client does.
#[derive(Clone, Copy, Drop)]
pub struct Plan {
    /// So often it acts.
    pub acts: u64,
    /// Each act is made by a pass that is split off for it.
    pub splits: bool,
}

/// The acts of a client. How many were not answered.
pub fn act_often<C: Core, R: Wait>(
    rt: &R,
    alloc: Global,
    turn: &Turn<C>,
    pass: &mut Pass,
    number: u8,
    plan: Plan,
) -> u64
    requires { pass.old.id ≡ turn.now.id }
    ensures { (pass.new.id ≡ pass.old.id) × (pass.new.share ≡ pass.old.share) }
{
    let mut client = Client { number, ticket: 0 };
    let mut refused = 0u64;
    for act in 0..plan.acts {
        let is_answered = if plan.splits {
            act_apart(rt, alloc, turn, pass, &mut client, act)
        } else {
            act_for(rt, alloc, turn, pass, &mut client, act)
        };
        if !is_answered {
            refused = refused.saturating_add(1);
        }
    }
    refused
}

/// A pass after all its acts, and how many of them were not answered.
#[derive(Drop)]
pub struct Done {
    pub pass: Pass,
    pub refused: u64,
}

/// The acts of so many clients, each in a thread of its own. The clients have the numbers from this one on.
#[cycle(threads)]
pub fn act_by_threads<C: Core, R: Threads + Wait + Sync>(
    rt: &R,
    alloc: Global,
    turn: &Turn<C>,
    mut pass: Pass,
    number: u8,
    threads: u8,
    plan: Plan,
) -> Done
    requires sends { IsSend C.row × IsSync R.row }
    requires turn { pass.id ≡ turn.now.id }
    ensures { (result.pass.id ≡ pass.id) × (result.pass.share ≡ pass.share) }
{
    if threads <= 1 {
        let refused = act_often(rt, alloc, turn, &mut pass, number, plan);
        return Done { pass, refused };
    }
    let half = threads / 2;
    let rest = threads - half;
    let next = number.wrapping_add(half);
    let other = split_half(turn, &mut pass);
    let lower = move || -> Done
        requires { IsSend C.row × IsSync R.row × (pass.id ≡ turn.now.id) }
        ensures { (result.pass.id ≡ pass.id) × (result.pass.share ≡ pass.share) }
    { act_by_threads(rt, alloc, turn, pass, number, half, plan) };
    let upper = move || -> Done
        requires { IsSend C.row × IsSync R.row × (other.id ≡ turn.now.id) }
        ensures { (result.pass.id ≡ other.id) × (result.pass.share ≡ other.share) }
    { act_by_threads(rt, alloc, turn, other, next, rest, plan) };
    let (mut done, there) = join(rt, lower, upper);
    turn.join(&mut done.pass, there.pass);
    done.refused = done.refused.saturating_add(there.refused);
    done
}
