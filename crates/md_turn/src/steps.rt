//! The steps of the lock, by a seat.
ghost use Rattle.std.specs.Prelude.{◌≡◌, ◌+◌, ◌-◌, ◌<◌, ◌≤◌, [], ◌∷◌, ◌++◌, length, IfOk, IfErr, true, false, Some};
ghost use Rattle.md_turn.specs.declared.journal.JournalEntry.{JournalEntry};
ghost use Rattle.md_turn.specs.declared.journaled.Journaled.{Journaled};
ghost use Rattle.md_machine.specs.Steps.{step};
ghost use Rattle.md_turn.specs.Journal.{entry, after, IsPrefix, shorter, longer};
ghost use Rattle.md_turn.specs.Turns.{view, resting, made, Takes, cut, cut_off, joined, whole_share, Closes};
ghost use Rattle.md_turn.specs.Acts.{journal_of, state_of, Carries, Rests, Acted, Unacted};

use crate::journal::JournalEntry;
use crate::journaled::{Core, Journaled};
use crate::rule::{
    Amount, Both, Compare, Cut, Draw, Leave, Look, Opening, Refuse, TurnSeat, TurnTable,
};
use md_machine::{Event, Reply};
use std::hint::spin_loop;
use std::sync::Wait;
use std::thread::yield_now;

fn draw_ticket<C: Core>(turns: &TurnTable<C>, seat: &mut TurnSeat<C>) -> u64
    requires table { (seat.old.table_id ≡ turns.now.shared.table_id) × (turns.now.shared.table_id.words ≡ 2) }
    requires rests { Rests seat.old.me }
    requires room { made seat.old.me.0 < seat.old.me.0.share }
    ensures table { seat.new.table_id ≡ seat.old.table_id }
    ensures drawn { seat.new.me ≡ (view seat.old.me.0.share seat.old.me.0.seen seat.old.me.0.compared seat.old.me.0.own seat.old.me.0.refused true result false, []) }
{
    turns.shared.fetch_add::<Draw<C>>(seat, 0, 1)
}

// How often who is next looks again before it yields its processor.
const SPINS: u32 = 200;

// A pause before the next look, by who has so many others before it and has looked so often.
fn pause(ahead: u64, looks: u32) {
    if ahead > 1 || looks > SPINS {
        yield_now();
    } else {
        spin_loop();
    }
}

fn await_turn<C: Core, O: Opening, R: Wait>(
    rt: &R,
    turns: &TurnTable<C>,
    seat: &mut TurnSeat<C>,
    ticket: u64,
)
    requires table { (seat.old.table_id ≡ turns.now.shared.table_id) × (turns.now.shared.table_id.words ≡ 2) }
    requires opening { C.state turns.now.shared.key.value ≡ O.state }
    requires waits { (seat.old.me.0.waits ≡ true) × (seat.old.me.0.holds ≡ false) × (seat.old.me.0.ticket ≡ ticket) }
    ensures table { seat.new.table_id ≡ seat.old.table_id }
    ensures taken { Takes step journal_of (state_of C.state) O.state seat.old.me seat.new.me }
{
    let mut looks = 0u32;
    for _ in rt.forever() {
        let serving = turns.shared.load::<Look<C, O>>(seat, 1);
        if serving == ticket {
            return;
        }
        pause(ticket.wrapping_sub(serving), looks);
        looks = looks.saturating_add(1);
    }
    unreachable!()
}

// One act on what the seat has taken.
fn act_journaled<C: Core, O: Opening>(
    turns: &TurnTable<C>,
    seat: &mut TurnSeat<C>,
    event: Event,
) -> Result<(u64, Reply), Event>
    requires table { seat.old.table_id ≡ turns.now.shared.table_id }
    requires carries { Carries C.state O.state seat.old.me.0.seen seat.old.me.1 }
    ensures table { seat.new.table_id ≡ seat.old.table_id }
    ensures view { seat.new.me.0 ≡ seat.old.me.0 }
    ensures acted { IfOk result (λ r. Carries C.state O.state (seat.old.me.0.seen ++ entry r.0 event r.1 ∷ []) seat.new.me.1 × (r.0 ≡ length seat.old.me.0.seen + 1) × (r.1 ≡ (step (after step O.state seat.old.me.0.seen) event).reply)) }
    ensures refused { IfErr result (λ e. (e ≡ event) × Carries C.state O.state seat.old.me.0.seen seat.new.me.1) }
{
    let mut journaled = turns.shared.exchange(seat, 0, None).unwrap();
    let outcome = journaled.act(event);
    drop(turns.shared.exchange(seat, 0, Some(journaled)));
    outcome
}

// The turn is passed on, after an entry was made.
fn pass_on<C: Core, O: Opening>(turns: &TurnTable<C>, seat: &mut TurnSeat<C>)
    requires table { (seat.old.table_id ≡ turns.now.shared.table_id) × (turns.now.shared.table_id.words ≡ 2) × (turns.now.shared.table_id.slots ≡ 1) }
    requires opening { C.state turns.now.shared.key.value ≡ O.state }
    requires made { (seat.old.me.0.holds ≡ true) × ((e : JournalEntry) × Carries C.state O.state (seat.old.me.0.seen ++ e ∷ []) seat.old.me.1 × (e.place ≡ length seat.old.me.0.seen + 1) × (e.reply ≡ (step (after step O.state seat.old.me.0.seen) e.event).reply)) }
    ensures table { seat.new.table_id ≡ seat.old.table_id }
    ensures left { (e : JournalEntry) → Carries C.state O.state (seat.old.me.0.seen ++ e ∷ []) seat.old.me.1 → seat.new.me ≡ (resting seat.old.me.0.share (seat.old.me.0.seen ++ e ∷ []) seat.old.me.0.compared (seat.old.me.0.own ++ e ∷ []) seat.old.me.0.refused, []) }
{
    turns.shared.fetch_add::<Leave<C>>(seat, 1, 1);
}

// The turn is passed on, with no entry made.
fn give_up<C: Core, O: Opening>(turns: &TurnTable<C>, seat: &mut TurnSeat<C>)
    requires table { (seat.old.table_id ≡ turns.now.shared.table_id) × (turns.now.shared.table_id.words ≡ 2) × (turns.now.shared.table_id.slots ≡ 1) }
    requires opening { C.state turns.now.shared.key.value ≡ O.state }
    requires unchanged { (seat.old.me.0.holds ≡ true) × Carries C.state O.state seat.old.me.0.seen seat.old.me.1 }
    ensures table { seat.new.table_id ≡ seat.old.table_id }
    ensures left { seat.new.me ≡ (resting seat.old.me.0.share seat.old.me.0.seen seat.old.me.0.compared seat.old.me.0.own (seat.old.me.0.refused + 1), []) }
{
    turns.shared.fetch_add::<Refuse<C>>(seat, 1, 1);
}

// A whole act.
pub(crate) fn act_by<C: Core, O: Opening, R: Wait>(
    rt: &R,
    turns: &TurnTable<C>,
    seat: &mut TurnSeat<C>,
    event: Event,
) -> Result<(u64, Reply), Event>
    requires table { (seat.old.table_id ≡ turns.now.shared.table_id) × (turns.now.shared.table_id.words ≡ 2) × (turns.now.shared.table_id.slots ≡ 1) }
    requires opening { C.state turns.now.shared.key.value ≡ O.state }
    requires rests { Rests seat.old.me }
    requires room { made seat.old.me.0 < seat.old.me.0.share }
    ensures table { seat.new.table_id ≡ seat.old.table_id }
    ensures rests { Rests seat.new.me × (seat.new.me.0.share ≡ seat.old.me.0.share) }
    ensures acted { IfOk result (λ r. Acted O.state seat.old.me.0.seen seat.old.me.0.own seat.new.me.0.seen seat.new.me.0.own event r.0 r.1 × (seat.new.me.0.refused ≡ seat.old.me.0.refused)) }
    ensures refused { IfErr result (λ e. (e ≡ event) × Unacted O.state seat.old.me.0.seen seat.old.me.0.own seat.new.me.0.seen seat.new.me.0.own × (seat.new.me.0.refused ≡ seat.old.me.0.refused + 1)) }
{
    let ticket = draw_ticket(turns, seat);
    await_turn::<C, O, R>(rt, turns, seat, ticket);
    match act_journaled::<C, O>(turns, seat, event) {
        Ok(answer) => {
            pass_on::<C, O>(turns, seat);
            Ok(answer)
        }
        Err(event) => {
            give_up::<C, O>(turns, seat);
            Err(event)
        }
    }
}

pub(crate) fn cut_by<C: Core, N: Amount>(
    turns: &TurnTable<C>,
    seat: &mut TurnSeat<C>,
    share: u64,
) -> TurnSeat<C>
    requires amount { share ≡ N.amount }
    requires table { (seat.old.table_id ≡ turns.now.shared.table_id) × (turns.now.shared.table_id.words ≡ 2) }
    requires rests { Rests seat.old.me }
    requires room { share ≤ seat.old.me.0.share - made seat.old.me.0 }
    ensures table { (seat.new.table_id ≡ seat.old.table_id) × (result.table_id ≡ seat.old.table_id) }
    ensures old { seat.new.me ≡ (cut share seat.old.me.0, []) }
    ensures new { result.me ≡ (cut_off share seat.old.me.0, []) }
{
    turns.shared.split_seat::<Cut<N>>(seat)
}

// The load of the word `serving` after the join shows that the shorter of the two journals is a prefix of the longer.
pub(crate) fn join_by<C: Core>(turns: &TurnTable<C>, seat: &mut TurnSeat<C>, other: TurnSeat<C>)
    requires table { (seat.old.table_id ≡ turns.now.shared.table_id) × (other.table_id ≡ turns.now.shared.table_id) × (turns.now.shared.table_id.words ≡ 2) }
    requires rests { Rests seat.old.me × Rests other.me }
    ensures table { seat.new.table_id ≡ seat.old.table_id }
    ensures both { seat.new.me ≡ (joined seat.old.me.0 other.me.0, []) }
    ensures share { seat.old.me.0.share + other.me.0.share ≤ whole_share }
    ensures prefix { IsPrefix (shorter seat.old.me.0.seen other.me.0.seen) (longer seat.old.me.0.seen other.me.0.seen) }
{
    turns.shared.join_seat::<Both>(seat, other);
    turns.shared.load::<Compare>(seat, 1);
}

pub(crate) fn close_by<C: Core>(turns: TurnTable<C>, seat: TurnSeat<C>) -> Journaled<C>
    requires table { (seat.table_id ≡ turns.shared.table_id) × (turns.shared.table_id.words ≡ 2) × (turns.shared.table_id.slots ≡ 1) }
    requires rests { Rests seat.me }
    requires whole { seat.me.0.share ≡ whole_share }
    ensures { Closes step journal_of (state_of C.state) (C.state turns.shared.key.value) seat.me.0 (Some result) }
{
    let mut closed = turns.close_with(seat);
    let journaled = closed.take(0).unwrap();
    closed.free();
    journaled
}
