//! The rule that the lock keeps, and the names of its steps.
ghost use Rattle.std.specs.Prelude.{ℕ};

use crate::journal::JournalEntry;
use crate::journaled::{Core, Journaled};
use atomic_table::{Join, Play, Seat, Split, Table, TableRule};
use std::alloc::Global;
use std::collections::LinkedList;
use std::marker::{Brand, PhantomData};
use std::snapshot::Snapshot;

/// What a pass knows. No value of it is made.
pub struct View {
    /// How many acts it may make in all.
    pub share: u64,
    /// The journal that it has seen.
    pub seen: LinkedList<JournalEntry>,
    /// After a join, the shorter of the two journals that were seen.
    pub compared: LinkedList<JournalEntry>,
    /// The entries that it made.
    pub own: LinkedList<JournalEntry>,
    /// How many of its acts were refused.
    pub refused: u64,
    /// Whether it has a ticket.
    pub waits: bool,
    pub ticket: u64,
    /// Whether its turn has come, and it has the server.
    pub holds: bool,
}

/// What holds of the words, the slot and all views between any two steps.
pub struct Rule<C> {
    of: PhantomData<C>,
}

impl<C: Core> TableRule<Option<Journaled<C>>, View, Snapshot<C>> for Rule<C> {
    ghost use Rattle.std.specs.Prelude.{[]};
    ghost use Rattle.md_machine.specs.Steps.{step};
    ghost use Rattle.md_turn.specs.Turns.{Kept, resting, whole_share};

    ghost holds = { λ key. Kept step (λ h. h.journal.items) (λ h. C.state h.core) (C.state key.value) };

    ghost first = { λ _. resting whole_share [] [] [] 0 };
}

/// A ticket is drawn: the word of tickets goes up by one.
pub struct Draw<C> {
    of: PhantomData<C>,
}

impl<C: Core> Play<Option<Journaled<C>>, View> for Draw<C> {
    ghost use Rattle.md_turn.specs.Turns.{Draws};

    ghost then = { Draws };
}

/// The state of a server as its lock was made.
pub trait Opening {
    ghost use Rattle.md_machine.specs.States.{State as ServerState};

    ghost state: { ServerState };
}

impl Opening for Brand {
    ghost use Rattle.md_world.specs.Limits.{standard};
    ghost use Rattle.md_machine.specs.States.{opening};

    ghost state = { opening standard };
}

/// The word of the turn is read: it is another's turn, or the seat takes the server.
pub struct Look<C, O> {
    of: PhantomData<(C, O)>,
}

impl<C: Core, O: Opening> Play<Option<Journaled<C>>, View> for Look<C, O> {
    ghost use Rattle.md_machine.specs.Steps.{step};
    ghost use Rattle.md_turn.specs.Turns.{Looks};

    ghost then = { Looks step (λ h. h.journal.items) (λ h. C.state h.core) O.state };
}

/// The turn is passed on, after an entry was made.
pub struct Leave<C> {
    of: PhantomData<C>,
}

impl<C: Core> Play<Option<Journaled<C>>, View> for Leave<C> {
    ghost use Rattle.md_turn.specs.Turns.{Leaves};

    ghost then = { Leaves (λ h. h.journal.items) };
}

/// The turn is passed on, and no entry was made.
pub struct Refuse<C> {
    of: PhantomData<C>,
}

impl<C: Core> Play<Option<Journaled<C>>, View> for Refuse<C> {
    ghost use Rattle.md_turn.specs.Turns.{Refuses};

    ghost then = { Refuses };
}

/// The word of the turn is read after a join, by a seat without a ticket.
pub struct Compare;

impl<C> Play<Option<Journaled<C>>, View> for Compare {
    ghost use Rattle.md_turn.specs.Turns.{Compares};

    ghost then = { Compares };
}

/// How much of a share is cut off.
pub trait Amount {
    ghost amount: { ℕ };
}

impl Amount for Brand {
    ghost amount = { 0 };
}

/// A part of a share is cut off for a new pass.
pub struct Cut<N> {
    of: PhantomData<N>,
}

impl<N: Amount> Split<View> for Cut<N> {
    ghost use Rattle.md_turn.specs.Turns.{cut, cut_off};

    ghost left = { cut N.amount };

    ghost right = { cut_off N.amount };
}

/// Two passes become one.
pub struct Both;

impl Join<View> for Both {
    ghost use Rattle.md_turn.specs.Turns.{joined, spent_view};

    ghost both = { joined };

    ghost spent = { spent_view };
}

pub type TurnTable<C> = Table<Option<Journaled<C>>, View, Snapshot<C>, Rule<C>, Global>;

pub type TurnSeat<C> = Seat<Option<Journaled<C>>, View>;
