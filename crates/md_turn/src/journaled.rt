//! A server with its journal.
ghost use Rattle.std.specs.Prelude.{◌≡◌, ◌+◌, [], ◌∷◌, ◌++◌, length, IfOk, IfErr, OnOk, OnErr};
ghost use Rattle.md_machine.specs.States.{State as ServerState};
ghost use Rattle.md_machine.specs.Steps.{step};
ghost use Rattle.md_turn.specs.Journal.{entry};

use crate::journal::JournalEntry;
use md_machine::{Event, Reply};
use std::alloc::{AllocError, Global};

/// A server that answers events as the machine does.
pub trait Core: Drop + Send {
    /// What it is, as a state of the machine.
    ghost state: { Self → ServerState };

    /// The machine's reply to an event, twice: for a journal and for a caller. Fails only where memory runs out; then
    /// nothing has changed.
    fn twin(&mut self, alloc: Global, event: &Event) -> Result<(Reply, Reply), AllocError>
        ensures replies { IfOk result (λ r. (r.0 ≡ (step (state self.old) event.now).reply) × (r.1 ≡ (step (state self.old) event.now).reply)) }
        ensures state { OnOk result (state self.new ≡ (step (state self.old) event.now).state) }
        ensures refused { OnErr result (state self.new ≡ state self.old) };
}

/// A server, with the journal of all that was done to it.
#[derive(Drop)]
pub struct Journaled<C> {
    pub alloc: Global,
    pub core: C,
    pub journal: Vec<JournalEntry>,
}

impl<C: Core> Journaled<C> {
    /// Has one event answered and makes its entry, or makes none for want of memory: then the event comes back and the
    /// server and its journal are as before.
    pub fn act(&mut self, event: Event) -> Result<(u64, Reply), Event>
        ensures place { IfOk result (λ r. r.0 ≡ length self.old.journal.items + 1) }
        ensures reply { IfOk result (λ r. r.1 ≡ (step (C.state self.old.core) event).reply) }
        ensures journal { IfOk result (λ r. self.new.journal.items ≡ self.old.journal.items ++ entry r.0 event r.1 ∷ []) }
        ensures state { OnOk result (C.state self.new.core ≡ (step (C.state self.old.core) event).state) }
        ensures handed_back { IfErr result (λ e. e ≡ event) }
        ensures no_entry { OnErr result (self.new.journal.items ≡ self.old.journal.items) }
        ensures unchanged { OnErr result (C.state self.new.core ≡ C.state self.old.core) }
    {
        if self.journal.reserve(1).is_err() {
            return Err(event);
        }
        let Ok((reply, copy)) = self.core.twin(self.alloc, &event) else {
            return Err(event);
        };
        let place = self.journal.len() as u64 + 1;
        self.journal.push_reserved(JournalEntry {
            place,
            event,
            reply,
        });
        Ok((place, copy))
    }
}
