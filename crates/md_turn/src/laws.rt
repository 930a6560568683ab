//! What holds of every lock and its passes.
ghost use Rattle.std.specs.Prelude.{◌≡◌, All, Bool, List, Option, true};
ghost use Rattle.atomic_table.specs.Table.{State};
ghost use Rattle.md_machine.specs.States.{State as ServerState};
ghost use Rattle.md_machine.specs.Steps.{step};
ghost use Rattle.md_turn.specs.declared.journaled.Journaled.{Journaled};
ghost use Rattle.md_turn.specs.declared.journal.JournalEntry.{JournalEntry};
ghost use Rattle.md_turn.specs.declared.rule.View.{View};
ghost use Rattle.md_turn.specs.Acts.{journal_of, state_of};
ghost use Rattle.md_turn.specs.Passes.{Known, Ended};
ghost use Rattle.md_turn.specs.Turns.{Kept};
ghost use Rattle.md_turn.specs.Listed.{Listed};

use crate::journaled::Core;
use crate::pass::Pass;
use crate::turn::Turn;
use std::marker::PhantomData;

/// At every moment, tickets, turns, the journal, what passes have seen and own, and their shares are as `Listed` says. It
/// follows of the rule that each step keeps.
pub fn rule_is_listed<C: Core>(_of: PhantomData<C>)
    ensures { (opening : ServerState) (s : State (Option (Journaled C)) View) → Kept step journal_of (state_of C.state) opening s → Listed step journal_of (state_of C.state) opening s }
{}

/// What is true of each own entry of the passes that close a lock is true of the whole journal.
pub fn entries_are_own()
    ensures { (test : JournalEntry → Bool) (opening : ServerState) (passes : List Known) (state : ServerState) (journal : List JournalEntry) → Ended opening passes state journal → All (λ (p : Known). All (λ (e : JournalEntry). test e ≡ true) p.own) passes → All (λ (e : JournalEntry). test e ≡ true) journal }
{}

fn is_shared<T: Sync>(_lent: &T) {}

fn is_handed_over<T: Send + Drop>(_given: T) {}

/// Threads may share a lock, and a pass may be handed to one, whatever the server is.
pub fn crosses_threads<C: Core>(turn: &Turn<C>, pass: Pass) {
    is_shared(turn);
    is_handed_over(pass);
}
