//! What holds of every run of actors that has ended.
ghost use Rattle.std.specs.Prelude.{ℕ, List};
ghost use Rattle.md_machine.specs.declared.Event.{Event};
ghost use Rattle.md_machine.specs.States.{State};
ghost use Rattle.md_turn.specs.declared.journal.JournalEntry.{JournalEntry};
ghost use Rattle.md_merge.specs.Jobs.{Job};
ghost use Rattle.md_merge.specs.Merging.{IsMerged};
ghost use Rattle.md_workers.specs.declared.actor.Client.{Client};
ghost use Rattle.md_workers.specs.Teams.{IsRun};

/// Whatever the schedule was, the journal of clients and workers that have all ended is merged of the jobs and of what the
/// clients ask.
pub fn actors_merge()
    ensures { (jobs : List Job) (asked : List Event) (clients : List Client) (workers : ℕ) (state : State) (journal : List JournalEntry) → IsRun jobs asked clients workers state journal → IsMerged jobs asked journal }
{}
