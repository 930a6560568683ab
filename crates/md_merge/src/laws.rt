//! What holds of every journal of a run of jobs beside what clients ask.

ghost use Rattle.std.specs.Prelude.{◌≡◌, ◌<◌, ◌≤◌, ℕ, List, length, map};
ghost use Rattle.md_world.specs.declared.TheConstants.Limits.{STANDARD};
ghost use Rattle.md_machine.specs.declared.Event.{Event};
ghost use Rattle.md_machine.specs.States.{State, opening};
ghost use Rattle.md_turn.specs.Passes.{Known, Ended};
ghost use Rattle.md_pool.specs.Claims.{Drawer, EachDrawnOnce, times, total_of};
ghost use Rattle.md_turn.specs.declared.journal.JournalEntry.{JournalEntry};
ghost use Rattle.md_merge.specs.Jobs.{Job, table_of};
ghost use Rattle.md_merge.specs.Merging.{IsMerged};
ghost use Rattle.md_merge.specs.Laws.{last_table, NeverFull};
ghost use Rattle.md_merge.specs.Joining.{AreOwned, ClientPass, WorkerPass, AreJoined};

/// In whatever order the ends of at most 100,000 jobs come, and whatever the clients ask between them, the last table is
/// that of one thread.
pub fn one_table()
    // The last table is that of the jobs' changes, one after the other in the order of their tickets.
    ensures table { (jobs : List Job) (asked : List Event) (journal : List JournalEntry) → length jobs ≤ 100000 → IsMerged jobs asked journal → last_table journal ≡ table_of jobs }
    // A ticket and room for a path are always left.
    ensures room { (jobs : List Job) (asked : List Event) (journal : List JournalEntry) → length jobs ≤ 100000 → IsMerged jobs asked journal → NeverFull journal }
{}

/// What the passes of a run by workers have made makes a journal of a run of the jobs beside what the clients ask.
pub fn passes_merge()
    // The journal is of a run of the jobs, where each pass made what it was for.
    ensures merged { (jobs : List Job) (asked : List Event) (first : List JournalEntry) (clients : List ClientPass) (workers : List WorkerPass) (journal : List JournalEntry) → AreJoined jobs asked first clients workers journal → IsMerged jobs asked journal }
    // Each entry was made by one of the passes with which the lock was closed.
    ensures owned { (passes : List Known) (state : State) (journal : List JournalEntry) → Ended (opening STANDARD) passes state journal → AreOwned (map (λ (p : Known). p.own) passes) journal }
    // Each job's number was drawn once, where a seat drew a number that no job has.
    ensures drawn { (n past : ℕ) (seats : List Drawer) → EachDrawnOnce seats → n ≤ past → 0 < total_of (λ (s : Drawer). times past s.drawn) seats → (k : ℕ) → k < n → total_of (λ (s : Drawer). times k s.drawn) seats ≡ 1 }
{}
