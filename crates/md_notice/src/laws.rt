//! What holds of followers.
ghost use Rattle.std.specs.Prelude.{◌≡◌, ℕ, true, List};
ghost use Rattle.md_world.specs.declared.Limits.{Limits};
ghost use Rattle.md_world.specs.declared.order.SortKey.{SortKey};
ghost use Rattle.md_machine.specs.declared.Event.{Event};
ghost use Rattle.md_machine.specs.declared.Reply.{Reply};
ghost use Rattle.md_machine.specs.States.{Query};
ghost use Rattle.md_machine.specs.Steps.{step};
ghost use Rattle.md_machine.specs.Runs.{run, entries, is_of, received, received_more};
ghost use Rattle.md_machine.specs.Laws.{IsLive};
ghost use Rattle.md_notice.specs.Following.{follower_received, follower_next, follower_in, shown_of, GoesFrom};

/// A follower that was given the replies to a query in turn shows exactly what its client holds, in the query's order.
pub fn followers_show_held()
    // For all replies, in whatever order they come.
    ensures shown { (order : List SortKey) (replies : List Reply) → follower_received order replies ≡ shown_of order replies }
    // One more reply is taken as a follower takes it.
    ensures next { (order : List SortKey) (replies : List Reply) (reply : Reply) → follower_received order (received_more replies reply) ≡ follower_next order (follower_received order replies) reply }
{}

/// For all limits and all events, a query's follower is of the version that the machine speaks of.
pub fn followers_are_of_base()
    // A live query's follower is of its base.
    ensures base { (limits : Limits) (events : List Event) (q : Query) → IsLive limits events q → (follower_in limits events q).version ≡ q.base }
    // The notice that comes next goes from the follower's version, so that the follower may take it.
    ensures notices { (limits : Limits) (events : List Event) (client number : ℕ) (order : List SortKey) (e : Event) → is_of client number e ≡ true → GoesFrom (follower_received order (received client number (entries limits events))).version (step (run limits events).last e).reply }
{}
