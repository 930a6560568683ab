// The open tickets.
ghost use Rattle.std.specs.Prelude.{◌≡◌, ℕ, ◌<◌, ◌≤◌, ◌++◌, ◌∷◌, [], length, is_some, OnOk, OnErr, true};
ghost use Rattle.std.specs.Option.{option_map};
ghost use Rattle.md_world.specs.Tickets.{ticket_at, without_ticket};
ghost use Rattle.md_store.specs.Open.{tickets_of, AreDrawn, with_path};

use md_value::Path;
use std::alloc::AllocError;
use std::collections::BTreeMap;

/// The open tickets by number, each with the path that it was drawn for.
pub type OpenTickets = BTreeMap<u32, Path>;

/// The path of the open ticket of this number.
pub fn path_of(tickets: &OpenTickets, number: u32) -> Option<&Path>
    ensures { option_map (λ path. with_path number path.now) result ≡ ticket_at (tickets_of tickets.now.entries) number }
{
    tickets.get(&number)
}

/// Opens a ticket, whose number is greater than those of all that were drawn.
pub fn open(tickets: &mut OpenTickets, number: u32, path: Path) -> Result<(), AllocError>
    requires drawn { (drawn : ℕ) × AreDrawn drawn (tickets_of tickets.old.entries) × (drawn < number) }
    ensures ok { OnOk result (tickets_of tickets.new.entries ≡ tickets_of tickets.old.entries ++ with_path number path ∷ []) }
    ensures err { OnErr result (tickets.new.entries ≡ tickets.old.entries) }
{
    tickets.insert(number, path)?;
    Ok(())
}

/// Closes the ticket of this number, and answers whether it was open.
#[tactic(auto, using(crate::proofs::Opening::was_open))]
pub fn close(tickets: &mut OpenTickets, number: u32) -> bool
    requires drawn { (drawn : ℕ) × AreDrawn drawn (tickets_of tickets.old.entries) }
    ensures closed { tickets_of tickets.new.entries ≡ without_ticket (tickets_of tickets.old.entries) number }
    ensures was_open { result ≡ is_some (ticket_at (tickets_of tickets.old.entries) number) }
{
    tickets.remove(&number).is_some()
}
