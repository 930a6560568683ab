// The end of a run.
ghost use Rattle.std.specs.Prelude.{◌≡◌, ℕ, ◌+◌, ◌<◌, ◌≤◌, ◌^◌, ◌∷◌, ◌++◌, [], List, false, length, map, All, IfOk, OnOk};
ghost use Rattle.std.specs.List.{AllByRecursion, filter_map};
ghost use Rattle.std.specs.Option.{option_to_list};
ghost use Rattle.md_turn.specs.Journal.{total_of};
ghost use Rattle.md_turn.specs.Turns.{whole_share};
ghost use Rattle.md_turn.specs.Passes as passes;
ghost use Rattle.md_turn.specs.Passes.{Known};
ghost use Rattle.md_pool.specs.Claims as counts;
ghost use Rattle.md_pool.specs.Claims.{Drawer, EachDrawnOnce};

use crate::actor::Ended;
use md_pool::{ClaimSeat, Claims};
use md_turn::{Core, JournalEntry, Pass, Turn};
use std::alloc::{AllocError, Global};

// Keeps a seat, if there is one.
fn keep_seat(seats: &mut Vec<ClaimSeat>, seat: Option<ClaimSeat>) -> Result<(), AllocError>
    ensures { OnOk result (seats.new.items ≡ seats.old.items ++ option_to_list seat) }
{
    if let Some(seat) = seat {
        seats.push(seat)?;
    }
    Ok(())
}

// The passes and the seats of actors, behind these. Fails where memory was refused to one of the actors.
fn gather(
    passes: &mut Vec<Pass>,
    seats: &mut Vec<ClaimSeat>,
    ended: Vec<Ended>,
) -> Result<(), AllocError>
    ensures passes { OnOk result (passes.new.items ≡ passes.old.items ++ map (λ e. e.pass) ended.items) }
    ensures seats { OnOk result (seats.new.items ≡ seats.old.items ++ filter_map (λ e. e.seat) ended.items) }
    ensures whole { OnOk result (AllByRecursion (λ e. e.refused ≡ false) ended.items) }
{
    for actor in ended {
        if actor.refused {
            return Err(AllocError);
        }
        let Ended { pass, seat, .. } = actor;
        passes.push(pass)?;
        keep_seat(seats, seat)?;
    }
    Ok(())
}

/// Ends the claims and the lock once all actors have ended: the server and its journal.
///
/// # Errors
///
/// Memory was refused, here or to one of the actors.
pub fn close_all<C: Core>(
    alloc: Global,
    turn: Turn<C>,
    claims: Claims,
    first: Pass,
    seat: ClaimSeat,
    ended: Vec<Ended>,
) -> Result<(C, Vec<JournalEntry>), AllocError>
    requires passes { All (λ (p : Known). p.id ≡ turn.id) (first ∷ map (λ e. e.pass) ended.items) }
    requires shares { total_of (λ (p : Known). p.share) (first ∷ map (λ e. e.pass) ended.items) ≡ whole_share }
    requires seats { All (λ (s : Drawer). s.id ≡ claims.id) (seat ∷ filter_map (λ e. e.seat) ended.items) }
    requires claims { counts.total_of (λ (s : Drawer). s.share) (seat ∷ filter_map (λ e. e.seat) ended.items) ≡ whole_share }
    ensures whole { OnOk result (AllByRecursion (λ e. e.refused ≡ false) ended.items) }
    ensures drawn { OnOk result (EachDrawnOnce (seat ∷ filter_map (λ e. e.seat) ended.items)) }
    ensures ended { IfOk result (λ r. passes.Ended turn.opening (first ∷ map (λ e. e.pass) ended.items) (C.state r.0) r.1.items) }
{
    let mut passes = vec![in alloc; first]?;
    let mut seats = vec![in alloc; seat]?;
    gather(&mut passes, &mut seats, ended)?;
    claims.close(seats);
    Ok(turn.close(passes))
}
