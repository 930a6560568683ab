// Places that were found, as far as they are few enough.
ghost use Rattle.std.specs.Prelude.{◌≡◌, ◌<◌, ◌||◌, ℕ, List, [], length, filter, true, false, Bool, OnOk, if◌then◌else◌, nat_lt};
ghost use Rattle.std.specs.Option.{option_map};
ghost use Rattle.std.specs.List.Sorted.{IsStrictlyIncreasing};
ghost use Rattle.md_index.specs.Indexed.{lists, Adds};
ghost use Rattle.md_plan.specs.FoundPlaces.{IsFound};

use md_index::{PlacesFound, in_order};
use std::alloc::AllocError;

/// The places, where they are all and at most so many.
pub fn at_most(found: PlacesFound, most: usize) -> Option<Vec<u32>>
    requires rising { IsStrictlyIncreasing found.places.items }
    requires over { found.whole ≡ false → most < length found.places.items }
    ensures { (all : List ℕ) (test : ℕ → Bool) → IsStrictlyIncreasing all → ((p : ℕ) → test p ≡ true → lists all p ≡ true) → Adds [] found.places.items found.whole test → IsFound most (filter test all) (option_map (λ v. v.items) result) }
{
    let PlacesFound { places, whole } = found;
    if !whole {
        return None;
    }
    if most < places.len() {
        return None;
    }
    Some(places)
}

/// The fewer of two sets of places, the first where they are as many.
pub fn fewer(best: Option<Vec<u32>>, found: Option<Vec<u32>>) -> Option<Vec<u32>>
    ensures { (most : ℕ) (xs ys : List ℕ) → IsFound most xs (option_map (λ v. v.items) best) → IsFound most ys (option_map (λ v. v.items) found) → IsFound most (if nat_lt (length ys) (length xs) then ys else xs) (option_map (λ v. v.items) result) }
{
    match (best, found) {
        (Some(best), Some(found)) => Some(shorter(best, found)),
        (Some(best), None) => Some(best),
        (None, found) => found,
    }
}

fn shorter(best: Vec<u32>, found: Vec<u32>) -> Vec<u32>
    ensures { result.items ≡ (if nat_lt (length found.items) (length best.items) then found.items else best.items) }
{
    if found.len() < best.len() {
        found
    } else {
        best
    }
}

/// Adds places to others.
pub fn join(out: &mut Vec<u32>, found: &[u32]) -> Result<(), AllocError>
    ensures { OnOk result ((p : ℕ) → lists out.new.items p ≡ lists out.old.items p || lists found.now p) }
{
    out.extend_from_slice(found)?;
    Ok(())
}

/// The places that were joined, in order, each once, where they are at most so many.
pub fn joined(out: Vec<u32>, most: usize) -> Option<Vec<u32>>
    ensures { (all : List ℕ) (test : ℕ → Bool) → IsStrictlyIncreasing all → ((p : ℕ) → test p ≡ true → lists all p ≡ true) → ((p : ℕ) → lists out.items p ≡ test p) → IsFound most (filter test all) (option_map (λ v. v.items) result) }
{
    let mut places = out;
    in_order(&mut places);
    if most < places.len() {
        return None;
    }
    Some(places)
}
