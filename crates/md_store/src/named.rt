// The places that have a row, in path order.
ghost use Rattle.std.specs.Prelude.{◌≡◌, ℕ, ◌<◌, ◌^◌, length, map, slice_get, IfOk, Some};
ghost use Rattle.md_world.specs.Differences.{paths_of};
ghost use Rattle.md_store.specs.Chains.{IsOrdered};
ghost use Rattle.md_store.specs.Places.{places_of, place_in, table_at, ArePlaces};
ghost use Rattle.md_store.specs.Named.{has_row};
ghost use Rattle.md_store.specs.declared.slot.Slot.{Slot as OneSlot};

use crate::chain::seen_in;
use crate::slot::Slot;
use md_paths::PathTable;
use std::alloc::{AllocError, Global};

// Whether a version sees a row at a place.
fn has_row(slots: &[Slot], place: usize, version: u32) -> bool
    requires { (k : ℕ) (slot : OneSlot) → slice_get slots.now k ≡ Some slot → IsOrdered slot.chain.items }
    ensures { result ≡ has_row slots.now version place }
{
    match slots.get(place) {
        Some(slot) => seen_in(&slot.chain, version).is_some(),
        None => false,
    }
}

/// The places that have a row in a version, in the order of their paths.
pub fn places_in_order(
    alloc: Global,
    paths: &PathTable,
    slots: &[Slot],
    version: u32,
) -> Result<Vec<u32>, AllocError>
    requires same { length paths.now.keys ≡ length slots.now }
    requires few { length slots.now < 2 ^ 32 }
    requires places { (newest : ℕ) × ArePlaces newest (places_of paths.now.keys slots.now) }
    ensures { IfOk result (λ found. map Some found.items ≡ map (place_in (places_of paths.now.keys slots.now)) (paths_of (table_at (places_of paths.now.keys slots.now) version))) }
{
    let mut found = Vec::new(alloc);
    for rank in 0..paths.len() {
        let Some(place) = paths.in_order(rank) else {
            unreachable!()
        };
        if has_row(slots, place, version) {
            found.push(place as u32)?;
        }
    }
    Ok(found)
}
