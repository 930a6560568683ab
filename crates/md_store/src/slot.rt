// What is kept for each stamped path.
ghost use Rattle.std.specs.Prelude.{◌≡◌, ℕ, List, map, ◌+◌, ◌^◌, ◌<◌, ◌≤◌, ◌++◌, ◌∷◌, [], length, slice_get, IsSome, None, Some, OnOk, OnErr, vec_len, vec_capacity};
ghost use Rattle.md_store.specs.Chains.{IsOrdered};
ghost use Rattle.md_store.specs.Pins.{Ascend};
ghost use Rattle.md_store.specs.Places.{places_of, place_in, place_for, with_commit, IsCommittedAt, ArePlaces, HasRowRoom, bare, bare_seen, rows_in, IsGivenUpAt};
ghost use Rattle.md_store.specs.declared.slot.Slot.{Slot as OneSlot};

use crate::chain::{KeptRow, append, give_up, reserve_row};
use md_paths::PathTable;
use md_value::Path;
use md_world::Row;
use std::alloc::AllocError;

/// The greatest committed ticket of a path, and its rows.
#[derive(Debug, Drop)]
pub struct Slot {
    pub stamp: u32,
    pub chain: Vec<KeptRow>,
}

fn push_slot(paths: &mut PathTable, slots: &mut Vec<Slot>, path: Path, chain: Vec<KeptRow>)
    requires same { length paths.old.keys ≡ length slots.old.items }
    requires absent { place_in (places_of paths.old.keys slots.old.items) path ≡ None }
    requires path_room { 0 < paths.old.spare }
    requires slot_room { vec_len slots.old < vec_capacity slots.old }
    ensures keys { paths.new.keys ≡ paths.old.keys ++ path ∷ [] }
    ensures slots { slots.new.items ≡ slots.old.items ++ record { stamp = 0; chain = chain } ∷ [] }
{
    paths.push(path);
    let Ok(()) = slots.push(Slot { stamp: 0, chain }) else {
        unreachable!()
    };
}

fn commit_slot(slots: &mut Vec<Slot>, place: usize, ticket: u32, version: u32, row: Option<Row>)
    requires within { place < length slots.old.items }
    requires room { HasRowRoom slots.old.items place }
    requires ordered { (slot : OneSlot) → slice_get slots.old.items place ≡ Some slot → IsOrdered slot.chain.items }
    ensures { IsCommittedAt slots.old.items slots.new.items place ticket version row }
{
    let slot = &mut slots[place];
    slot.stamp = ticket;
    append(&mut slot.chain, version, row);
}

/// Stamps the path at its place, or at the next one, and gives it the row from this version on, or none.
pub fn commit(
    paths: &mut PathTable,
    slots: &mut Vec<Slot>,
    place: usize,
    path: Path,
    chain: Vec<KeptRow>,
    ticket: u32,
    version: u32,
    row: Option<Row>,
)
    requires same { length paths.old.keys ≡ length slots.old.items }
    requires place { place ≡ place_for (places_of paths.old.keys slots.old.items) path }
    requires ordered { (k : ℕ) (slot : OneSlot) → slice_get slots.old.items k ≡ Some slot → IsOrdered slot.chain.items }
    requires row_room { HasRowRoom slots.old.items place }
    requires place_room { place ≡ length slots.old.items → (0 < paths.old.spare) × (vec_len slots.old < vec_capacity slots.old) }
    requires chain_room { place ≡ length slots.old.items → vec_len chain < vec_capacity chain }
    requires empty { chain.items ≡ [] }
    ensures same { length paths.new.keys ≡ length slots.new.items }
    ensures places { places_of paths.new.keys slots.new.items ≡ with_commit (places_of paths.old.keys slots.old.items) path ticket version row }
{
    if place == slots.len() {
        push_slot(paths, slots, path, chain);
        commit_slot(slots, place, ticket, version, row);
    } else {
        commit_slot(slots, place, ticket, version, row);
    }
}

// Room for one more row at a place.
fn row_room(slots: &mut Vec<Slot>, place: usize) -> Result<(), AllocError>
    requires { place < length slots.old.items }
    ensures seen { (keys : List (List ℕ)) → places_of keys slots.new.items ≡ places_of keys slots.old.items }
    ensures len { length slots.new.items ≡ length slots.old.items }
    ensures sizes { (vec_len slots.new ≡ vec_len slots.old) × (vec_capacity slots.new ≡ vec_capacity slots.old) }
    ensures kept { (k : ℕ) → HasRowRoom slots.old.items k → HasRowRoom slots.new.items k }
    ensures ok { OnOk result (HasRowRoom slots.new.items place) }
{
    let slot = &mut slots[place];
    reserve_row(&mut slot.chain)
}

/// Room for a commit at a place, or at the next one.
pub fn make_room(
    paths: &mut PathTable,
    slots: &mut Vec<Slot>,
    place: usize,
) -> Result<(), AllocError>
    requires { place ≤ length slots.old.items }
    ensures keys { paths.new.keys ≡ paths.old.keys }
    ensures len { length slots.new.items ≡ length slots.old.items }
    ensures seen { (keys : List (List ℕ)) → places_of keys slots.new.items ≡ places_of keys slots.old.items }
    ensures row_kept { (k : ℕ) → HasRowRoom slots.old.items k → HasRowRoom slots.new.items k }
    ensures place_kept { (0 < paths.old.spare) × (vec_len slots.old < vec_capacity slots.old) → (0 < paths.new.spare) × (vec_len slots.new < vec_capacity slots.new) }
    ensures row_room { OnOk result (HasRowRoom slots.new.items place) }
    ensures place_room { OnOk result (place ≡ length slots.new.items → (0 < paths.new.spare) × (vec_len slots.new < vec_capacity slots.new)) }
{
    if place < slots.len() {
        row_room(slots, place)
    } else {
        paths.reserve()?;
        slots.reserve(1)
    }
}

fn give_up_at(slots: &mut Vec<Slot>, place: usize, newest: u32, pins: &[u32]) -> usize
    requires place { place < length slots.old.items }
    requires pins { Ascend pins.now }
    ensures len { length slots.new.items ≡ length slots.old.items }
    ensures given { IsGivenUpAt (map bare slots.old.items) (map bare slots.new.items) newest pins.now place result }
{
    let slot = &mut slots[place];
    give_up(&mut slot.chain, newest, pins)
}

/// Gives up the rows that neither the newest version nor a pinned one sees, and answers how many.
pub fn give_up_all(slots: &mut Vec<Slot>, newest: u32, pins: &[u32]) -> usize
    requires few { rows_in (map bare slots.old.items) < 2 ^ 32 }
    requires pins { Ascend pins.now }
    ensures len { length slots.new.items ≡ length slots.old.items }
    ensures seen { map bare slots.new.items ≡ map (bare_seen newest pins.now) (map bare slots.old.items) }
    ensures count { result + rows_in (map bare slots.new.items) ≡ rows_in (map bare slots.old.items) }
{
    let mut given = 0;
    for place in 0..slots.len() {
        given += give_up_at(slots, place, newest, pins);
    }
    given
}
