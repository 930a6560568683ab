// Rows under slots, and lists of slots that lead to them in an order.
ghost use Rattle.std.specs.Prelude.{◌≡◌, ◌+◌, ◌≤◌, ◌<◌, [], true, false, length, slice_get, MatchOption, MatchResult, IfOk};
ghost use Rattle.std.specs.List.{prefix_len};
ghost use Rattle.std.specs.List.Sorted.{IsPermutation};
ghost use Rattle.std.specs.Option.{option_copied, is_some};
ghost use Rattle.slab.specs.Slab.{get};
ghost use Rattle.md_value.specs.Values.{PathBytes, is_before};
ghost use Rattle.md_world.specs.Tables.{has_path, with_row, without_path, has_at};
ghost use Rattle.md_world.specs.Orders.{row_before, IsOrdered, IsInOrder, with_placed};
ghost use Rattle.md_sort.specs.Kept.{PathsDiffer};
ghost use Rattle.md_sort.specs.Slots.{row_or_empty, rows_at, AllHeld, passes, AreIndexed, room_in};

use crate::compare::row_before;
use md_pages::SlotList;
use md_value::Path;
use md_world::{Row, SortKey};
use slab::Slab;
use std::alloc::AllocError;

/// The row at a place.
pub fn row_at<'a>(rows: &'a Slab<Row>, slots: &SlotList, place: usize) -> Option<&'a Row>
    requires { AllHeld (get rows.now) slots.now.items }
    ensures { option_copied result ≡ slice_get (rows_at (get rows.now) slots.now.items) place }
{
    match slots.get(place) {
        Some(slot) => rows.get(slot),
        None => None,
    }
}

// How many rows stand before the row.
fn place_in(keys: &[SortKey], rows: &Slab<Row>, slots: &SlotList, row: &Row) -> usize
    requires held { AllHeld (get rows.now) slots.now.items }
    requires ordered { IsOrdered keys.now (rows_at (get rows.now) slots.now.items) }
    ensures value { result ≡ prefix_len (λ other. row_before keys.now other row.now) (rows_at (get rows.now) slots.now.items) }
    ensures bound { result ≤ length slots.now.items }
{
    slots.partition_point(
        |slot: usize| -> bool
            ensures { result ≡ passes (λ other. row_before keys.entry.now other row.entry.now) (get rows.entry.now slot) }
        {
            match rows.get(slot) {
                Some(other) => row_before(keys, other, row),
                None => false,
            }
        },
    )
}

// How many rows stand before the path.
fn place_before(rows: &Slab<Row>, slots: &SlotList, path: &Path) -> usize
    requires held { AllHeld (get rows.now) slots.now.items }
    requires ordered { IsOrdered [] (rows_at (get rows.now) slots.now.items) }
    ensures value { result ≡ prefix_len (λ row. is_before row.path path.now) (rows_at (get rows.now) slots.now.items) }
    ensures bound { result ≤ length slots.now.items }
{
    slots.partition_point(
        |slot: usize| -> bool
            ensures { result ≡ passes (λ row. is_before row.path path.entry.now) (get rows.entry.now slot) }
        {
            match rows.get(slot) {
                Some(row) => row.path.is_before(path),
                None => false,
            }
        },
    )
}

fn has_at(rows: &Slab<Row>, slots: &SlotList, place: usize, path: &Path) -> bool
    requires { AllHeld (get rows.now) slots.now.items }
    ensures { result ≡ has_at (rows_at (get rows.now) slots.now.items) place path.now }
{
    match row_at(rows, slots, place) {
        Some(row) => row.path == *path,
        None => false,
    }
}

// Where the row of a path stands by path, or else where it would.
fn find(rows: &Slab<Row>, paths: &SlotList, path: &Path) -> Result<usize, usize>
    requires held { AllHeld (get rows.now) paths.now.items }
    requires ordered { IsOrdered [] (rows_at (get rows.now) paths.now.items) }
    ensures found { MatchResult result (λ i. (i < length paths.now.items) × (has_at (rows_at (get rows.now) paths.now.items) i path.now ≡ true)) (λ i. (i ≤ length paths.now.items) × (has_path (rows_at (get rows.now) paths.now.items) path.now ≡ false)) }
    ensures place { MatchResult result (λ i. i ≡ prefix_len (λ row. is_before row.path path.now) (rows_at (get rows.now) paths.now.items)) (λ i. i ≡ prefix_len (λ row. is_before row.path path.now) (rows_at (get rows.now) paths.now.items)) }
{
    let place = place_before(rows, paths, path);
    if has_at(rows, paths, place, path) {
        Ok(place)
    } else {
        Err(place)
    }
}

// How many rows stand before the row, where it is known how many do by path.
fn place_from(
    keys: &[SortKey],
    rows: &Slab<Row>,
    places: &SlotList,
    row: &Row,
    by_path: usize,
) -> usize
    requires held { AllHeld (get rows.now) places.now.items }
    requires ordered { IsOrdered keys.now (rows_at (get rows.now) places.now.items) }
    requires by_path { keys.now ≡ [] → by_path ≡ prefix_len (λ other. row_before [] other row.now) (rows_at (get rows.now) places.now.items) }
    ensures value { result ≡ prefix_len (λ other. row_before keys.now other row.now) (rows_at (get rows.now) places.now.items) }
    ensures bound { result ≤ length places.now.items }
{
    if keys.is_empty() {
        return by_path;
    }
    place_in(keys, rows, places, row)
}

// Where the row at a place by path stands in the order.
fn own_place(
    keys: &[SortKey],
    rows: &Slab<Row>,
    paths: &SlotList,
    places: &SlotList,
    place: usize,
) -> usize
    requires indexed { AreIndexed keys.now (get rows.now) paths.now.items places.now.items }
    requires place { place < length paths.now.items }
    ensures row { slice_get (rows_at (get rows.now) places.now.items) result ≡ slice_get (rows_at (get rows.now) paths.now.items) place }
    ensures bound { result < length places.now.items }
{
    let Some(row) = row_at(rows, paths, place) else {
        unreachable!()
    };
    place_from(keys, rows, places, row, place)
}

/// Where the row of a path stands in the order.
pub fn place_of(
    keys: &[SortKey],
    rows: &Slab<Row>,
    paths: &SlotList,
    places: &SlotList,
    path: &Path,
) -> Option<usize>
    requires { AreIndexed keys.now (get rows.now) paths.now.items places.now.items }
    ensures { MatchOption result (has_path (rows_at (get rows.now) places.now.items) path.now ≡ false) (λ i. (i < length places.now.items) × (has_at (rows_at (get rows.now) places.now.items) i path.now ≡ true)) }
{
    match find(rows, paths, path) {
        Ok(place) => Some(own_place(keys, rows, paths, places, place)),
        Err(_) => None,
    }
}

// Takes out the row at a place by path.
fn take_out_at(
    keys: &[SortKey],
    rows: &mut Slab<Row>,
    paths: &mut SlotList,
    places: &mut SlotList,
    place: usize,
)
    requires indexed { AreIndexed keys.now (get rows.old) paths.old.items places.old.items }
    requires place { place < length paths.old.items }
    ensures rows { (path : PathBytes) → has_at (rows_at (get rows.old) paths.old.items) place path ≡ true → rows_at (get rows.new) places.new.items ≡ without_path (rows_at (get rows.old) places.old.items) path }
    ensures by_path { (path : PathBytes) → has_at (rows_at (get rows.old) paths.old.items) place path ≡ true → rows_at (get rows.new) paths.new.items ≡ without_path (rows_at (get rows.old) paths.old.items) path }
    ensures indexed { AreIndexed keys.now (get rows.new) paths.new.items places.new.items }
    ensures more { 0 < room_in rows.new paths.new places.new }
    ensures room { room_in rows.old paths.old places.old ≤ room_in rows.new paths.new places.new }
{
    let other = own_place(keys, rows, paths, places, place);
    let Some(slot) = paths.remove(place) else {
        unreachable!()
    };
    places.remove(other);
    rows.try_remove(slot);
}

/// Takes the row of a path out, and answers whether there was one.
pub fn take_out(
    keys: &[SortKey],
    rows: &mut Slab<Row>,
    paths: &mut SlotList,
    places: &mut SlotList,
    path: &Path,
) -> bool
    requires { AreIndexed keys.now (get rows.old) paths.old.items places.old.items }
    ensures found { result ≡ has_path (rows_at (get rows.old) places.old.items) path.now }
    ensures rows { rows_at (get rows.new) places.new.items ≡ without_path (rows_at (get rows.old) places.old.items) path.now }
    ensures indexed { AreIndexed keys.now (get rows.new) paths.new.items places.new.items }
    ensures room { room_in rows.old paths.old places.old ≤ room_in rows.new paths.new places.new }
{
    match find(rows, paths, path) {
        Ok(place) => {
            take_out_at(keys, rows, paths, places, place);
            true
        }
        Err(_) => false,
    }
}

// Takes the row of a path out, if there is one, and answers where such a row would stand by path.
fn clear_place(
    keys: &[SortKey],
    rows: &mut Slab<Row>,
    paths: &mut SlotList,
    places: &mut SlotList,
    path: &Path,
) -> usize
    requires { AreIndexed keys.now (get rows.old) paths.old.items places.old.items }
    ensures rows { rows_at (get rows.new) places.new.items ≡ without_path (rows_at (get rows.old) places.old.items) path.now }
    ensures indexed { AreIndexed keys.now (get rows.new) paths.new.items places.new.items }
    ensures place { result ≡ prefix_len (λ row. is_before row.path path.now) (rows_at (get rows.new) paths.new.items) }
    ensures bound { result ≤ length paths.new.items }
    ensures more { has_path (rows_at (get rows.old) places.old.items) path.now ≡ true → 0 < room_in rows.new paths.new places.new }
    ensures room { room_in rows.old paths.old places.old ≤ room_in rows.new paths.new places.new }
{
    match find(rows, paths, path) {
        Ok(place) => {
            take_out_at(keys, rows, paths, places, place);
            place
        }
        Err(place) => place,
    }
}

// Puts a row in whose path no row has.
fn put_in(
    keys: &[SortKey],
    rows: &mut Slab<Row>,
    paths: &mut SlotList,
    places: &mut SlotList,
    row: Row,
    by_path: usize,
)
    requires indexed { AreIndexed keys.now (get rows.old) paths.old.items places.old.items }
    requires absent { has_path (rows_at (get rows.old) places.old.items) row.path ≡ false }
    requires place { by_path ≡ prefix_len (λ other. is_before other.path row.path) (rows_at (get rows.old) paths.old.items) }
    requires bound { by_path ≤ length paths.old.items }
    requires room { 0 < room_in rows.old paths.old places.old }
    ensures rows { rows_at (get rows.new) places.new.items ≡ with_placed keys.now row (rows_at (get rows.old) places.old.items) }
    ensures indexed { AreIndexed keys.now (get rows.new) paths.new.items places.new.items }
    ensures room { room_in rows.old paths.old places.old ≤ room_in rows.new paths.new places.new + 1 }
{
    let place = place_from(keys, rows, places, &row, by_path);
    let slot = rows.insert_reserved(row);
    paths.insert(by_path, slot);
    places.insert(place, slot);
}

/// Sets the row of its path.
pub fn set(
    keys: &[SortKey],
    rows: &mut Slab<Row>,
    paths: &mut SlotList,
    places: &mut SlotList,
    row: Row,
)
    requires indexed { AreIndexed keys.now (get rows.old) paths.old.items places.old.items }
    requires room { has_path (rows_at (get rows.old) places.old.items) row.path ≡ false → 0 < room_in rows.old paths.old places.old }
    ensures rows { IsInOrder keys.now (with_row (rows_at (get rows.old) places.old.items) row) (rows_at (get rows.new) places.new.items) }
    ensures indexed { AreIndexed keys.now (get rows.new) paths.new.items places.new.items }
    ensures room { room_in rows.old paths.old places.old ≤ room_in rows.new paths.new places.new + 1 }
{
    let by_path = clear_place(keys, rows, paths, places, &row.path);
    put_in(keys, rows, paths, places, row, by_path);
}

// Adds a slot at the place of its row.
fn add(keys: &[SortKey], rows: &Slab<Row>, places: &mut SlotList, slot: usize)
    requires held { AllHeld (get rows.now) places.old.items }
    requires ordered { IsOrdered keys.now (rows_at (get rows.now) places.old.items) }
    requires slot { is_some (get rows.now slot) ≡ true }
    requires absent { has_path (rows_at (get rows.now) places.old.items) (row_or_empty (get rows.now slot)).path ≡ false }
    requires room { length places.old.items < places.old.capacity }
    ensures held { AllHeld (get rows.now) places.new.items }
    ensures ordered { IsOrdered keys.now (rows_at (get rows.now) places.new.items) }
    ensures rows { rows_at (get rows.now) places.new.items ≡ with_placed keys.now (row_or_empty (get rows.now slot)) (rows_at (get rows.now) places.old.items) }
    ensures len { length places.new.items ≡ length places.old.items + 1 }
    ensures capacity { places.new.capacity ≡ places.old.capacity }
{
    let Some(row) = rows.get(slot) else {
        unreachable!()
    };
    let place = place_in(keys, rows, places, row);
    places.insert(place, slot);
}

/// The slots in another order, with room for as many as in `places`.
pub fn sorted(
    keys: &[SortKey],
    rows: &Slab<Row>,
    paths: &SlotList,
    places: &SlotList,
) -> Result<SlotList, AllocError>
    requires held { AllHeld (get rows.now) paths.now.items }
    requires differ { PathsDiffer (rows_at (get rows.now) paths.now.items) }
    requires len { length paths.now.items ≡ length places.now.items }
    ensures held { IfOk result (λ sorted. AllHeld (get rows.now) sorted.items) }
    ensures ordered { IfOk result (λ sorted. IsOrdered keys.now (rows_at (get rows.now) sorted.items)) }
    ensures permutation { IfOk result (λ sorted. IsPermutation (rows_at (get rows.now) paths.now.items) (rows_at (get rows.now) sorted.items)) }
    ensures capacity { IfOk result (λ sorted. places.now.capacity ≤ sorted.capacity) }
{
    let mut sorted = places.like()?;
    for place in 0..paths.len() {
        if let Some(slot) = paths.get(place) {
            add(keys, rows, &mut sorted, slot);
        }
    }
    Ok(sorted)
}
