// The kept rows of one path, oldest first, each with the versions that see it.
ghost use Rattle.std.specs.Prelude.{◌≡◌, ◌+◌, ◌<◌, ◌≤◌, ◌||◌, length, filter, map, vec_len, vec_capacity, IsSome, OnOk, nat_le};
ghost use Rattle.std.specs.Option.{option_copied};
ghost use Rattle.std.specs.List.{list_any, prefix_len};
ghost use Rattle.md_store.specs.Chains.{sees, seen_in, is_seen, seen_of, end_at, with_row_at, IsOrdered};
ghost use Rattle.md_store.specs.Pins.{Ascend};

use crate::pins::first_from;
use md_world::Row;
use std::alloc::AllocError;

// So many rows of a path are few.
const FEW: usize = 4;

/// A row and the versions that see it: from the one that made it on, up to the one that ended it.
#[derive(Debug, Drop)]
pub struct KeptRow {
    pub row: Row,
    pub from: u32,
    pub until: Option<u32>,
}

fn sees(kept: &KeptRow, version: u32) -> bool
    ensures { result ≡ sees version kept.now }
{
    kept.from <= version
        && match kept.until {
            None => true,
            Some(end) => version < end,
        }
}

// How many rows were made by a version.
fn made_by(chain: &[KeptRow], version: u32) -> usize
    requires { IsOrdered chain.now }
    ensures value { result ≡ prefix_len (λ kept. nat_le kept.from version) chain.now }
    ensures bound { result ≤ length chain.now }
{
    chain.partition_point(|kept| kept.from <= version)
}

/// The row that a version sees: the last that was made by then, unless it has ended.
pub fn seen_in(chain: &[KeptRow], version: u32) -> Option<&Row>
    requires { IsOrdered chain.now }
    ensures { option_copied result ≡ seen_in chain.now version }
{
    let made = made_by(chain, version);
    if made == 0 {
        return None;
    }
    let last = &chain[made - 1];
    if sees(last, version) {
        Some(&last.row)
    } else {
        None
    }
}

fn end_open(chain: &mut Vec<KeptRow>, version: u32)
    requires { IsOrdered chain.old.items }
    ensures items { chain.new.items ≡ map (end_at version) chain.old.items }
    ensures len { vec_len chain.new ≡ vec_len chain.old }
    ensures capacity { vec_capacity chain.new ≡ vec_capacity chain.old }
{
    let len = chain.len();
    if len > 0 {
        let last = &mut chain[len - 1];
        if last.until.is_none() {
            last.until = Some(version);
        }
    }
}

/// Ends the open row, and adds the row, if there is one.
pub fn append(chain: &mut Vec<KeptRow>, version: u32, row: Option<Row>)
    requires room { IsSome row → vec_len chain.old < vec_capacity chain.old }
    requires ordered { IsOrdered chain.old.items }
    ensures items { chain.new.items ≡ with_row_at chain.old.items version row }
{
    end_open(chain, version);
    if let Some(row) = row {
        let kept = KeptRow {
            row,
            from: version,
            until: None,
        };
        let Ok(()) = chain.push(kept) else {
            unreachable!()
        };
    }
}

/// Takes the memory of one more row: of that alone while they are few, since most paths have one or two.
pub fn reserve_row(chain: &mut Vec<KeptRow>) -> Result<(), AllocError>
    ensures items { chain.new.items ≡ chain.old.items }
    ensures len { vec_len chain.new ≡ vec_len chain.old }
    ensures capacity { vec_capacity chain.old ≤ vec_capacity chain.new }
    ensures ok { OnOk result (vec_len chain.new + 1 ≤ vec_capacity chain.new) }
{
    if chain.len() < FEW {
        return chain.reserve_exact(1);
    }
    chain.reserve(1)
}

// Whether a pinned version sees the row. If any does, the first pin from the row's own version on does.
fn is_pinned(kept: &KeptRow, pins: &[u32]) -> bool
    requires { Ascend pins.now }
    ensures { result ≡ list_any (λ version. sees version kept.now) pins.now }
{
    match first_from(pins, kept.from) {
        Some(pin) => sees(kept, pin),
        None => false,
    }
}

fn is_seen(kept: &KeptRow, newest: u32, pins: &[u32]) -> bool
    requires { Ascend pins.now }
    ensures { result ≡ is_seen newest pins.now kept.now }
{
    sees(kept, newest) || is_pinned(kept, pins)
}

/// Gives up the rows that neither the newest version nor a pinned one sees, and answers how many.
pub fn give_up(chain: &mut Vec<KeptRow>, newest: u32, pins: &[u32]) -> usize
    requires { Ascend pins.now }
    ensures items { chain.new.items ≡ seen_of newest pins.now chain.old.items }
    ensures count { result + length chain.new.items ≡ length chain.old.items }
{
    let before = chain.len();
    chain.retain(|kept| is_seen(kept, newest, pins));
    chain.shrink_to_fit();
    before - chain.len()
}
