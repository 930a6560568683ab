// Rows and tables: a query's hits on a table, and how two lists of hits differ.
ghost use Rattle.std.specs.Prelude.{◌≡◌, ◌+◌, ◌≤◌, ◌<◌, ◌^◌, not, IfOk, map, filter, take, drop, length};
ghost use Rattle.std.specs.Option.{option_map};
ghost use Rattle.md_world.specs.Tables.{at, has_path, shown};
ghost use Rattle.md_world.specs.Differences.{difference, items_of, was_other};
ghost use Rattle.md_match.specs.Conditions.{passes};
ghost use Rattle.md_machine.specs.Answers.{notice_of};
ghost use Rattle.md_query.specs.Rows.{rows_of};

use md_match::Filter;
use md_value::{Copied, Path, PlainVec};
use md_world::{Notice, Part, Row};
use std::alloc::{AllocError, Global};

/// The rows of a table that pass the filter, in the table's order. No other function tests a row.
pub fn passing<'a>(
    alloc: Global,
    condition: &Filter,
    table: &[&'a Row],
) -> Result<Vec<&'a Row>, AllocError>
    ensures { IfOk result (λ hits. rows_of hits.items ≡ filter (passes condition.now) (rows_of table.now)) }
{
    let mut hits = Vec::new(alloc);
    for row in table {
        if condition.test(alloc, row)? {
            hits.push(*row)?;
        }
    }
    Ok(hits)
}

fn hit_at<'a>(hits: &[&'a Row], path: &Path) -> Option<&'a Row>
    ensures { option_map (λ hit. hit.now) result ≡ at (rows_of hits.now) path.now }
{
    for hit in hits {
        if hit.path == *path {
            return Some(*hit);
        }
    }
    None
}

fn is_new(old: &[&Row], row: &Row) -> bool
    ensures { result ≡ not (has_path (rows_of old.now) row.now.path) }
{
    hit_at(old, &row.path).is_none()
}

fn is_changed(old: &[&Row], row: &Row) -> bool
    ensures { result ≡ was_other (at (rows_of old.now) row.now.path) row.now }
{
    match hit_at(old, &row.path) {
        None => false,
        Some(was) => !was.same(row),
    }
}

fn added(alloc: Global, old: &[&Row], new: &[&Row]) -> Result<Vec<Row>, AllocError>
    ensures { IfOk result (λ rows. rows.items ≡ map shown (filter (λ row. not (has_path (rows_of old.now) row.path)) (rows_of new.now))) }
{
    let mut rows = Vec::new(alloc);
    for hit in new {
        if is_new(old, hit) {
            rows.push(hit.shown(alloc)?)?;
        }
    }
    Ok(rows)
}

fn changed(alloc: Global, old: &[&Row], new: &[&Row]) -> Result<Vec<Row>, AllocError>
    ensures { IfOk result (λ rows. rows.items ≡ map shown (filter (λ row. was_other (at (rows_of old.now) row.path) row) (rows_of new.now))) }
{
    let mut rows = Vec::new(alloc);
    for hit in new {
        if is_changed(old, hit) {
            rows.push(hit.shown(alloc)?)?;
        }
    }
    Ok(rows)
}

fn removed(alloc: Global, old: &[&Row], new: &[&Row]) -> Result<Vec<Path>, AllocError>
    ensures { IfOk result (λ paths. paths.items ≡ map (λ row. row.path) (filter (λ row. not (has_path (rows_of new.now) row.path)) (rows_of old.now))) }
{
    let mut paths = Vec::new(alloc);
    for hit in old {
        if is_new(new, hit) {
            paths.push(hit.path.copy(alloc)?)?;
        }
    }
    Ok(paths)
}

/// The notice of what differs between two lists of hits.
pub fn notice(
    alloc: Global,
    old: &[&Row],
    new: &[&Row],
    from: u32,
    to: u32,
) -> Result<Notice, AllocError>
    ensures { IfOk result (λ notice. notice ≡ notice_of (difference (rows_of old.now) (rows_of new.now)) from to) }
{
    Ok(Notice {
        from,
        to,
        added: PlainVec::from_vec(added(alloc, old, new)?),
        changed: PlainVec::from_vec(changed(alloc, old, new)?),
        removed: PlainVec::from_vec(removed(alloc, old, new)?),
    })
}

fn count_new(old: &[&Row], new: &[&Row]) -> usize
    ensures value { result ≡ length (filter (λ row. not (has_path (rows_of old.now) row.path)) (rows_of new.now)) }
    ensures bound { result ≤ length new.now }
{
    let mut count = 0;
    for hit in new {
        if is_new(old, hit) {
            count += 1;
        }
    }
    count
}

fn count_changed(old: &[&Row], new: &[&Row]) -> usize
    ensures value { result ≡ length (filter (λ row. was_other (at (rows_of old.now) row.path) row) (rows_of new.now)) }
    ensures bound { result ≤ length new.now }
{
    let mut count = 0;
    for hit in new {
        if is_changed(old, hit) {
            count += 1;
        }
    }
    count
}

/// How many items that notice has. Takes no memory.
pub fn count_items(old: &[&Row], new: &[&Row]) -> usize
    ensures { result ≡ items_of (difference (rows_of old.now) (rows_of new.now)) }
{
    count_new(old, new) + count_changed(old, new) + count_new(new, old)
}

/// The first `given` hits, or all where there are fewer.
#[tactic(auto, using(crate::proofs::Hits::hits_first))]
pub fn hits_before<'h, 'a>(hits: &'h [&'a Row], given: usize) -> &'h [&'a Row]
    ensures { rows_of result.now ≡ take given (rows_of hits.now) }
{
    hits.split_at(given.min(hits.len())).0
}

/// The hits after the first `given`.
#[tactic(auto, using(crate::proofs::Hits::hits_left))]
pub fn hits_after<'h, 'a>(hits: &'h [&'a Row], given: usize) -> &'h [&'a Row]
    ensures rows { rows_of result.now ≡ drop given (rows_of hits.now) }
    ensures room { 0 < length result.now → given + length result.now < 2 ^ 64 }
{
    hits.split_at(given.min(hits.len())).1
}

/// The hits as they are shown.
pub fn shown(alloc: Global, hits: &[&Row]) -> Result<Vec<Row>, AllocError>
    ensures { IfOk result (λ rows. rows.items ≡ map shown (rows_of hits.now)) }
{
    let mut rows = Vec::new(alloc);
    for hit in hits {
        rows.push(hit.shown(alloc)?)?;
    }
    Ok(rows)
}

/// A part of these hits.
pub fn part(alloc: Global, hits: &[&Row], last: bool) -> Result<Part, AllocError>
    ensures { IfOk result (λ part. part ≡ record { hits = map shown (rows_of hits.now); last = last }) }
{
    Ok(Part {
        hits: PlainVec::from_vec(shown(alloc, hits)?),
        last,
    })
}

/// A copy of the rows.
pub fn copy_rows(alloc: Global, table: &[&Row]) -> Result<Vec<Row>, AllocError>
    ensures { IfOk result (λ rows. rows.items ≡ rows_of table.now) }
{
    let mut rows = Vec::new(alloc);
    for row in table {
        rows.push(row.copy(alloc)?)?;
    }
    Ok(rows)
}
