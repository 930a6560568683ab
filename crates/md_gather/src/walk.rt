// Walks over candidates.
ghost use Rattle.std.specs.Prelude.{◌≡◌, ◌+◌, ◌≤◌, ◌<◌, drop, length, All, IfOk, true, not};
ghost use Rattle.md_store.specs.Stores.{is_shown};
ghost use Rattle.md_gather.specs.Hits.{hit_in, hits_in, row_in, first_of, past, is_full, is_last};

use md_match::Filter;
use md_store::Store;
use md_world::{Row, Steps};
use std::alloc::{AllocError, Global};
use std::sync::ledger::Ledger;

/// Whether so many hits are as many as are asked for.
pub fn is_full(hits: usize, most: Option<u32>) -> bool
    ensures { result ≡ is_full most hits }
{
    match most {
        Some(most) => most as usize <= hits,
        None => false,
    }
}

// The row of a version at a place as it is shown, if there is one and it passes the filter.
fn hit_at<L: Ledger>(
    alloc: Global,
    filter: &Filter,
    store: &Store,
    version: u32,
    place: u32,
    steps: &mut Steps<L>,
) -> Result<Option<Row>, AllocError>
    requires version { is_shown store.now version ≡ true }
    requires place { place < length store.now.places }
    ensures hit { IfOk result (λ hit. hit ≡ hit_in filter.now (row_in store.now version place)) }
    ensures cost { steps.new ≡ steps.old + 1 }
{
    let Some(row) = store.row_at(version, place, steps) else {
        return Ok(None);
    };
    if !filter.test(alloc, row)? {
        return Ok(None);
    }
    Ok(Some(row.shown(alloc)?))
}

/// The first hits among candidates, at most so many, and how many candidates were walked.
pub fn walk<L: Ledger>(
    alloc: Global,
    left: &[u32],
    version: u32,
    filter: &Filter,
    most: Option<u32>,
    store: &Store,
    steps: &mut Steps<L>,
) -> Result<(Vec<Row>, usize), AllocError>
    requires version { is_shown store.now version ≡ true }
    requires places { All (λ place. place < length store.now.places) left.now }
    ensures hits { IfOk result (λ r. r.0.items ≡ first_of most (hits_in filter.now store.now version left.now)) }
    ensures full { IfOk result (λ r. not (is_full most (length r.0.items)) ≡ is_last most (length (hits_in filter.now store.now version left.now))) }
    ensures left { IfOk result (λ r. hits_in filter.now store.now version (drop r.1 left.now) ≡ past most (hits_in filter.now store.now version left.now)) }
    ensures walked { IfOk result (λ r. r.1 ≤ length left.now) }
    ensures cost { IfOk result (λ r. steps.new ≡ steps.old + r.1) }
    ensures bound { steps.new ≤ steps.old + length left.now }
{
    let mut hits = Vec::new(alloc);
    for walked in 0..left.len() {
        if is_full(hits.len(), most) {
            return Ok((hits, walked));
        }
        if let Some(hit) = hit_at(alloc, filter, store, version, left[walked], steps)? {
            hits.push(hit)?;
        }
    }
    Ok((hits, left.len()))
}
