// The places that a plan finds in an index.
ghost use Rattle.std.specs.Prelude.{◌≡◌, ◌<◌, ◌^◌, ℕ, List, length, map, Option, IfOk};
ghost use Rattle.std.specs.Option.{option_map};
ghost use Rattle.md_world.specs.declared.Row.{Row as AnyRow};
ghost use Rattle.md_match.specs.Candidates.{everything, smallest, union};
ghost use Rattle.md_index.specs.Indexed.{Holds};
ghost use Rattle.md_plan.specs.Plans.{probe_set, plan_set};
ghost use Rattle.md_plan.specs.FoundPlaces.{places_of, size_of, AreAll, IsFound};

use crate::places::{at_most, fewer, join, joined};
use crate::plan::Plan;
use md_index::{Index, Probe};
use md_value::TEXT_CONTENT;
use std::alloc::{AllocError, Global};

fn probe_within(
    alloc: Global,
    probe: &Probe,
    index: &Index,
    most: usize,
) -> Result<Option<Vec<u32>>, AllocError>
    ensures { IfOk result (λ found. (rows : ℕ → Option AnyRow) (all : List ℕ) → Holds index.now rows → AreAll rows all → IsFound most (places_of rows all (probe_set probe.now)) (option_map (λ v. v.items) found)) }
{
    if probe.name.is(TEXT_CONTENT) {
        return Ok(Some(Vec::new(alloc)));
    }
    let found = index.range_within(probe, most)?;
    Ok(at_most(found, most))
}

fn all_within(index: &Index, most: usize) -> Result<Option<Vec<u32>>, AllocError>
    ensures { IfOk result (λ found. (rows : ℕ → Option AnyRow) (all : List ℕ) → Holds index.now rows → AreAll rows all → IsFound most (places_of rows all everything) (option_map (λ v. v.items) found)) }
{
    let found = index.rows_within(most)?;
    Ok(at_most(found, most))
}

#[cycle(found)]
fn least_within(
    alloc: Global,
    list: &[Plan],
    index: &Index,
    most: usize,
) -> Result<Option<Vec<u32>>, AllocError>
    ensures { IfOk result (λ found. (rows : ℕ → Option AnyRow) (all : List ℕ) → Holds index.now rows → AreAll rows all → IsFound most (places_of rows all (smallest (size_of rows all) (map (plan_set (size_of rows all)) list.now))) (option_map (λ v. v.items) found)) }
{
    let [first, others @ ..] = list else {
        return all_within(index, most);
    };
    let mut best = first.within(alloc, index, most)?;
    for plan in others {
        let found = plan.within(alloc, index, most)?;
        best = fewer(best, found);
    }
    Ok(best)
}

#[cycle(found)]
fn union_within(
    alloc: Global,
    list: &[Plan],
    index: &Index,
    most: usize,
) -> Result<Option<Vec<u32>>, AllocError>
    ensures { IfOk result (λ found. (rows : ℕ → Option AnyRow) (all : List ℕ) → Holds index.now rows → AreAll rows all → IsFound most (places_of rows all (union (map (plan_set (size_of rows all)) list.now))) (option_map (λ v. v.items) found)) }
{
    let mut out = Vec::new(alloc);
    for plan in list {
        let found = plan.within(alloc, index, most)?;
        let Some(places) = found else {
            return Ok(None);
        };
        join(&mut out, &places)?;
    }
    Ok(joined(out, most))
}

impl Plan {
    /// The places in order of the rows that the plan has, or None where there are more than so many. The index has these
    /// rows.
    #[cycle(found)]
    pub fn within(
        &self,
        alloc: Global,
        index: &Index,
        most: usize,
    ) -> Result<Option<Vec<u32>>, AllocError>
        ensures { IfOk result (λ found. (rows : ℕ → Option AnyRow) (all : List ℕ) → Holds index.now rows → AreAll rows all → IsFound most (places_of rows all (plan_set (size_of rows all) self.now)) (option_map (λ v. v.items) found)) }
    {
        match self {
            Plan::All => all_within(index, most),
            Plan::Probe(probe) => probe_within(alloc, probe, index, most),
            Plan::Least(list) => least_within(alloc, list.as_slice(), index, most),
            Plan::Union(list) => union_within(alloc, list.as_slice(), index, most),
        }
    }

    /// The places in order of the rows that the plan has. Of parts of which the smallest set is taken, none is looked at
    /// much farther than the smallest goes.
    pub fn find(&self, alloc: Global, index: &Index) -> Result<Vec<u32>, AllocError>
        ensures { IfOk result (λ found. (rows : ℕ → Option AnyRow) (all : List ℕ) → Holds index.now rows → AreAll rows all → length all < 2 ^ 64 → found.items ≡ places_of rows all (plan_set (size_of rows all) self.now)) }
    {
        let mut most = 64;
        for _ in 0..16 {
            let found = self.within(alloc, index, most)?;
            if let Some(few) = found {
                return Ok(few);
            }
            most = most.saturating_mul(4);
        }
        let last = self.within(alloc, index, usize::MAX)?;
        match last {
            Some(all) => Ok(all),
            None => Ok(Vec::new(alloc)),
        }
    }
}
