// The keys that a plan looks up.
ghost use Rattle.std.specs.Prelude.{ℕ, Option};
ghost use Rattle.md_world.specs.declared.Row.{Row as AnyRow};
ghost use Rattle.md_index.specs.Indexed.{Holds};

use crate::plan::Plan;
use md_index::Index;
use std::alloc::AllocError;

#[cycle(wanted)]
fn want_each(list: &[Plan], index: &mut Index) -> Result<(), AllocError>
    ensures { (rows : ℕ → Option AnyRow) → Holds index.old rows → Holds index.new rows }
{
    for plan in list {
        plan.want(index)?;
    }
    Ok(())
}

impl Plan {
    /// Has the index make the keys that the plan looks up, so that finding its rows makes none. The index has the rows that
    /// it had.
    #[cycle(wanted)]
    pub fn want(&self, index: &mut Index) -> Result<(), AllocError>
        ensures { (rows : ℕ → Option AnyRow) → Holds index.old rows → Holds index.new rows }
    {
        match self {
            Plan::All => Ok(()),
            Plan::Probe(probe) => index.want(probe),
            Plan::Least(list) => want_each(list.as_slice(), index),
            Plan::Union(list) => want_each(list.as_slice(), index),
        }
    }
}
