// The rows of a version, read from the store.
ghost use Rattle.std.specs.Prelude.{◌≡◌, ◌+◌, ◌≤◌, true, length, IfOk, OnOk};
ghost use Rattle.md_store.specs.Places.{table_at};
ghost use Rattle.md_store.specs.Stores.{is_shown};
ghost use Rattle.md_query.specs.Rows.{rows_of};

use md_store::Store;
use md_world::{Row, Steps};
use std::alloc::{AllocError, Global};
use std::sync::ledger::Ledger;

/// The rows of a version's table, in path order, each of which is read once. Fails only where memory runs out.
pub fn read<'a, L: Ledger>(
    alloc: Global,
    store: &'a Store,
    version: u32,
    steps: &mut Steps<L>,
) -> Result<Vec<&'a Row>, AllocError>
    requires { is_shown store.now version ≡ true }
    ensures rows { IfOk result (λ rows. rows_of rows.items ≡ table_at store.now.places version) }
    ensures cost { OnOk result (steps.new ≡ steps.old + length (table_at store.now.places version)) }
    ensures reads { steps.new ≤ steps.old + length (table_at store.now.places version) }
{
    let places = store.places_at(version)?;
    let mut rows = Vec::with_capacity(alloc, places.len())?;
    for place in &places {
        let Some(row) = store.row_at(version, *place, steps) else {
            unreachable!()
        };
        rows.push(row)?;
    }
    Ok(rows)
}
