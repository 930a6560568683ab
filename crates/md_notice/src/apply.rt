// Rows and paths that are brought into sorted rows.
ghost use Rattle.std.specs.Prelude.{◌≡◌, ◌≤◌, ◌++◌, List, length, IfOk};
ghost use Rattle.md_world.specs.declared.Row.{Row};
ghost use Rattle.md_world.specs.Tables.{IsTable};
ghost use Rattle.md_world.specs.Holding.{with_rows, without_paths};
ghost use Rattle.md_world.specs.Orders.{IsInOrder};

use md_sort::Sorted;
use md_value::{Copied, Path};
use md_world::{Notice, Row};
use std::alloc::{AllocError, Global};

/// Copies of the changed rows, and then of the added ones.
pub fn rows_of(alloc: Global, notice: &Notice) -> Result<Vec<Row>, AllocError>
    ensures { IfOk result (λ rows. rows.items ≡ notice.now.changed ++ notice.now.added) }
{
    let mut rows = notice.changed.copy(alloc)?.into_vec();
    for row in notice.added.as_slice() {
        rows.push(row.copy(alloc)?)?;
    }
    Ok(rows)
}

/// Sets the rows, one after the other. Takes no memory.
pub fn set_all(sorted: &mut Sorted, rows: Vec<Row>)
    requires { length rows.items ≤ sorted.old.spare }
    ensures order { sorted.new.order ≡ sorted.old.order }
    ensures rows { (table : List Row) → IsTable table → IsInOrder sorted.old.order table sorted.old.rows → IsInOrder sorted.old.order (with_rows table rows.items) sorted.new.rows }
{
    for row in rows {
        sorted.insert(row);
    }
}

/// Takes the rows of the paths out. Takes no memory.
pub fn take_all_out(sorted: &mut Sorted, paths: &[Path])
    ensures order { sorted.new.order ≡ sorted.old.order }
    ensures spare { sorted.old.spare ≤ sorted.new.spare }
    ensures rows { sorted.new.rows ≡ without_paths sorted.old.rows paths.now }
{
    for path in paths {
        sorted.remove(path);
    }
}
