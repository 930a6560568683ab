//! What holds of rows in order.

ghost use Rattle.std.specs.Prelude.{◌≡◌, List};
ghost use Rattle.md_world.specs.declared.Row.{Row};
ghost use Rattle.md_world.specs.declared.order.SortKey.{SortKey};
ghost use Rattle.md_world.specs.Orders.{IsInOrder, in_order};
ghost use Rattle.md_sort.specs.Kept.{PathsDiffer};

/// Rows with distinct paths stand in order in one list and in no other.
pub fn one_order()
    // This list has them in order.
    ensures there { (order : List SortKey) (rows : List Row) → PathsDiffer rows → IsInOrder order rows (in_order order rows) }
    // No two lists do.
    ensures alone { (order : List SortKey) (rows some other : List Row) → IsInOrder order rows some → IsInOrder order rows other → some ≡ other }
{}
