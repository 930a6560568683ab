// Rows in order, as one value.
ghost use Rattle.std.specs.Prelude.{◌≡◌, ◌+◌, ◌≤◌, ◌<◌, ◌==◌, [], true, false, length, slice_get, OnOk, OnErr, MatchOption};
ghost use Rattle.std.specs.Option.{option_copied};
ghost use Rattle.md_world.specs.Tables.{has_path, with_row, without_path, has_at};
ghost use Rattle.md_world.specs.Orders.{IsInOrder};
ghost use Rattle.md_sort.specs.Kept.{AreKept, HasRoom};

use crate::index;
use md_pages::SlotList;
use md_value::Path;
use md_world::{Order, Row};
use slab::Slab;
use std::alloc::{AllocError, Global};
use std::marker::Model;

/// Rows with distinct paths in an order, each before each later one. Contracts see the order, the list of the rows, and for
/// how many more there is room.
#[derive(Drop)]
pub struct Sorted {
    order: Order,
    rows: Slab<Row>,
    // The slots of the rows, by path and in the order.
    paths: SlotList,
    places: SlotList,
}

impl Model for Sorted {
    ghost use Rattle.slab.specs.Slab.{get};
    ghost use Rattle.md_sort.specs.Kept.{Kept};
    ghost use Rattle.md_sort.specs.Slots.{rows_at, AreIndexed, room_in};

    ghost Value = { Kept };

    ghost view = { λ s. record { order = s.order; rows = rows_at (get s.rows) s.places.items; spare = room_in s.rows s.paths s.places } };

    ghost invariant = { λ s. AreIndexed s.order (get s.rows) s.paths.items s.places.items };
}

impl Sorted {
    /// No rows. Takes no memory.
    pub fn new(alloc: Global, order: Order) -> Sorted
        ensures order { result.order ≡ order }
        ensures rows { result.rows ≡ [] }
    {
        Sorted {
            order,
            rows: Slab::new(alloc),
            paths: SlotList::new(alloc),
            places: SlotList::new(alloc),
        }
    }

    /// Makes room for this many more rows. Fails only where memory runs out; the rows stay.
    pub fn reserve(&mut self, more: usize) -> Result<(), AllocError>
        ensures rows { self.new.rows ≡ self.old.rows }
        ensures order { self.new.order ≡ self.old.order }
        ensures spare { self.old.spare ≤ self.new.spare }
        ensures room { OnOk result (more ≤ self.new.spare) }
    {
        self.rows.reserve(more)?;
        self.paths.reserve(more)?;
        self.places.reserve(more)
    }

    /// Sets the row of its path, for which there has to be room. Takes no memory.
    pub fn insert(&mut self, row: Row)
        requires { HasRoom self.old row.path }
        ensures rows { IsInOrder self.old.order (with_row self.old.rows row) self.new.rows }
        ensures order { self.new.order ≡ self.old.order }
        ensures spare { self.old.spare ≤ self.new.spare + 1 }
    {
        index::set(
            self.order.keys(),
            &mut self.rows,
            &mut self.paths,
            &mut self.places,
            row,
        );
    }

    /// Takes the row of a path out, and answers whether there was one. Takes no memory.
    pub fn remove(&mut self, path: &Path) -> bool
        ensures found { result ≡ has_path self.old.rows path.now }
        ensures rows { self.new.rows ≡ without_path self.old.rows path.now }
        ensures order { self.new.order ≡ self.old.order }
        ensures spare { self.old.spare ≤ self.new.spare }
    {
        index::take_out(
            self.order.keys(),
            &mut self.rows,
            &mut self.paths,
            &mut self.places,
            path,
        )
    }

    /// The row at a place, counted from 0. `None` comes exactly where the place is not below `len`.
    pub fn at(&self, place: usize) -> Option<&Row>
        ensures { option_copied result ≡ slice_get self.now.rows place }
    {
        index::row_at(&self.rows, &self.places, place)
    }

    /// Where the row of a path stands, counted from 0. `None` comes exactly where no row has the path.
    pub fn place_of(&self, path: &Path) -> Option<usize>
        ensures { MatchOption result (has_path self.now.rows path.now ≡ false) (λ place. has_at self.now.rows place path.now ≡ true) }
    {
        index::place_of(
            self.order.keys(),
            &self.rows,
            &self.paths,
            &self.places,
            path,
        )
    }

    /// How many rows there are. They have distinct paths, and each stands before each later one.
    pub fn len(&self) -> usize
        ensures value { result ≡ length self.now.rows }
        ensures kept { AreKept self.now.order self.now.rows }
    {
        self.places.len()
    }

    /// Whether there is no row.
    pub fn is_empty(&self) -> bool
        ensures { result ≡ (length self.now.rows == 0) }
    {
        self.places.len() == 0
    }

    /// The order of the rows.
    pub fn order(&self) -> &Order
        ensures { result.now ≡ self.now.order }
    {
        &self.order
    }

    /// Puts the rows in another order. Fails only where memory runs out, and then changes nothing.
    pub fn set_order(&mut self, order: Order) -> Result<(), AllocError>
        ensures rows { OnOk result (IsInOrder order self.old.rows self.new.rows) }
        ensures order { OnOk result (self.new.order ≡ order) }
        ensures spare { self.old.spare ≤ self.new.spare }
        ensures err { OnErr result (self.new ≡ self.old) }
    {
        self.places = index::sorted(order.keys(), &self.rows, &self.paths, &self.places)?;
        self.order = order;
        Ok(())
    }
}
