// What a client holds, in order.
ghost use Rattle.std.specs.Prelude.{◌≡◌, ◌==◌, false, true, length, slice_get, OnOk, OnErr, MatchOption};
ghost use Rattle.std.specs.Option.{option_copied, option_map};
ghost use Rattle.md_world.specs.Tables.{has_path, has_at};
ghost use Rattle.md_sort.specs.Kept.{AreKept};
ghost use Rattle.md_notice.specs.Following.{follower_of, with_part, with_notice, values_at};

use crate::apply;
use md_sort::Sorted;
use md_value::{Copied, Name, Path, Value};
use md_world::{Notice, Order, Part, Row};
use std::alloc::{AllocError, Global};
use std::marker::Model;

/// The rows that a client of a query holds, in an order. Contracts see the order, the list of the rows and the version.
///
/// The rows have distinct paths, and each stands before each later one.
#[derive(Drop)]
pub struct Follower {
    alloc: Global,
    sorted: Sorted,
    version: u32,
}

impl Model for Follower {
    ghost use Rattle.md_sort.specs.Kept.{AreKept};
    ghost use Rattle.md_notice.specs.Following.{Followed};

    ghost Value = { Followed };

    ghost view = { λ f. record { order = f.sorted.order; rows = f.sorted.rows; version = f.version } };

    ghost invariant = { λ f. AreKept f.sorted.order f.sorted.rows };
}

impl Follower {
    /// Holds nothing yet, and is of the version on which the query was created. Takes no memory.
    pub fn new(alloc: Global, order: Order, version: u32) -> Follower
        ensures { result ≡ follower_of order version }
    {
        Follower {
            alloc,
            sorted: Sorted::new(alloc, order),
            version,
        }
    }

    /// Sets the rows of the hits, each in place of an older row of its path. Fails only where memory runs out, and then
    /// changes nothing.
    pub fn take_part(&mut self, part: &Part) -> Result<(), AllocError>
        ensures ok { OnOk result (self.new ≡ with_part self.old part.now) }
        ensures err { OnErr result (self.new ≡ self.old) }
    {
        let rows = part.hits.copy(self.alloc)?.into_vec();
        self.sorted.reserve(rows.len())?;
        apply::set_all(&mut self.sorted, rows);
        Ok(())
    }

    /// Takes out the removed paths, sets the changed rows and then the added rows, each in place of an older row of its
    /// path, and is of the notice's version then. The notice has to go from the version that the rows are of. Fails only
    /// where memory runs out, and then changes nothing.
    pub fn take_notice(&mut self, notice: &Notice) -> Result<(), AllocError>
        requires { notice.now.from ≡ self.old.version }
        ensures ok { OnOk result (self.new ≡ with_notice self.old notice.now) }
        ensures err { OnErr result (self.new ≡ self.old) }
    {
        let rows = apply::rows_of(self.alloc, notice)?;
        self.sorted.reserve(rows.len())?;
        apply::take_all_out(&mut self.sorted, notice.removed.as_slice());
        apply::set_all(&mut self.sorted, rows);
        self.version = notice.to;
        Ok(())
    }

    /// How many rows there are. They have distinct paths, and each stands before each later one.
    pub fn len(&self) -> usize
        ensures value { result ≡ length self.now.rows }
        ensures kept { AreKept self.now.order self.now.rows }
    {
        self.sorted.len()
    }

    /// Whether there is no row.
    pub fn is_empty(&self) -> bool
        ensures { result ≡ (length self.now.rows == 0) }
    {
        self.sorted.is_empty()
    }

    /// The row at a place, counted from 0. `None` comes exactly where the place is not below `len`.
    pub fn at(&self, place: usize) -> Option<&Row>
        ensures { option_copied result ≡ slice_get self.now.rows place }
    {
        self.sorted.at(place)
    }

    /// Where the row of a path stands, counted from 0. `None` comes exactly where no row has the path.
    pub fn place_of(&self, path: &Path) -> Option<usize>
        ensures { MatchOption result (has_path self.now.rows path.now ≡ false) (λ place. has_at self.now.rows place path.now ≡ true) }
    {
        self.sorted.place_of(path)
    }

    /// The values of an attribute of the row at a place, counted from 0. `None` comes where there is no such place, and
    /// where the row lacks the attribute.
    pub fn value_at(&self, place: usize, name: &Name) -> Option<&[Value]>
        ensures { option_map (λ values. values.now) result ≡ values_at self.now.rows place name.now }
    {
        let row = self.sorted.at(place)?;
        row.attrs.get(name)
    }

    /// The version that the rows are of.
    pub fn version(&self) -> u32
        ensures { result ≡ self.now.version }
    {
        self.version
    }
}
