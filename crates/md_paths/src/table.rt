// The table.
ghost use Rattle.std.specs.Prelude.{◌≡◌, ◌<◌, ◌≤◌, ◌++◌, ◌∷◌, [], None, length, slice_get, OnOk};
ghost use Rattle.std.specs.List.{prefix_len};
ghost use Rattle.std.specs.Option.{option_map};
ghost use Rattle.md_paths.specs.Tables.{number_in, has_at, stands_before, AreSorted};

use crate::hints::Hints;
use md_pages::SlotList;
use md_value::Path;
use std::alloc::{AllocError, Global};
use std::marker::Model;

/// Distinct paths by number. Contracts see the paths, their numbers in path order, and for how many more there is room.
#[derive(Drop)]
pub struct PathTable {
    paths: Vec<Path>,
    // The numbers of the paths, in path order.
    order: SlotList,
    // Numbers that are tried before the search, so that most paths are found in a time that does not grow.
    hints: Hints,
}

impl Model for PathTable {
    ghost use Rattle.std.specs.Prelude.{min, ◌-◌, length, vec_len, vec_capacity};
    ghost use Rattle.md_paths.specs.Tables.{Numbered, AreSorted};

    ghost Value = { Numbered };

    ghost view = { λ t. record { keys = t.paths.items; order = t.order.items; spare = min (vec_capacity t.paths - vec_len t.paths) (t.order.capacity - length t.order.items) } };

    ghost invariant = { λ t. AreSorted t.paths.items t.order.items };
}

// How many paths stand before a path.
fn rank_of(paths: &[Path], order: &SlotList, path: &Path) -> usize
    requires { AreSorted paths.now order.now.items }
    ensures value { result ≡ prefix_len (stands_before paths.now path.now) order.now.items }
    ensures bound { result ≤ length order.now.items }
{
    order.partition_point(
        |number: usize| -> bool
            ensures { result ≡ stands_before paths.entry.now path.entry.now number }
        {
            match paths.get(number) {
                Some(other) => other.is_before(path),
                None => false,
            }
        },
    )
}

/// Whether a number is that of a path.
pub fn has_at(paths: &[Path], number: usize, path: &Path) -> bool
    ensures { result ≡ has_at paths.now number path.now }
{
    match paths.get(number) {
        Some(other) => *other == *path,
        None => false,
    }
}

// The number of a path, by a search in path order.
fn number_by_rank(paths: &[Path], order: &SlotList, path: &Path) -> Option<usize>
    requires { AreSorted paths.now order.now.items }
    ensures { result ≡ number_in paths.now path.now }
{
    let rank = rank_of(paths, order, path);
    let number = order.get(rank)?;
    if has_at(paths, number, path) {
        Some(number)
    } else {
        None
    }
}

impl PathTable {
    /// No paths. Takes no memory.
    pub fn new(alloc: Global) -> PathTable
        ensures keys { result.keys ≡ [] }
        ensures order { result.order ≡ [] }
    {
        PathTable {
            paths: Vec::new(alloc),
            order: SlotList::new(alloc),
            hints: Hints::new(alloc),
        }
    }

    /// How many paths there are. Their numbers are listed in path order.
    pub fn len(&self) -> usize
        ensures len { result ≡ length self.now.keys }
        ensures sorted { AreSorted self.now.keys self.now.order }
    {
        self.paths.len()
    }

    /// The path of a number.
    pub fn get(&self, number: usize) -> Option<&Path>
        ensures { option_map (λ path. path.now) result ≡ slice_get self.now.keys number }
    {
        self.paths.get(number)
    }

    /// The number of a path.
    pub fn number_of(&self, path: &Path) -> Option<usize>
        ensures { result ≡ number_in self.now.keys path.now }
    {
        match self.hints.find(&self.paths, path) {
            Some(number) => Some(number),
            None => number_by_rank(&self.paths, &self.order, path),
        }
    }

    /// The number of the path before which so many stand, by bytes.
    pub fn in_order(&self, rank: usize) -> Option<usize>
        ensures { result ≡ slice_get self.now.order rank }
    {
        self.order.get(rank)
    }

    /// Makes room for one more path. Fails only where memory runs out; the paths stay.
    pub fn reserve(&mut self) -> Result<(), AllocError>
        ensures keys { self.new.keys ≡ self.old.keys }
        ensures order { self.new.order ≡ self.old.order }
        ensures spare { self.old.spare ≤ self.new.spare }
        ensures room { OnOk result (0 < self.new.spare) }
    {
        self.paths.reserve(1)?;
        self.order.reserve(1)?;
        self.hints.reserve(&self.paths)
    }

    /// Adds a path that is not there, for which there has to be room. Takes no memory.
    pub fn push(&mut self, path: Path)
        requires absent { number_in self.old.keys path ≡ None }
        requires room { 0 < self.old.spare }
        ensures keys { self.new.keys ≡ self.old.keys ++ path ∷ [] }
    {
        let rank = rank_of(&self.paths, &self.order, &path);
        self.order.insert(rank, self.paths.len());
        self.hints.note(&path, self.paths.len());
        let Ok(()) = self.paths.push(path) else {
            unreachable!()
        };
    }
}
