// The index: for each attribute and value the places that have it.
ghost use Rattle.std.specs.Prelude.{◌≡◌, ◌==◌, ◌<◌, ℕ, List, [], length, Option, None, ◌&&◌, true, false, IfOk, OnOk, is_some};
ghost use Rattle.std.specs.Option.{option_map};
ghost use Rattle.md_world.specs.declared.Row.{Row};
ghost use Rattle.md_value.specs.Attrs.{text_content};
ghost use Rattle.md_value.specs.Values.{is_same};
ghost use Rattle.md_index.specs.Order.{OneValue};
ghost use Rattle.md_index.specs.States.{is_on, written, place_state, state};
ghost use Rattle.md_index.specs.Facts.{has_fact};
ghost use Rattle.md_index.specs.Keys.{Grows};
ghost use Rattle.std.specs.List.Sorted.{IsStrictlyIncreasing};
ghost use Rattle.md_index.specs.Indexed.{Holds, IsReady, CanApply, HasRoom, HasKeys, IsWanted, lists, row_between, row_set, Adds};

use crate::between::Probe;
use crate::facts::{Fact, facts_left};
use crate::keys;
use crate::names::{self, Names};
use crate::orders::{self, Orders};
use crate::places::{self, Places};
use crate::range::{PlacesFound, all_between, places_between, rows_among};
use crate::stretch::is_of_texts;
use crate::wanted::Wanted;
use md_world::Row;
use std::alloc::{AllocError, Global};
use std::collections::BTreeMap;
use std::marker::Model;

/// For each attribute and value the places whose newest row has it. Contracts ask by `Holds` which rows it has.
#[derive(Drop)]
pub struct Index {
    names: Names,
    // The places that have a row.
    rows: Places,
    // Texts by their keys, where a probe asked for them.
    orders: Orders,
    alloc: Global,
}

/// What the index needs for one more change, so that it cannot fail.
#[derive(Drop)]
pub struct IndexReady {
    place: u32,
    // What the place loses.
    drops: Vec<Fact>,
    // What the place gains.
    adds: Vec<Fact>,
    // Whether the place has a row then.
    is_row: bool,
}

impl Model for IndexReady {
    ghost use Rattle.md_index.specs.Indexed.{Prepared};

    ghost Value = { Prepared };

    ghost view = { λ r. record { place = r.place; drops = r.drops.items; adds = r.adds.items; is_row = r.is_row } };
}

// Makes room for a place at each of these.
fn promise_all(
    alloc: Global,
    names: &mut Names,
    facts: &[Fact],
    place: u32,
) -> Result<(), AllocError>
    ensures same { (n : List ℕ) (v : OneValue) (p : ℕ) → is_on (state names.new n v p) ≡ is_on (state names.old n v p) }
    ensures there { OnOk result (HasRoom names.new facts.now place) }
{
    for fact in facts {
        names::promise(alloc, names, fact, place)?;
    }
    Ok(())
}

// Sets whether a place is counted at each of these that has room for it.
fn write_all(names: &mut Names, facts: &[Fact], place: u32, flag: bool)
    ensures { (n : List ℕ) (v : OneValue) (p : ℕ) → state names.new n v p ≡ written (has_fact facts.now n v && (place == p)) flag (state names.old n v p) }
{
    for fact in facts {
        names::write(names, fact, place, flag);
    }
}

// Gives up the room of a place at each of these where it is not counted.
fn sweep_all(names: &mut Names, facts: &[Fact], place: u32)
    ensures { (n : List ℕ) (v : OneValue) (p : ℕ) → is_on (state names.new n v p) ≡ is_on (state names.old n v p) }
{
    for fact in facts {
        names::sweep(names, fact, place);
    }
}

impl Index {
    /// The index of no row. Takes no memory.
    pub fn new(alloc: Global) -> Index
        ensures { Holds result (λ _. None) }
    {
        Index {
            names: BTreeMap::new(alloc),
            rows: places::none(alloc),
            orders: BTreeMap::new(alloc),
            alloc,
        }
    }

    // Makes room for a place at each of these, and among the places that have a row, and makes the keys that are wanted.
    fn make_room(&mut self, adds: &[Fact], place: u32) -> Result<(), AllocError>
        ensures values { (n : List ℕ) (v : OneValue) (p : ℕ) → is_on (state self.new.names n v p) ≡ is_on (state self.old.names n v p) }
        ensures places { (p : ℕ) → is_on (place_state self.new.rows p) ≡ is_on (place_state self.old.rows p) }
        ensures room { OnOk result (HasRoom self.new.names adds.now place) }
        ensures row { OnOk result (is_some (place_state self.new.rows place) ≡ true) }
        ensures grows { Grows self.old.orders self.new.orders }
        ensures keys { OnOk result (HasKeys self.new.orders adds.now) }
    {
        orders::add_all(self.alloc, &mut self.orders, adds)?;
        promise_all(self.alloc, &mut self.names, adds, place)?;
        places::promise(self.alloc, &mut self.rows, place)
    }

    // Gives up the room of a place at each of these where it is not counted.
    fn sweep(&mut self, facts: &[Fact], place: u32)
        ensures values { (n : List ℕ) (v : OneValue) (p : ℕ) → is_on (state self.new.names n v p) ≡ is_on (state self.old.names n v p) }
        ensures places { (p : ℕ) → is_on (place_state self.new.rows p) ≡ is_on (place_state self.old.rows p) }
        ensures orders { self.new.orders ≡ self.old.orders }
    {
        sweep_all(&mut self.names, facts, place);
        places::sweep(&mut self.rows, place);
    }

    /// Takes all memory for a change of the row of a place from the old row, which the index has, to the new one. The index has
    /// the rows that it had.
    pub fn ready(
        &mut self,
        place: u32,
        old: Option<&Row>,
        new: Option<&Row>,
    ) -> Result<IndexReady, AllocError>
        ensures rows { (rows : ℕ → Option Row) → Holds self.old rows → Holds self.new rows }
        ensures place { IfOk result (λ ready. ready.place ≡ place) }
        ensures change { IfOk result (λ ready. IsReady ready (option_map (λ row. row.now) old.entry) (option_map (λ row. row.now) new.entry)) }
        ensures room { IfOk result (λ ready. CanApply self.new ready) }
    {
        let adds = facts_left(self.alloc, new, old)?;
        let drops = facts_left(self.alloc, old, new)?;
        let is_row = new.is_some();
        if let Err(error) = self.make_room(&adds, place) {
            self.sweep(&adds, place);
            return Err(error);
        }
        Ok(IndexReady {
            place,
            drops,
            adds,
            is_row,
        })
    }

    /// Makes the change that was made ready, on the index as it was then. Takes no memory.
    pub fn apply(&mut self, ready: IndexReady)
        requires { CanApply self.old ready }
        ensures { (rows : ℕ → Option Row) (new : Option Row) → Holds self.old rows → IsReady ready (rows ready.place) new → Holds self.new (row_set rows ready.place new) }
    {
        let IndexReady {
            place,
            drops,
            adds,
            is_row,
        } = ready;
        write_all(&mut self.names, &drops, place, false);
        write_all(&mut self.names, &adds, place, true);
        places::write(&mut self.rows, place, is_row);
        self.sweep(&drops, place);
    }

    /// Gives up what was made ready for a change that is not to be made. Takes no memory.
    pub fn give_up(&mut self, ready: IndexReady)
        ensures { (rows : ℕ → Option Row) → Holds self.old rows → Holds self.new rows }
    {
        self.sweep(&ready.adds, ready.place);
    }

    /// Makes the keys of the texts of the probe's attribute under its modifiers, if only texts are between its edges and the
    /// keys are not there yet. From then on a range of these keys is found without making one, and `ready` makes those of
    /// new texts. The index has the rows that it had.
    pub fn want(&mut self, probe: &Probe) -> Result<(), AllocError>
        ensures rows { (rows : ℕ → Option Row) → Holds self.old rows → Holds self.new rows }
        ensures wanted { OnOk result (IsWanted self.new probe.now) }
    {
        if !is_of_texts(probe) {
            return Ok(());
        }
        let wanted = Wanted::of(self.alloc, probe)?;
        if self.orders.contains_key(&wanted) {
            return Ok(());
        }
        let values = self.names.get(&wanted.name);
        let keys = keys::of_values(self.alloc, values, wanted.fold, wanted.marks)?;
        self.orders.insert(wanted, keys)?;
        Ok(())
    }

    /// The places whose newest row has some value between the edges, in order, each once. The probe does not name the
    /// text content.
    pub fn range(&self, probe: &Probe) -> Result<Vec<u32>, AllocError>
        requires { is_same probe.now.name text_content ≡ false }
        ensures places { IfOk result (λ places. (rows : ℕ → Option Row) → Holds self.now rows → (p : ℕ) → lists places.items p ≡ row_between probe.now (rows p)) }
        ensures upward { IfOk result (λ places. IsStrictlyIncreasing places.items) }
    {
        let wanted = Wanted::of(self.alloc, probe)?;
        match self.names.get(&wanted.name) {
            Some(values) => all_between(self.alloc, values, self.orders.get(&wanted), probe),
            None => Ok(Vec::new(self.alloc)),
        }
    }

    /// The same places, or, where there are more than `most`, more than `most` of them. Finding out that there are more
    /// costs no more than finding so many.
    pub fn range_within(&self, probe: &Probe, most: usize) -> Result<PlacesFound, AllocError>
        requires { is_same probe.now.name text_content ≡ false }
        ensures places { IfOk result (λ found. (rows : ℕ → Option Row) → Holds self.now rows → Adds [] found.places.items found.whole (λ p. row_between probe.now (rows p))) }
        ensures over { IfOk result (λ found. found.whole ≡ false → most < length found.places.items) }
        ensures upward { IfOk result (λ found. IsStrictlyIncreasing found.places.items) }
    {
        let wanted = Wanted::of(self.alloc, probe)?;
        match self.names.get(&wanted.name) {
            Some(values) => places_between(
                self.alloc,
                values,
                self.orders.get(&wanted),
                probe,
                most,
            ),
            None => Ok(PlacesFound {
                places: Vec::new(self.alloc),
                whole: true,
            }),
        }
    }

    /// The places that have a row, or, where there are more than `most`, more than `most` of them.
    pub fn rows_within(&self, most: usize) -> Result<PlacesFound, AllocError>
        ensures places { IfOk result (λ found. (rows : ℕ → Option Row) → Holds self.now rows → Adds [] found.places.items found.whole (λ p. is_some (rows p))) }
        ensures over { IfOk result (λ found. found.whole ≡ false → most < length found.places.items) }
        ensures upward { IfOk result (λ found. IsStrictlyIncreasing found.places.items) }
    {
        rows_among(self.alloc, &self.rows, most)
    }
}
