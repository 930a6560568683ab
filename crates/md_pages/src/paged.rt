// Lists of slots in pages, where an insert moves the slots of one page, and one slot of each page after it.
ghost use Rattle.std.specs.Prelude.{◌≡◌, ◌+◌, ◌*◌, ◌^◌, ◌≤◌, ◌<◌, ℕ, Bool, [], length, insert, slice_get, IfOk, OnOk, vec_len};
ghost use Rattle.std.specs.List.{prefix_len, remove};
ghost use Rattle.std.specs.List.Sorted.{IsPartitionedBy};
ghost use Rattle.md_pages.specs.Pages.{slots_in, ArePages};

use crate::page::{PAGE, Page};
use std::alloc::{AllocError, Global};
use std::marker::Model;

// The most slots that there may be room for.
const MOST_SLOTS: usize = 1 << 62;

/// Slots in a row. Contracts see them as their list, and how many there is room for.
#[derive(Drop)]
pub struct SlotList {
    pages: Vec<Page>,
    len: usize,
}

impl Model for SlotList {
    ghost use Rattle.std.specs.Prelude.{◌≡◌, ◌*◌, ◌^◌, ◌≤◌, length, vec_len};
    ghost use Rattle.md_pages.specs.Pages.{Listed, slots_in, ArePages};

    ghost Value = { Listed };

    ghost view = { λ s. record { items = slots_in s.pages.items; capacity = vec_len s.pages * 1024 } };

    ghost invariant = { λ s. ArePages s.pages.items × (s.len ≡ length (slots_in s.pages.items)) × (vec_len s.pages ≤ 2 ^ 52) };
}

// Adds pages until there are this many.
fn add_pages(pages: &mut Vec<Page>, count: usize) -> Result<(), AllocError>
    requires pages { ArePages pages.old.items }
    requires most { vec_len pages.old ≤ 2 ^ 52 }
    requires count { count ≤ 2 ^ 52 }
    ensures pages { ArePages pages.new.items }
    ensures slots { slots_in pages.new.items ≡ slots_in pages.old.items }
    ensures more { vec_len pages.old ≤ vec_len pages.new }
    ensures most { vec_len pages.new ≤ 2 ^ 52 }
    ensures count { OnOk result (count ≤ vec_len pages.new) }
{
    let alloc = *pages.allocator();
    for _ in pages.len()..count {
        let page = Page::new(alloc)?;
        pages.push(page)?;
    }
    Ok(())
}

// Inserts a slot at a place. The last slot of a full page goes to the beginning of the next page.
fn insert_in(pages: &mut [Page], place: usize, slot: usize)
    requires pages { ArePages pages.old }
    requires place { place ≤ length (slots_in pages.old) }
    requires room { length (slots_in pages.old) < length pages.old * 1024 }
    ensures pages { ArePages pages.new }
    ensures slots { slots_in pages.new ≡ insert (slots_in pages.old) place slot }
    ensures count { length pages.new ≡ length pages.old }
{
    let Some((page, rest)) = pages.split_first_mut() else {
        return;
    };
    if page.len() < PAGE {
        return page.insert(place, slot);
    }
    if PAGE <= place {
        return insert_in(rest, place - PAGE, slot);
    }
    let Some(last) = page.pop() else { return };
    page.insert(place, slot);
    insert_in(rest, 0, last)
}

// Takes the slot at a place out. The first slot of the next page goes to the end of a full page.
fn remove_in(pages: &mut [Page], place: usize) -> Option<usize>
    requires { ArePages pages.old }
    ensures pages { ArePages pages.new }
    ensures slot { result ≡ slice_get (slots_in pages.old) place }
    ensures slots { slots_in pages.new ≡ remove (slots_in pages.old) place }
    ensures count { length pages.new ≡ length pages.old }
{
    let (page, rest) = pages.split_first_mut()?;
    if PAGE <= place {
        return remove_in(rest, place - PAGE);
    }
    let slot = page.remove(place)?;
    if let Some(next) = remove_in(rest, 0) {
        page.push(next);
    }
    Some(slot)
}

fn take_out(pages: &mut Vec<Page>, place: usize) -> Option<usize>
    requires { ArePages pages.old.items }
    ensures pages { ArePages pages.new.items }
    ensures slot { result ≡ slice_get (slots_in pages.old.items) place }
    ensures slots { slots_in pages.new.items ≡ remove (slots_in pages.old.items) place }
    ensures count { vec_len pages.new ≡ vec_len pages.old }
{
    remove_in(pages, place)
}

impl SlotList {
    /// No slots. Takes no memory.
    pub fn new(alloc: Global) -> SlotList
        ensures { result.items ≡ [] }
    {
        SlotList {
            pages: Vec::new(alloc),
            len: 0,
        }
    }

    /// An empty list with room for as many slots.
    pub fn like(&self) -> Result<SlotList, AllocError>
        ensures items { IfOk result (λ list. list.items ≡ []) }
        ensures capacity { IfOk result (λ list. self.now.capacity ≤ list.capacity) }
        ensures room { IfOk result (λ list. length self.now.items ≤ list.capacity) }
    {
        let mut list = SlotList::new(*self.pages.allocator());
        list.reserve(self.capacity())?;
        Ok(list)
    }

    /// How many slots there are.
    pub fn len(&self) -> usize
        ensures { result ≡ length self.now.items }
    {
        self.len
    }

    /// For how many slots there is room in all.
    pub fn capacity(&self) -> usize
        ensures value { result ≡ self.now.capacity }
        ensures most { length self.now.items ≤ result }
    {
        self.pages.len() * PAGE
    }

    /// The slot at a place.
    pub fn get(&self, place: usize) -> Option<usize>
        ensures { result ≡ slice_get self.now.items place }
    {
        match self.pages.get(place / PAGE) {
            Some(page) => page.get(place % PAGE),
            None => None,
        }
    }

    /// Makes room for this many more.
    pub fn reserve(&mut self, more: usize) -> Result<(), AllocError>
        ensures items { self.new.items ≡ self.old.items }
        ensures capacity { self.old.capacity ≤ self.new.capacity }
        ensures room { OnOk result (length self.new.items + more ≤ self.new.capacity) }
    {
        match self.len.checked_add(more) {
            Some(slots) if slots <= MOST_SLOTS => add_pages(&mut self.pages, slots.div_ceil(PAGE)),
            _ => Err(AllocError),
        }
    }

    /// Inserts a slot at a place, for which there has to be room. Takes no memory.
    pub fn insert(&mut self, place: usize, slot: usize)
        requires place { place ≤ length self.old.items }
        requires room { length self.old.items < self.old.capacity }
        ensures items { self.new.items ≡ insert self.old.items place slot }
        ensures capacity { self.new.capacity ≡ self.old.capacity }
    {
        insert_in(&mut self.pages, place, slot);
        self.len += 1;
    }

    /// Takes the slot at a place out. Takes no memory.
    #[tactic(auto, using(crate::proofs::Pages::fewer))]
    pub fn remove(&mut self, place: usize) -> Option<usize>
        ensures slot { result ≡ slice_get self.old.items place }
        ensures items { self.new.items ≡ remove self.old.items place }
        ensures capacity { self.new.capacity ≡ self.old.capacity }
        ensures fewer { length self.new.items ≤ length self.old.items }
        ensures room { place < length self.old.items → length self.new.items < self.new.capacity }
    {
        let slot = take_out(&mut self.pages, place)?;
        self.len -= 1;
        Some(slot)
    }

    /// How many slots at the beginning pass, where no slot that passes stands after one that does not.
    pub fn partition_point<P: Fn(usize) -> bool>(&self, passes: P) -> usize
        requires { P.IsAlwaysCallable passes }
        ensures bound { result ≤ length self.now.items }
        ensures value { (test : ℕ → Bool) → ((slot : ℕ) (passed : Bool) → slot < 2 ^ 64 → P.post passes slot passed → passed ≡ test slot) → IsPartitionedBy test self.now.items → result ≡ prefix_len test self.now.items }
    {
        let mut low = 0;
        let mut high = self.len;
        while low < high {
            let middle = low + (high - low) / 2;
            match self.get(middle) {
                Some(slot) if passes(slot) => low = middle + 1,
                _ => high = middle,
            }
        }
        low
    }
}
