// Pages of slots.
ghost use Rattle.std.specs.Prelude.{◌≡◌, ◌∷◌, ◌++◌, ◌≤◌, ◌<◌, ◌==◌, [], length, insert, slice_get, IfOk, IfNone, OnSome};
ghost use Rattle.std.specs.List.{remove};
ghost use Rattle.std.specs.Option.{option_to_list};

use std::alloc::{AllocError, Global};
use std::collections::VecDeque;
use std::marker::Model;

/// How many slots a page holds.
pub const PAGE: usize = 1_024;

/// Slots in a row. Contracts see them as their list, and how many there is room for.
#[derive(Drop)]
pub struct Page {
    slots: VecDeque<usize>,
}

impl Model for Page {
    ghost use Rattle.std.specs.VecDeque.{deque_capacity};
    ghost use Rattle.md_pages.specs.Pages.{Listed};

    ghost Value = { Listed };

    ghost view = { λ p. record { items = p.slots.items; capacity = deque_capacity p.slots } };
}

impl Page {
    /// A page with no slot.
    pub fn new(alloc: Global) -> Result<Page, AllocError>
        ensures items { IfOk result (λ page. page.items ≡ []) }
        ensures capacity { IfOk result (λ page. 1024 ≤ page.capacity) }
    {
        let slots = VecDeque::with_capacity(alloc, PAGE)?;
        Ok(Page { slots })
    }

    /// How many slots there are.
    pub fn len(&self) -> usize
        ensures { result ≡ length self.now.items }
    {
        self.slots.len()
    }

    /// The slot at a place.
    pub fn get(&self, place: usize) -> Option<usize>
        ensures { result ≡ slice_get self.now.items place }
    {
        self.slots.get(place).copied()
    }

    /// Inserts a slot at a place, for which there has to be room.
    pub fn insert(&mut self, place: usize, slot: usize)
        requires place { place ≤ length self.old.items }
        requires room { length self.old.items < self.old.capacity }
        ensures items { self.new.items ≡ insert self.old.items place slot }
        ensures capacity { self.old.capacity ≤ self.new.capacity }
    {
        let Ok(()) = self.slots.insert(place, slot) else {
            unreachable!()
        };
    }

    /// Takes the slot at a place out.
    pub fn remove(&mut self, place: usize) -> Option<usize>
        ensures slot { result ≡ slice_get self.old.items place }
        ensures items { OnSome result (self.new.items ≡ remove self.old.items place) }
        ensures none { IfNone result (self.new ≡ self.old) }
        ensures capacity { self.new.capacity ≡ self.old.capacity }
    {
        self.slots.remove(place)
    }

    /// Takes the last slot.
    pub fn pop(&mut self) -> Option<usize>
        ensures items { self.old.items ≡ self.new.items ++ option_to_list result }
        ensures none { IfNone result (self.old.items ≡ []) }
        ensures capacity { self.new.capacity ≡ self.old.capacity }
    {
        self.slots.pop_back()
    }

    /// Puts a slot last, for which there has to be room.
    pub fn push(&mut self, slot: usize)
        requires { length self.old.items < self.old.capacity }
        ensures items { self.new.items ≡ self.old.items ++ slot ∷ [] }
        ensures capacity { self.new.capacity ≡ self.old.capacity }
    {
        self.slots.push_back_reserved(slot);
    }
}
