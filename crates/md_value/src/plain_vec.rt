// A list that contracts see as its items.
ghost use Rattle.std.specs.Prelude.{◌≡◌, ◌==◌, [], ◌∷◌, ◌++◌, ◌<◌, length, slice_get, IfOk, OnOk, OnErr, OnSome};
ghost use Rattle.std.specs.Option.{option_copied};
ghost use Rattle.std.specs.Cmp.Lexicographic.{pointwise, lists_per, lists_equiv};

use std::alloc::{AllocError, Global};
use std::marker::Model;

/// A value that can be copied, unless memory runs out.
pub trait Copied {
    fn copy(&self, alloc: Global) -> Result<Self, AllocError>
        ensures { IfOk result (λ copied. copied ≡ self.now) };
}

/// A `Vec` that contracts see as the list of its items.
#[derive(Debug, Drop)]
pub struct PlainVec<T> {
    items: Vec<T>,
}

impl<T> Model for PlainVec<T> {
    ghost use Rattle.std.specs.Prelude.{List};
    ghost use Rattle.std.specs.Coded.{coded_list};

    ghost Value = { List T };

    ghost coded = { coded_list T.code };

    ghost view = { λ it. it.items.items };
}

impl<T> PlainVec<T> {
    pub fn new(alloc: Global) -> PlainVec<T>
        ensures { result ≡ [] }
    {
        PlainVec {
            items: Vec::new(alloc),
        }
    }

    /// Takes no memory.
    pub fn from_vec(items: Vec<T>) -> PlainVec<T>
        ensures { result ≡ items.items }
    {
        PlainVec { items }
    }

    /// Takes no memory.
    pub fn into_vec(self) -> Vec<T>
        ensures { result.items ≡ self }
    {
        let PlainVec { items } = self;
        items
    }

    pub fn as_slice(&self) -> &[T]
        ensures { result.now ≡ self.now }
    {
        self.items.as_slice()
    }

    pub fn len(&self) -> usize
        ensures { result ≡ length self.now }
    {
        self.items.len()
    }

    pub fn is_empty(&self) -> bool
        ensures { result ≡ (length self.now == 0) }
    {
        self.items.is_empty()
    }

    pub fn get(&self, at: usize) -> Option<&T>
        ensures value { option_copied result ≡ slice_get self.now at }
        ensures within { OnSome result (at < length self.now) }
    {
        self.items.get(at)
    }
}

impl<T: Drop> PlainVec<T> {
    pub fn push(&mut self, item: T) -> Result<(), AllocError>
        ensures ok { OnOk result (self.new ≡ self.old ++ item ∷ []) }
        ensures err { OnErr result (self.new ≡ self.old) }
    {
        self.items.push(item)?;
        Ok(())
    }
}

impl<T: Copied + Drop> Copied for PlainVec<T> {
    fn copy(&self, alloc: Global) -> Result<PlainVec<T>, AllocError> {
        let mut items = Vec::with_capacity(alloc, self.items.len())?;
        for item in &self.items {
            items.push(item.copy(alloc)?)?;
        }
        Ok(PlainVec { items })
    }
}

impl<T: PartialEq> PartialEq for PlainVec<T> {
    ghost eq = { pointwise T.eq };

    ghost laws = { lists_per T.laws };

    fn eq(&self, other: &PlainVec<T>) -> bool {
        self.items.as_slice() == other.items.as_slice()
    }
}

impl<T: Eq> Eq for PlainVec<T> {
    ghost laws = { lists_equiv T.Eq.laws };
}
