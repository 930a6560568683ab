// Fields in a row.
ghost use Rattle.std.specs.Prelude.{◌≡◌, ◌<◌, ◌^◌, [], ◌∷◌, ◌++◌, OnOk, Some, get_or, length, option_map};
ghost use Rattle.csv.specs.Records.{field_at, prev};

use md_value::Memory;
use std::alloc::Global;
use std::marker::Model;

/// Fields one after another, in one text. Contracts see them as the list of their bytes.
#[derive(Drop)]
pub(crate) struct Fields {
    text: String,
    // Where in the text each field ends.
    ends: Vec<usize>,
}

impl Model for Fields {
    ghost use Rattle.std.specs.Prelude.{List, ℕ, string_bytes};
    ghost use Rattle.csv.specs.Records.{cut_from};
    ghost use Rattle.imp_csv.specs.Records.{AreEnds};

    ghost Value = { List (List ℕ) };

    ghost view = { λ f. cut_from 0 f.ends.items (string_bytes f.text) };

    ghost invariant = { λ f. AreEnds 0 f.ends.items (string_bytes f.text) };
}

// Where the field at a place begins: where the one before it ends.
fn start_of(ends: &[usize], place: usize) -> usize
    requires { place < length ends.now }
    ensures { result ≡ prev 0 ends.now place }
{
    if place == 0 { 0 } else { ends[place - 1] }
}

// Where the field at a place begins and ends.
fn bounds(ends: &[usize], place: usize) -> (usize, usize)
    requires { place < length ends.now }
    ensures start { result.0 ≡ prev 0 ends.now place }
    ensures end { result.1 ≡ get_or ends.now place 0 }
{
    let start = start_of(ends, place);
    (start, ends[place])
}

impl Fields {
    pub(crate) fn new(alloc: Global) -> Fields
        ensures { result ≡ [] }
    {
        Fields {
            text: String::new(alloc),
            ends: Vec::new(alloc),
        }
    }

    pub(crate) fn push(&mut self, field: &str) -> Result<(), Memory>
        ensures { OnOk result (self.new ≡ self.old ++ field.now ∷ []) }
    {
        self.ends.reserve(1)?;
        self.text.push_str(field)?;
        self.ends.push_reserved(self.text.len());
        Ok(())
    }

    pub(crate) fn len(&self) -> usize
        ensures { result ≡ length self.now }
    {
        self.ends.len()
    }

    /// There are fewer fields than 2 ^ 63, since the ends of more would find room in no memory.
    pub(crate) fn count_is_small(&self)
        ensures { length self.now < 2 ^ 63 }
    {
        let _ends = &self.ends;
    }

    /// The field at a place, counted from 0.
    pub(crate) fn at(&self, place: usize) -> &str
        requires { place < length self.now }
        ensures { field_at self.now place ≡ Some result.now }
    {
        let (start, end) = bounds(self.ends.as_slice(), place);
        &self.text.as_str()[start..end]
    }

    /// The field at a place, counted from 0, where there is one.
    pub(crate) fn get(&self, place: usize) -> Option<&str>
        ensures { option_map (λ field. field.now) result ≡ field_at self.now place }
    {
        if place < self.len() {
            Some(self.at(place))
        } else {
            None
        }
    }
}
