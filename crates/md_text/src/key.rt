// The key by which a text compares.
ghost use Rattle.std.specs.Prelude.{◌≡◌, chars, nat_eq, IfOk};
ghost use Rattle.std.specs.Cmp.{partial_equiv_from_equiv, partial_order_from_own_ties};
ghost use Rattle.std.specs.Cmp.Lexicographic.{slice_cmp, pointwise, nat_list_eq_equiv};
ghost use Rattle.std.specs.Cmp.Rules.{comparing};
ghost use Rattle.std.specs.Ordering.{nat_cmp, as_partial_cmp};
ghost use Rattle.std.proofs.Common.{rules};
ghost use Rattle.md_text.specs.Key.{key};

use crate::characters::key_characters;
use md_value::Copied;
use std::alloc::{AllocError, Global};
use std::cmp::Ordering;
use std::marker::Model;

/// The key by which a text compares. Contracts see it as the list of its characters.
///
/// It is the canonical decomposition (NFD) of the text. Where case is folded it is the NFD of the
/// full case folding of that NFD, as in definition D145 of the Unicode Standard. Where marks are
/// left out, the characters of category Nonspacing_Mark are then dropped.
#[derive(Debug, Drop)]
pub struct Key {
    characters: Vec<char>,
}

impl Model for Key {
    ghost use Rattle.std.specs.Prelude.{List, ℕ};

    ghost Value = { List ℕ };

    ghost view = { λ k. k.characters.items };
}

impl Key {
    /// The key of a text, with case folded under `fold` and marks left out under `marks`.
    pub fn of(alloc: Global, text: &str, fold: bool, marks: bool) -> Result<Key, AllocError>
        ensures { IfOk result (λ made. made ≡ key fold marks (chars text.now)) }
    {
        let characters = key_characters(alloc, text, fold, marks)?;
        Ok(Key { characters })
    }

    /// The characters. Takes no memory.
    pub fn as_slice(&self) -> &[char]
        ensures { result.now ≡ self.now }
    {
        self.characters.as_slice()
    }
}

impl PartialEq for Key {
    ghost eq = { pointwise nat_eq };

    ghost laws = { partial_equiv_from_equiv nat_list_eq_equiv };

    fn eq(&self, other: &Key) -> bool {
        self.as_slice() == other.as_slice()
    }
}

impl Eq for Key {
    ghost laws = { nat_list_eq_equiv };
}

impl Ord for Key {
    ghost cmp = { slice_cmp nat_cmp };

    ghost total = { Prim.search (comparing, rules) };

    ghost matches_partial_cmp = { Prim.search (comparing, rules) };

    ghost matches_eq = { Prim.search (comparing, rules) };

    /// The order of lists of code points. Takes no memory.
    fn cmp(&self, other: &Key) -> Ordering
        ensures { result ≡ slice_cmp nat_cmp self.now other.now }
    {
        self.as_slice().cmp(other.as_slice())
    }
}

impl PartialOrd for Key {
    ghost partial_cmp = { as_partial_cmp (slice_cmp nat_cmp) };

    ghost laws = { partial_order_from_own_ties (Prim.search (comparing, rules))
        (Prim.search (comparing, rules)) };

    fn partial_cmp(&self, other: &Key) -> Option<Ordering> {
        Some(self.cmp(other))
    }
}

impl Copied for Key {
    fn copy(&self, alloc: Global) -> Result<Key, AllocError> {
        let characters = Vec::from_slice(alloc, self.as_slice())?;
        Ok(Key { characters })
    }
}
