// Texts by their keys, as the keys of a set.
ghost use Rattle.std.specs.Prelude.{◌≡◌};
ghost use Rattle.std.specs.Cmp.{partial_equiv_from_equiv, partial_order_from_total};
ghost use Rattle.std.specs.Cmp.Rules.{comparing};
ghost use Rattle.std.specs.Ordering.{as_partial_cmp};
ghost use Rattle.std.proofs.Common.{rules};
ghost use Rattle.md_index.specs.Keys.{keyed_cmp, is_one_keyed, keyed_equiv, keyed_total};

use crate::indexed_value::IndexedValue;
use md_text::Key;
use std::cmp::Ordering;

/// A text in the order of its key under some modifiers.
#[derive(Debug, Drop)]
pub struct Keyed {
    pub key: Key,
    pub indexed: IndexedValue,
}

impl PartialEq for Keyed {
    ghost eq = { is_one_keyed };

    ghost laws = { partial_equiv_from_equiv keyed_equiv };

    fn eq(&self, other: &Keyed) -> bool {
        self.cmp(other).is_eq()
    }
}

impl Eq for Keyed {
    ghost laws = { keyed_equiv };
}

impl Ord for Keyed {
    ghost cmp = { keyed_cmp };

    ghost total = { keyed_total };

    ghost matches_partial_cmp = { Prim.search (comparing, rules) };

    ghost matches_eq = { Prim.search (comparing, rules) };

    fn cmp(&self, other: &Keyed) -> Ordering
        ensures { result ≡ keyed_cmp self.now other.now }
    {
        self.key
            .cmp(&other.key)
            .then(self.indexed.cmp(&other.indexed))
    }
}

impl PartialOrd for Keyed {
    ghost partial_cmp = { as_partial_cmp keyed_cmp };

    ghost laws = { partial_order_from_total keyed_total };

    fn partial_cmp(&self, other: &Keyed) -> Option<Ordering> {
        Some(self.cmp(other))
    }
}
