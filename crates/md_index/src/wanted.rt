// Attributes with modifiers, as the keys of a map.
ghost use Rattle.std.specs.Prelude.{◌≡◌, IfOk};
ghost use Rattle.std.specs.Cmp.{partial_equiv_from_equiv, partial_order_from_total};
ghost use Rattle.std.specs.Cmp.Rules.{comparing};
ghost use Rattle.std.specs.Ordering.{as_partial_cmp};
ghost use Rattle.std.proofs.Common.{rules};
ghost use Rattle.md_index.specs.Keys.{wanted_cmp, is_one_wanted, wanted_equiv, wanted_total};

use crate::between::Probe;
use crate::named::Named;
use std::alloc::{AllocError, Global};
use std::cmp::Ordering;

/// An attribute and the modifiers under which its texts are wanted in order.
#[derive(Debug, Drop)]
pub struct Wanted {
    pub name: Named,
    pub fold: bool,
    pub marks: bool,
}

impl Wanted {
    /// What the probe asks for.
    pub fn of(alloc: Global, probe: &Probe) -> Result<Wanted, AllocError>
        ensures { IfOk result (λ wanted. wanted ≡ record { name = probe.now.name; fold = probe.now.fold; marks = probe.now.marks }) }
    {
        Ok(Wanted {
            name: Named::of(alloc, &probe.name)?,
            fold: probe.fold,
            marks: probe.marks,
        })
    }
}

impl PartialEq for Wanted {
    ghost eq = { is_one_wanted };

    ghost laws = { partial_equiv_from_equiv wanted_equiv };

    fn eq(&self, other: &Wanted) -> bool {
        self.cmp(other).is_eq()
    }
}

impl Eq for Wanted {
    ghost laws = { wanted_equiv };
}

impl Ord for Wanted {
    ghost cmp = { wanted_cmp };

    ghost total = { wanted_total };

    ghost matches_partial_cmp = { Prim.search (comparing, rules) };

    ghost matches_eq = { Prim.search (comparing, rules) };

    fn cmp(&self, other: &Wanted) -> Ordering
        ensures { result ≡ wanted_cmp self.now other.now }
    {
        let modifiers = self
            .fold
            .cmp(&other.fold)
            .then(self.marks.cmp(&other.marks));
        self.name.cmp(&other.name).then(modifiers)
    }
}

impl PartialOrd for Wanted {
    ghost partial_cmp = { as_partial_cmp wanted_cmp };

    ghost laws = { partial_order_from_total wanted_total };

    fn partial_cmp(&self, other: &Wanted) -> Option<Ordering> {
        Some(self.cmp(other))
    }
}
