// Values as the keys of a map.
ghost use Rattle.std.specs.Prelude.{◌≡◌, IfOk};
ghost use Rattle.std.specs.Cmp.{partial_equiv_from_equiv, partial_order_from_total};
ghost use Rattle.std.specs.Cmp.Rules.{comparing};
ghost use Rattle.std.specs.Cmp.Lexicographic.{slice_cmp};
ghost use Rattle.std.specs.Ordering.{as_partial_cmp, nat_cmp, is_eq};
ghost use Rattle.std.proofs.Common.{rules};
ghost use Rattle.md_world.specs.Orders.{value_cmp};
ghost use Rattle.md_index.specs.Order.{is_value, value_equiv, value_total};

use md_value::{Copied, Value};
use md_world::value_cmp;
use std::alloc::{AllocError, Global};
use std::cmp::Ordering;
use std::marker::Model;

/// A value in the order of values. Contracts see it as the value.
#[derive(Debug, Drop)]
pub struct IndexedValue {
    value: Value,
}

impl Model for IndexedValue {
    ghost use Rattle.md_index.specs.Order.{OneValue};

    ghost Value = { OneValue };

    ghost view = { λ h. h.value };
}

/// Whether both are one value.
pub fn is_value(a: &Value, b: &Value) -> bool
    ensures { result ≡ is_eq (value_cmp a.now b.now) }
{
    value_cmp(a, b).is_eq()
}

impl IndexedValue {
    /// A copy of the value.
    pub fn of(alloc: Global, value: &Value) -> Result<IndexedValue, AllocError>
        ensures { IfOk result (λ indexed. indexed ≡ value.now) }
    {
        Ok(IndexedValue {
            value: value.copy(alloc)?,
        })
    }

    pub fn value(&self) -> &Value
        ensures { result.now ≡ self.now }
    {
        &self.value
    }
}

impl Copied for IndexedValue {
    fn copy(&self, alloc: Global) -> Result<IndexedValue, AllocError> {
        IndexedValue::of(alloc, &self.value)
    }
}

impl PartialEq for IndexedValue {
    ghost eq = { is_value };

    ghost laws = { partial_equiv_from_equiv value_equiv };

    fn eq(&self, other: &IndexedValue) -> bool {
        self.cmp(other).is_eq()
    }
}

impl Eq for IndexedValue {
    ghost laws = { value_equiv };
}

impl Ord for IndexedValue {
    ghost cmp = { value_cmp };

    ghost total = { value_total };

    ghost matches_partial_cmp = { Prim.search (comparing, rules) };

    ghost matches_eq = { Prim.search (comparing, rules) };

    fn cmp(&self, other: &IndexedValue) -> Ordering
        ensures { result ≡ value_cmp self.now other.now }
    {
        value_cmp(&self.value, &other.value)
    }
}

impl PartialOrd for IndexedValue {
    ghost partial_cmp = { as_partial_cmp value_cmp };

    ghost laws = { partial_order_from_total value_total };

    fn partial_cmp(&self, other: &IndexedValue) -> Option<Ordering> {
        Some(self.cmp(other))
    }
}
