// The texts of an attribute in the order of their keys under some modifiers.
ghost use Rattle.std.specs.Prelude.{◌≡◌, ◌||◌, ℕ, List, true, IfOk, OnOk};
ghost use Rattle.std.specs.Option.{option_map};
ghost use Rattle.std.specs.BTreeMap.{IsOrdered};
ghost use Rattle.md_world.specs.Orders.{value_cmp};
ghost use Rattle.md_index.specs.declared.between.Mark.TheVariants.{Text as text_mark};
ghost use Rattle.md_index.specs.Order.{OneValue};
ghost use Rattle.md_index.specs.Between.{mark_of};
ghost use Rattle.md_index.specs.States.{is_on, named_state, value_state};
ghost use Rattle.md_index.specs.Keys.{AreKeys, has_key};

use crate::indexed_value::IndexedValue;
use crate::keyed::Keyed;
use crate::values::Values;
use md_text::Key;
use md_value::{Copied, Value};
use std::alloc::{AllocError, Global};
use std::collections::BTreeSet;

pub type Keys = BTreeSet<Keyed>;

/// Adds a value under its key, if it is a text.
pub fn insert(
    alloc: Global,
    keys: &mut Keys,
    indexed: &IndexedValue,
    fold: bool,
    marks: bool,
) -> Result<(), AllocError>
    ensures right { AreKeys fold marks keys.old → AreKeys fold marks keys.new }
    ensures kept { (k : List ℕ) (v : OneValue) → has_key keys.old k v ≡ true → has_key keys.new k v ≡ true }
    ensures there { OnOk result ((k : List ℕ) → mark_of fold marks indexed.now ≡ text_mark k → has_key keys.new k indexed.now ≡ true) }
{
    let Value::Text(text) = indexed.value() else {
        return Ok(());
    };
    let key = Key::of(alloc, text.as_str(), fold, marks)?;
    let indexed = indexed.copy(alloc)?;
    keys.insert(Keyed { key, indexed })?;
    Ok(())
}

// The keys of the texts among some values.
fn of_each(alloc: Global, values: &Values, fold: bool, marks: bool) -> Result<Keys, AllocError>
    ensures right { IfOk result (λ keys. AreKeys fold marks keys) }
    ensures whole { IfOk result (λ keys. (k : List ℕ) (v : OneValue) (p : ℕ) → mark_of fold marks v ≡ text_mark k → is_on (value_state values.now v p) ≡ true → has_key keys k v ≡ true) }
{
    let mut keys = BTreeSet::new(alloc);
    for (indexed, _) in values {
        insert(alloc, &mut keys, indexed, fold, marks)?;
    }
    Ok(keys)
}

/// The keys of the texts among the values of an attribute.
pub fn of_values(
    alloc: Global,
    values: Option<&Values>,
    fold: bool,
    marks: bool,
) -> Result<Keys, AllocError>
    ensures right { IfOk result (λ keys. AreKeys fold marks keys) }
    ensures whole { IfOk result (λ keys. (k : List ℕ) (v : OneValue) (p : ℕ) → mark_of fold marks v ≡ text_mark k → is_on (named_state (option_map (λ m. m.now) values.entry) v p) ≡ true → has_key keys k v ≡ true) }
{
    match values {
        Some(values) => of_each(alloc, values, fold, marks),
        None => Ok(BTreeSet::new(alloc)),
    }
}
