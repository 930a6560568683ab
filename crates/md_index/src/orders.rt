// Orders of keys, by attribute and modifiers.
ghost use Rattle.std.specs.Prelude.{◌≡◌, ℕ, List, true, Bool, OnOk};
ghost use Rattle.md_index.specs.declared.between.Mark.TheVariants.{Text as text_mark};
ghost use Rattle.md_index.specs.declared.wanted.Wanted.{Wanted as OneWanted};
ghost use Rattle.md_index.specs.Between.{mark_of};
ghost use Rattle.md_index.specs.Keys.{Grows, is_keyed, keys_at};
ghost use Rattle.md_index.specs.Indexed.{HasKeys};

use crate::facts::Fact;
use crate::keys::{self, Keys};
use crate::wanted::Wanted;
use md_value::Copied;
use std::alloc::{AllocError, Global};
use std::collections::BTreeMap;

pub type Orders = BTreeMap<Wanted, Keys>;

// Adds the key of a text, where keys are wanted under the modifiers.
fn add_under(
    alloc: Global,
    orders: &mut Orders,
    fact: &Fact,
    fold: bool,
    marks: bool,
) -> Result<(), AllocError>
    ensures grows { Grows orders.old orders.new }
    ensures there { OnOk result ((k : List ℕ) → mark_of fold marks fact.now.indexed ≡ text_mark k → is_keyed (keys_at orders.new (record { name = fact.now.name; fold = fold; marks = marks })) k fact.now.indexed ≡ true) }
{
    let wanted = Wanted {
        name: fact.name.copy(alloc)?,
        fold,
        marks,
    };
    if let Some(keys) = orders.get_mut(&wanted) {
        return keys::insert(alloc, keys, &fact.indexed, fold, marks);
    }
    Ok(())
}

// Adds the keys of a text, with case folded or not.
fn add_folded(alloc: Global, orders: &mut Orders, fact: &Fact, fold: bool) -> Result<(), AllocError>
    ensures grows { Grows orders.old orders.new }
    ensures there { OnOk result ((marks : Bool) (k : List ℕ) → mark_of fold marks fact.now.indexed ≡ text_mark k → is_keyed (keys_at orders.new (record { name = fact.now.name; fold = fold; marks = marks })) k fact.now.indexed ≡ true) }
{
    add_under(alloc, orders, fact, fold, false)?;
    add_under(alloc, orders, fact, fold, true)
}

// Adds the keys of a text that are wanted.
fn add(alloc: Global, orders: &mut Orders, fact: &Fact) -> Result<(), AllocError>
    ensures grows { Grows orders.old orders.new }
    ensures there { OnOk result ((fold : Bool) (marks : Bool) (k : List ℕ) → mark_of fold marks fact.now.indexed ≡ text_mark k → is_keyed (keys_at orders.new (record { name = fact.now.name; fold = fold; marks = marks })) k fact.now.indexed ≡ true) }
{
    add_folded(alloc, orders, fact, false)?;
    add_folded(alloc, orders, fact, true)
}

fn add_each(alloc: Global, orders: &mut Orders, facts: &[Fact]) -> Result<(), AllocError>
    ensures grows { Grows orders.old orders.new }
    ensures there { OnOk result (HasKeys orders.new facts.now) }
{
    for fact in facts {
        add(alloc, orders, fact)?;
    }
    Ok(())
}

/// Adds the keys of texts that are wanted. Costs nothing where none are.
pub fn add_all(alloc: Global, orders: &mut Orders, facts: &[Fact]) -> Result<(), AllocError>
    ensures grows { Grows orders.old orders.new }
    ensures there { OnOk result (HasKeys orders.new facts.now) }
{
    if orders.is_empty() {
        return Ok(());
    }
    add_each(alloc, orders, facts)
}
