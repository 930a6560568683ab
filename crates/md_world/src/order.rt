// Sort keys and orders.
ghost use Rattle.std.specs.Prelude.{◌≡◌, ◌↔◌, IfOk, IsErr, IsOk, [], true};
ghost use Rattle.std.specs.List.{list_any};
ghost use Rattle.md_value.specs.Values.{is_same};
ghost use Rattle.md_value.specs.Attrs.{text_content};
ghost use Rattle.md_world.specs.Orders.{names_content};

use md_value::{Copied, Name, PlainVec, TEXT_CONTENT};
use std::alloc::{AllocError, Global};
use std::marker::Model;

/// An attribute by whose first value rows are sorted.
#[derive(Debug, Drop)]
pub struct SortKey {
    pub name: Name,
    /// Whether the greatest value comes first. A row without the attribute comes last in both directions.
    pub descending: bool,
}

/// The order of rows by sort keys in turn, and by the path where they tie. Contracts see it as the list of its keys, none of
/// which names the text content.
#[derive(Debug, Drop)]
pub struct Order {
    keys: PlainVec<SortKey>,
}

impl Model for Order {
    ghost use Rattle.std.specs.Prelude.{List, ◌≡◌, false};
    ghost use Rattle.md_world.specs.declared.order.SortKey.{SortKey};
    ghost use Rattle.md_world.specs.Orders.{names_content};

    ghost Value = { List SortKey };

    ghost view = { λ o. o.keys };

    ghost invariant = { λ o. names_content o.keys ≡ false };
}

/// A sort key names the attribute that is searched and not shown.
#[derive(Clone, Copy, Debug, PartialEq, Eq)]
pub struct NotShown;

fn names_content(keys: &[SortKey]) -> bool
    ensures { result ≡ names_content keys.now }
{
    keys.iter().any(|key| key.name.is(TEXT_CONTENT))
}

impl Order {
    /// The order by the path alone. Takes no memory.
    pub fn by_path(alloc: Global) -> Order
        ensures { result ≡ [] }
    {
        Order {
            keys: PlainVec::new(alloc),
        }
    }

    /// The order by these keys. `NotShown` comes exactly where one names `kMDItemTextContent`. Takes no memory.
    pub fn of(keys: Vec<SortKey>) -> Result<Order, NotShown>
        ensures ok { IfOk result (λ order. order ≡ keys.items) }
        ensures not_shown { IsErr result ↔ (names_content keys.items ≡ true) }
    {
        if names_content(&keys) {
            return Err(NotShown);
        }
        Ok(Order {
            keys: PlainVec::from_vec(keys),
        })
    }

    /// The sort keys, the first one deciding first.
    pub fn keys(&self) -> &[SortKey]
        ensures { result.now ≡ self.now }
    {
        self.keys.as_slice()
    }
}

impl Copied for SortKey {
    fn copy(&self, alloc: Global) -> Result<SortKey, AllocError> {
        Ok(SortKey {
            name: self.name.copy(alloc)?,
            descending: self.descending,
        })
    }
}

impl Copied for Order {
    fn copy(&self, alloc: Global) -> Result<Order, AllocError> {
        Ok(Order {
            keys: self.keys.copy(alloc)?,
        })
    }
}
