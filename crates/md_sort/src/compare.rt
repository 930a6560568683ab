// Values and rows, compared as sort keys ask.
ghost use Rattle.std.specs.Prelude.{◌≡◌};
ghost use Rattle.std.specs.Option.{option_map};
ghost use Rattle.md_world.specs.Orders.{first_value, first_cmp, key_cmp, row_cmp, row_before};

use md_value::{Name, Value};
use md_world::{Row, SortKey, value_cmp};
use std::cmp::Ordering;

fn first_value<'a>(row: &'a Row, name: &Name) -> Option<&'a Value>
    ensures { option_map (λ value. value.now) result ≡ first_value row.now name.now }
{
    match row.attrs.get(name)? {
        [first, ..] => Some(first),
        [] => None,
    }
}

fn first_cmp(descending: bool, a: Option<&Value>, b: Option<&Value>) -> Ordering
    ensures { result ≡ first_cmp descending (option_map (λ value. value.now) a.entry) (option_map (λ value. value.now) b.entry) }
{
    match (a, b) {
        (Some(a), Some(b)) if descending => value_cmp(b, a),
        (Some(a), Some(b)) => value_cmp(a, b),
        (Some(_), None) => Ordering::Less,
        (None, Some(_)) => Ordering::Greater,
        (None, None) => Ordering::Equal,
    }
}

fn key_cmp(key: &SortKey, a: &Row, b: &Row) -> Ordering
    ensures { result ≡ key_cmp key.now a.now b.now }
{
    first_cmp(
        key.descending,
        first_value(a, &key.name),
        first_value(b, &key.name),
    )
}

/// Two rows by the keys in turn, and those that tie by their paths.
pub fn row_cmp(keys: &[SortKey], a: &Row, b: &Row) -> Ordering
    ensures { result ≡ row_cmp keys.now a.now b.now }
{
    for key in keys {
        match key_cmp(key, a, b) {
            Ordering::Equal => {}
            order => return order,
        }
    }
    a.path.as_str().cmp(b.path.as_str())
}

/// Whether one row stands before another.
#[tactic(auto, unfolding(md_world::specs::Orders::row_before))]
pub fn row_before(keys: &[SortKey], a: &Row, b: &Row) -> bool
    ensures { result ≡ row_before keys.now a.now b.now }
{
    row_cmp(keys, a, b).is_lt()
}
