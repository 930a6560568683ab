// Values, compared.
ghost use Rattle.std.specs.Prelude.{◌≡◌};
ghost use Rattle.std.specs.Ordering.{nat_cmp};
ghost use Rattle.std.specs.Cmp.Lexicographic.{slice_cmp};
ghost use Rattle.md_world.specs.Orders.{rank, value_cmp};

use md_value::{Text, Value};
use std::cmp::Ordering;

// By code points.
fn text_cmp(a: &Text, b: &Text) -> Ordering
    ensures { result ≡ slice_cmp nat_cmp a.now b.now }
{
    a.as_str().chars().cmp(b.as_str().chars())
}

fn rank(value: &Value) -> u8
    ensures { result ≡ rank value.now }
{
    match value {
        Value::Text(_) => 0,
        Value::Number(_) => 1,
        Value::Flag(_) => 2,
        Value::Moment(_) => 3,
    }
}

/// The order of two values: by kind, which are in the order of the variants, and then by content, texts by code points.
pub fn value_cmp(a: &Value, b: &Value) -> Ordering
    ensures { result ≡ value_cmp a.now b.now }
{
    match (a, b) {
        (Value::Text(a), Value::Text(b)) => text_cmp(a, b),
        (Value::Number(a), Value::Number(b)) => a.cmp(b),
        (Value::Flag(a), Value::Flag(b)) => a.cmp(b),
        (Value::Moment(a), Value::Moment(b)) => a.cmp(b),
        _ => rank(a).cmp(&rank(b)),
    }
}
