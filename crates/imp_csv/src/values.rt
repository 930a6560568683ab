// The values that fields give an attribute.
ghost use Rattle.std.specs.Prelude.{◌≡◌, ◌==◌, ◌++◌, ◌∷◌, [], OnOk, slice_index, map};
ghost use Rattle.imp_rules.specs.Faults.{FillsAs, all_given};
ghost use Rattle.imp_csv.specs.Numbers.{whole_number};
ghost use Rattle.imp_csv.specs.Tables.{value_of, values_of};

use crate::fields::Fields;
use imp_rules::{date_value, text_value};
use md_value::{Copied, Fault, FillFault, Kind, Memory, Name, PlainVec, Rule, Value};
use std::alloc::Global;

fn begins_with_plus(text: &[u8]) -> bool
    ensures { result ≡ (slice_index text.now 0 == 43) }
{
    matches!(text, [b'+', ..])
}

// The number that an optional `-` and digits write, where it has 64 bits with sign.
fn whole_number(text: &str) -> Option<i64>
    ensures { result ≡ whole_number text.now }
{
    if begins_with_plus(text.as_bytes()) {
        return None;
    }
    text.parse().ok()
}

fn value_of(
    alloc: Global,
    name: &Name,
    kind: Kind,
    offset: i32,
    field: &str,
) -> Result<Value, FillFault>
    ensures { FillsAs result (value_of offset name.now kind field.now) }
{
    match kind {
        Kind::Text => Ok(text_value(alloc, field)?),
        Kind::Number => match whole_number(field) {
            Some(number) => Ok(Value::Number(number)),
            None => Err(FillFault::Fault(Fault::BadNumber(name.copy(alloc)?))),
        },
        Kind::Moment => date_value(alloc, name, field, offset),
        Kind::Flag => Err(FillFault::Fault(Fault::BadKind(name.copy(alloc)?))),
    }
}

fn push_value(values: &mut Vec<Value>, value: Value) -> Result<(), Memory>
    ensures { OnOk result (values.new.items ≡ values.old.items ++ value ∷ []) }
{
    values.push(value)?;
    Ok(())
}

fn all_values(
    alloc: Global,
    name: &Name,
    kind: Kind,
    offset: i32,
    fields: &Fields,
) -> Result<PlainVec<Value>, FillFault>
    ensures { FillsAs result (all_given (map (value_of offset name.now kind) fields.now)) }
{
    let mut values = Vec::with_capacity(alloc, fields.len())?;
    for place in 0..fields.len() {
        let value = value_of(alloc, name, kind, offset, fields.at(place))?;
        push_value(&mut values, value)?;
    }
    Ok(PlainVec::from_vec(values))
}

/// The values that the fields give the attribute of this name, or the first fault.
pub(crate) fn values_of(
    alloc: Global,
    name: &Name,
    rule: Rule,
    offset: i32,
    fields: &Fields,
) -> Result<PlainVec<Value>, FillFault>
    ensures value { FillsAs result (values_of offset name.now rule fields.now) }
{
    if !rule.many && fields.len() > 1 {
        return Err(FillFault::Fault(Fault::NotSingle(name.copy(alloc)?)));
    }
    all_values(alloc, name, rule.kind, offset, fields)
}
