// The values that a JSON value gives an attribute.
ghost use Rattle.std.specs.Prelude.{◌≡◌, ◌∷◌, [], map, filter};
ghost use Rattle.serde_json.specs.View.{view, items_view};
ghost use Rattle.imp_rules.specs.Faults.{FillsAs, made_of, all_given};
ghost use Rattle.imp_json.specs.Objects.{text_of, number_of, moment_of, value_of, values_of, is_given};

use imp_rules::{date_value, text_value};
use md_value::{Copied, Fault, FillFault, Kind, Name, PlainVec, Rule, Value};
use serde_json::Value as Json;
use std::alloc::Global;

fn text_of(alloc: Global, name: &Name, json: &Json) -> Result<Value, FillFault>
    ensures { FillsAs result (text_of name.now (view json.now)) }
{
    match json.as_str() {
        Some(text) => Ok(text_value(alloc, text)?),
        None => Err(FillFault::Fault(Fault::BadKind(name.copy(alloc)?))),
    }
}

fn number_of(alloc: Global, name: &Name, json: &Json) -> Result<Value, FillFault>
    ensures { FillsAs result (number_of name.now (view json.now)) }
{
    let Some(number) = json.as_number() else {
        return Err(FillFault::Fault(Fault::BadKind(name.copy(alloc)?)));
    };
    match number.as_i64() {
        Some(number) => Ok(Value::Number(number)),
        None => Err(FillFault::Fault(Fault::BadNumber(name.copy(alloc)?))),
    }
}

fn moment_of(alloc: Global, name: &Name, offset: i32, json: &Json) -> Result<Value, FillFault>
    ensures { FillsAs result (moment_of offset name.now (view json.now)) }
{
    match json.as_str() {
        Some(text) => date_value(alloc, name, text, offset),
        None => Err(FillFault::Fault(Fault::BadKind(name.copy(alloc)?))),
    }
}

fn value_of(
    alloc: Global,
    name: &Name,
    kind: Kind,
    offset: i32,
    json: &Json,
) -> Result<Value, FillFault>
    ensures { FillsAs result (value_of offset name.now kind (view json.now)) }
{
    match kind {
        Kind::Text => text_of(alloc, name, json),
        Kind::Number => number_of(alloc, name, json),
        Kind::Moment => moment_of(alloc, name, offset, json),
        Kind::Flag => Err(FillFault::Fault(Fault::BadKind(name.copy(alloc)?))),
    }
}

fn is_given(json: &Json) -> bool
    ensures { result ≡ is_given (view json.now) }
{
    !json.is_null()
}

// The values of the members that are not null.
fn values_in(
    alloc: Global,
    name: &Name,
    kind: Kind,
    offset: i32,
    members: &[Json],
) -> Result<PlainVec<Value>, FillFault>
    ensures { FillsAs result (all_given (map (value_of offset name.now kind) (filter is_given (map view members.now)))) }
{
    let mut values = PlainVec::new(alloc);
    for member in members {
        if is_given(member) {
            values.push(value_of(alloc, name, kind, offset, member)?)?;
        }
    }
    Ok(values)
}

fn only_value(
    alloc: Global,
    name: &Name,
    kind: Kind,
    offset: i32,
    json: &Json,
) -> Result<PlainVec<Value>, FillFault>
    ensures { FillsAs result (made_of (λ v. v ∷ []) (value_of offset name.now kind (view json.now))) }
{
    let mut values = PlainVec::new(alloc);
    values.push(value_of(alloc, name, kind, offset, json)?)?;
    Ok(values)
}

/// The values that it gives the attribute of this name, or the first fault.
pub(crate) fn values_of(
    alloc: Global,
    name: &Name,
    rule: Rule,
    offset: i32,
    json: &Json,
) -> Result<PlainVec<Value>, FillFault>
    ensures value { FillsAs result (values_of offset name.now rule (view json.now)) }
{
    match json {
        Json::Null => Ok(PlainVec::new(alloc)),
        Json::Array(members) if rule.many => values_in(alloc, name, rule.kind, offset, members),
        Json::Array(_) => Err(FillFault::Fault(Fault::NotSingle(name.copy(alloc)?))),
        _ => only_value(alloc, name, rule.kind, offset, json),
    }
}
