// The strings of a JSON value.
ghost use Rattle.std.specs.Prelude.{◌≡◌, ◌++◌, OnOk, string_bytes};
ghost use Rattle.serde_json.specs.View.{view, items_view, members_view};
ghost use Rattle.imp_rules.specs.Content.{spaced};
ghost use Rattle.imp_json.specs.Strings.{strings, item_strings, member_strings};

use imp_rules::push_spaced;
use md_value::Memory;
use serde_json::{Map, Value};

/// Adds the strings of the value to the text, each after a space.
#[cycle(push)]
pub(crate) fn push_strings(value: &Value, text: &mut String) -> Result<(), Memory>
    ensures { OnOk result (string_bytes text.new ≡ string_bytes text.old ++ spaced (strings (view value.now))) }
{
    match value {
        Value::Null | Value::Bool(_) | Value::Number(_) => Ok(()),
        Value::String(string) => push_spaced(text, string.as_str()),
        Value::Array(items) => push_items(items, text),
        Value::Object(members) => push_members(members, text),
    }
}

#[cycle(push)]
fn push_items(items: &Vec<Value>, text: &mut String) -> Result<(), Memory>
    ensures { OnOk result (string_bytes text.new ≡ string_bytes text.old ++ spaced (item_strings (items_view items.now.items))) }
{
    for item in items {
        push_strings(item, text)?;
    }
    Ok(())
}

#[cycle(push)]
fn push_members(members: &Map<String, Value>, text: &mut String) -> Result<(), Memory>
    ensures { OnOk result (string_bytes text.new ≡ string_bytes text.old ++ spaced (member_strings (members_view members.now.entries))) }
{
    for (_, member) in members.iter() {
        push_strings(member, text)?;
    }
    Ok(())
}
