// The text of an attribute's values.
ghost use Rattle.std.specs.Prelude.{◌≡◌, ◌++◌, OnOk, string_bytes, codes, All};
ghost use Rattle.std.specs.List.{join_by};
ghost use Rattle.md_value.specs.Values.{IsInRange, IsMoment};
ghost use Rattle.md_time.specs.Printed.{moment_text};
ghost use Rattle.md_file_text.specs.Attributes.{flag_text, is_many, list_text, single_text, value_text, values_text};

use crate::escapes::push_quoted;
use md_time::print_moment;
use md_value::{Name, Value, schema_of};
use std::alloc::{AllocError, Global};

fn push_moment(alloc: Global, text: &mut String, moment: i64) -> Result<(), AllocError>
    requires { IsMoment moment }
    ensures { OnOk result (string_bytes text.new ≡ string_bytes text.old ++ moment_text moment) }
{
    let shown = print_moment(alloc, moment)?;
    text.push_str(&shown)
}

fn push_flag(text: &mut String, flag: bool) -> Result<(), AllocError>
    ensures { OnOk result (string_bytes text.new ≡ string_bytes text.old ++ flag_text flag) }
{
    text.push_str(if flag { "1" } else { "0" })
}

fn push_value(alloc: Global, text: &mut String, value: &Value) -> Result<(), AllocError>
    requires { IsInRange value.now }
    ensures { OnOk result (string_bytes text.new ≡ string_bytes text.old ++ value_text value.now) }
{
    match value {
        Value::Text(content) => push_quoted(text, content.as_str()),
        Value::Number(number) => write!(text, "{number}"),
        Value::Flag(flag) => push_flag(text, *flag),
        Value::Moment(moment) => push_moment(alloc, text, *moment),
    }
}

// A text that is printed raw is its bytes alone.
fn push_single(alloc: Global, text: &mut String, value: &Value, raw: bool) -> Result<(), AllocError>
    requires { IsInRange value.now }
    ensures { OnOk result (string_bytes text.new ≡ string_bytes text.old ++ single_text raw value.now) }
{
    match value {
        Value::Text(content) if raw => text.push_str(content.as_str()),
        _ => push_value(alloc, text, value),
    }
}

fn push_joined(alloc: Global, text: &mut String, values: &[Value]) -> Result<(), AllocError>
    requires { All IsInRange values.now }
    ensures { OnOk result (string_bytes text.new ≡ string_bytes text.old ++ join_by value_text (codes ",\n    ") values.now) }
{
    let [first, rest @ ..] = values else {
        return Ok(());
    };
    push_value(alloc, text, first)?;
    for value in rest {
        text.push_str(",\n    ")?;
        push_value(alloc, text, value)?;
    }
    Ok(())
}

#[tactic(auto, unfolding(crate::specs::Attributes::list_text))]
fn push_list(alloc: Global, text: &mut String, values: &[Value]) -> Result<(), AllocError>
    requires { All IsInRange values.now }
    ensures { OnOk result (string_bytes text.new ≡ string_bytes text.old ++ list_text values.now) }
{
    text.push_str("(\n    ")?;
    push_joined(alloc, text, values)?;
    text.push_str("\n)")
}

fn is_many(name: &Name) -> bool
    ensures { result ≡ is_many name.now }
{
    schema_of(name).is_some_and(|rule| rule.many)
}

/// Appends the values of an attribute.
pub(crate) fn push_values(
    alloc: Global,
    text: &mut String,
    name: &Name,
    values: &[Value],
    raw: bool,
) -> Result<(), AllocError>
    requires { All IsInRange values.now }
    ensures { OnOk result (string_bytes text.new ≡ string_bytes text.old ++ values_text raw name.now values.now) }
{
    match values {
        [single] if !is_many(name) => push_single(alloc, text, single, raw),
        _ => push_list(alloc, text, values),
    }
}
