// The texts of names with what a file has of them.
ghost use Rattle.std.specs.Prelude.{◌≡◌, ◌-◌, ◌++◌, IfSome, OnOk, string_bytes, map, All};
ghost use Rattle.std.specs.Option.{option_map};
ghost use Rattle.std.proofs.Math.ListN.{replicate};
ghost use Rattle.md_value.specs.Values.{IsInRange, is_same};
ghost use Rattle.md_value.specs.Attrs.{text_content};
ghost use Rattle.md_file_text.specs.Attributes.{field_line, field_text, lines_text, longest, printed_values, raw_text};

use crate::values::push_values;
use md_value::{Attrs, Name, TEXT_CONTENT, Value};
use std::alloc::{AllocError, Global};

/// Whether it names the text of the whole file, which is never printed.
pub(crate) fn is_text_content(name: &Name) -> bool
    ensures { result ≡ is_same name.now text_content }
{
    name.is(TEXT_CONTENT)
}

fn printed_values<'a>(attrs: &'a Attrs, name: &Name) -> Option<&'a [Value]>
    ensures value { option_map (λ values. values.now) result ≡ printed_values attrs.now name.now }
    ensures in_range { IfSome result (λ values. All IsInRange values.now) }
{
    if is_text_content(name) {
        return None;
    }
    attrs.has_shape();
    attrs.get(name)
}

#[tactic(auto, unfolding(crate::specs::Attributes::field_text))]
fn push_field(
    alloc: Global,
    text: &mut String,
    attrs: &Attrs,
    name: &Name,
    raw: bool,
    marker: &str,
) -> Result<(), AllocError>
    ensures { OnOk result (string_bytes text.new ≡ string_bytes text.old ++ field_text attrs.now raw marker.now name.now) }
{
    match printed_values(attrs, name) {
        Some(values) => push_values(alloc, text, name, values, raw),
        None => text.push_str(marker),
    }
}

// The length of the longest name, in bytes, which are its characters too.
fn longest(names: &[&Name]) -> usize
    ensures { result ≡ longest (map (λ name. name.now) names.now) }
{
    names
        .iter()
        .map(|name| name.as_str().len())
        .max()
        .unwrap_or(0)
}

fn push_spaces(text: &mut String, count: usize) -> Result<(), AllocError>
    ensures { OnOk result (string_bytes text.new ≡ string_bytes text.old ++ replicate count 32) }
{
    for _ in 0..count {
        text.push(' ')?;
    }
    Ok(())
}

fn push_line(
    alloc: Global,
    text: &mut String,
    attrs: &Attrs,
    width: usize,
    name: &Name,
    marker: &str,
) -> Result<(), AllocError>
    ensures { OnOk result (string_bytes text.new ≡ string_bytes text.old ++ field_line attrs.now width marker.now name.now) }
{
    let name_text = name.as_str();
    text.push_str(name_text)?;
    push_spaces(text, width.saturating_sub(name_text.len()))?;
    text.push_str(" = ")?;
    push_field(alloc, text, attrs, name, false, marker)?;
    text.push_str("\n")
}

/// Appends a line for each name.
pub(crate) fn push_lines(
    alloc: Global,
    text: &mut String,
    attrs: &Attrs,
    names: &[&Name],
    marker: &str,
) -> Result<(), AllocError>
    ensures { OnOk result (string_bytes text.new ≡ string_bytes text.old ++ lines_text attrs.now marker.now (map (λ name. name.now) names.now)) }
{
    let width = longest(names);
    for name in names {
        push_line(alloc, text, attrs, width, name, marker)?;
    }
    Ok(())
}

/// Appends what there is of each name, with a zero byte between two of them.
pub(crate) fn push_raw(
    alloc: Global,
    text: &mut String,
    attrs: &Attrs,
    names: &[&Name],
    marker: &str,
) -> Result<(), AllocError>
    ensures { OnOk result (string_bytes text.new ≡ string_bytes text.old ++ raw_text attrs.now marker.now (map (λ name. name.now) names.now)) }
{
    let [first, rest @ ..] = names else {
        return Ok(());
    };
    push_field(alloc, text, attrs, first, true, marker)?;
    for name in rest {
        text.push('\0')?;
        push_field(alloc, text, attrs, name, true, marker)?;
    }
    Ok(())
}
