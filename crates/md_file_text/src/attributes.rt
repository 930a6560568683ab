// The text of a file's attributes.
ghost use Rattle.std.specs.Prelude.{◌≡◌, IfOk, string_bytes, map};
ghost use Rattle.md_value.specs.Attrs.{without_name, text_content};
ghost use Rattle.md_file_text.specs.Attributes.{attrs_text, printed_names};

use crate::fields::{is_text_content, push_lines, push_raw};
use md_value::{Attrs, Name};
use std::alloc::{AllocError, Global};

fn all_names(alloc: Global, attrs: &Attrs) -> Result<Vec<&Name>, AllocError>
    ensures { IfOk result (λ found. map (λ name. name.now) found.items ≡ map (λ attr. attr.0) (without_name text_content attrs.now)) }
{
    let mut found = Vec::new(alloc);
    for place in 0..attrs.len() {
        if let Some((name, _)) = attrs.at(place)
            && !is_text_content(name)
        {
            found.push(name)?;
        }
    }
    Ok(found)
}

fn printed_names<'a>(
    alloc: Global,
    attrs: &'a Attrs,
    names: &'a [Name],
) -> Result<Vec<&'a Name>, AllocError>
    ensures { IfOk result (λ found. map (λ name. name.now) found.items ≡ printed_names attrs.now names.now) }
{
    if names.is_empty() {
        all_names(alloc, attrs)
    } else {
        names.iter().collect(alloc)
    }
}

/// The text of a file's attributes: of these names in their order, or of all attributes by ascending name where no name is
/// given. `kMDItemTextContent` is never printed, and counts as absent where it is named.
///
/// A line is a name, padded with spaces to the longest name that is printed, ` = `, the value and a line feed. Raw, there
/// are only the values, with a zero byte between two of them. Values stand in parentheses, one on a line, where the schema
/// allows several or there are several. A number is decimal, a flag `1` or `0`, a moment as `print_moment` writes it, and a
/// text stands in double quotes with `"`, `\`, tab, line feed and carriage return as `\"`, `\\`, `\t`, `\n` and `\r`; a
/// single text that is printed raw is its bytes alone. What is absent is the marker. Fails only where memory runs out.
#[tactic(auto, unfolding(crate::specs::Attributes::attrs_text))]
pub fn attrs_text(
    alloc: Global,
    attrs: &Attrs,
    names: &[Name],
    raw: bool,
    marker: &str,
) -> Result<String, AllocError>
    ensures { IfOk result (λ text. string_bytes text ≡ attrs_text attrs.now names.now raw marker.now) }
{
    let printed = printed_names(alloc, attrs, names)?;
    let mut text = String::new(alloc);
    if raw {
        push_raw(alloc, &mut text, attrs, &printed, marker)?;
    } else {
        push_lines(alloc, &mut text, attrs, &printed, marker)?;
    }
    Ok(text)
}
