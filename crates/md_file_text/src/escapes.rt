// Texts on one line.
ghost use Rattle.std.specs.Prelude.{◌≡◌, ◌++◌, IfOk, OnOk, string_bytes, encode_utf8};
ghost use Rattle.std.specs.List.{flat_map};
ghost use Rattle.md_file_text.specs.Paths.{escape, escaped, shown_path};
ghost use Rattle.md_file_text.specs.Attributes.{escape_quoted, quoted};

use md_value::Path;
use std::alloc::{AllocError, Global};

fn push_char(text: &mut String, c: char) -> Result<(), AllocError>
    ensures { OnOk result (string_bytes text.new ≡ string_bytes text.old ++ flat_map escape (encode_utf8 c)) }
{
    match c {
        '\\' => text.push_str("\\\\"),
        '\t' => text.push_str("\\t"),
        '\n' => text.push_str("\\n"),
        '\r' => text.push_str("\\r"),
        _ => text.push(c),
    }
}

/// Appends a path with its escapes. Fails only where memory runs out.
pub fn push_path(text: &mut String, path: &Path) -> Result<(), AllocError>
    ensures { OnOk result (string_bytes text.new ≡ string_bytes text.old ++ escaped path.now) }
{
    for c in path.as_str().chars() {
        push_char(text, c)?;
    }
    Ok(())
}

/// A path's text on one line: a backslash, a tab, a line feed and a carriage return are written `\\`, `\t`, `\n` and
/// `\r`, and all else as it is. Fails only where memory runs out.
pub fn escaped(alloc: Global, path: &Path) -> Result<String, AllocError>
    ensures { IfOk result (λ text. string_bytes text ≡ escaped path.now) }
{
    let mut text = String::new(alloc);
    push_path(&mut text, path)?;
    Ok(text)
}

/// Appends a path as it stands at the beginning of a line on what failed. Fails only where memory runs out.
#[tactic(auto, unfolding(crate::specs::Paths::shown_path))]
pub fn push_shown(text: &mut String, path: &Path) -> Result<(), AllocError>
    ensures { OnOk result (string_bytes text.new ≡ string_bytes text.old ++ shown_path path.now) }
{
    if path.is_root() {
        text.push_str(".")
    } else {
        push_path(text, path)
    }
}

/// A path as it stands at the beginning of a line on what failed: with its escapes, and `.` for the root. Fails only where
/// memory runs out.
pub fn shown_path(alloc: Global, path: &Path) -> Result<String, AllocError>
    ensures { IfOk result (λ text. string_bytes text ≡ shown_path path.now) }
{
    let mut text = String::new(alloc);
    push_shown(&mut text, path)?;
    Ok(text)
}

fn push_quoted_char(text: &mut String, c: char) -> Result<(), AllocError>
    ensures { OnOk result (string_bytes text.new ≡ string_bytes text.old ++ flat_map escape_quoted (encode_utf8 c)) }
{
    match c {
        '"' => text.push_str("\\\""),
        _ => push_char(text, c),
    }
}

fn push_quoted_chars(text: &mut String, content: &str) -> Result<(), AllocError>
    ensures { OnOk result (string_bytes text.new ≡ string_bytes text.old ++ flat_map escape_quoted content.now) }
{
    for c in content.chars() {
        push_quoted_char(text, c)?;
    }
    Ok(())
}

/// Appends a text in double quotes, with its escapes.
#[tactic(auto, unfolding(crate::specs::Attributes::quoted))]
pub(crate) fn push_quoted(text: &mut String, content: &str) -> Result<(), AllocError>
    ensures { OnOk result (string_bytes text.new ≡ string_bytes text.old ++ quoted content.now) }
{
    text.push_str("\"")?;
    push_quoted_chars(text, content)?;
    text.push_str("\"")
}
