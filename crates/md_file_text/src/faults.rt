// The lines on what failed at a path.
ghost use Rattle.std.specs.Prelude.{◌≡◌, ◌++◌, IfOk, OnOk, string_bytes};
ghost use Rattle.md_file_text.specs.Faults.{fault_text, failure_text, fault_words, failure_words, named};

use crate::escapes::shown_path;
use md_value::{Fault, Name, Path};
use std::alloc::{AllocError, Global};

/// Why nothing was had from a path.
#[derive(Clone, Copy, Debug, PartialEq, Eq)]
pub enum Failure {
    /// Nothing, or no file, is there.
    NotFound,
    /// The file is there and could not be read.
    NotRead,
    /// The folder could not be listed.
    NotListed,
}

fn push_named(text: &mut String, words: &str, name: &Name) -> Result<(), AllocError>
    ensures { OnOk result (string_bytes text.new ≡ string_bytes text.old ++ named words.now name.now) }
{
    let name = name.as_str();
    writeln!(text, "{words} for {name}")
}

fn push_fault(text: &mut String, fault: &Fault) -> Result<(), AllocError>
    ensures { OnOk result (string_bytes text.new ≡ string_bytes text.old ++ fault_words fault.now) }
{
    match fault {
        Fault::TooLarge(size) => writeln!(text, "too large, {size} bytes"),
        Fault::NotUtf8(place) => writeln!(text, "not UTF-8 at byte {place}"),
        Fault::NotJson => text.push_str("not JSON\n"),
        Fault::NotObject => text.push_str("not a JSON object\n"),
        Fault::BadKind(name) => push_named(text, "wrong kind of value", name),
        Fault::BadNumber(name) => push_named(text, "not a 64-bit whole number", name),
        Fault::BadDate(name) => push_named(text, "not a date", name),
        Fault::NotSingle(name) => push_named(text, "more than one value", name),
        Fault::Uneven(number) => { writeln!(text, "record {number} has another number of fields") }
    }
}

fn push_failure(text: &mut String, failure: Failure) -> Result<(), AllocError>
    ensures { OnOk result (string_bytes text.new ≡ string_bytes text.old ++ failure_words failure) }
{
    match failure {
        Failure::NotFound => text.push_str("not found\n"),
        Failure::NotRead => text.push_str("could not be read\n"),
        Failure::NotListed => text.push_str("could not be listed\n"),
    }
}

/// The line on a file with a fault: its path with escapes, or `.` for the root, what is wrong, and a line feed. Fails only
/// where memory runs out.
#[tactic(auto, unfolding(crate::specs::Faults::fault_text))]
pub fn fault_text(alloc: Global, path: &Path, fault: &Fault) -> Result<String, AllocError>
    ensures { IfOk result (λ text. string_bytes text ≡ fault_text path.now fault.now) }
{
    let mut text = shown_path(alloc, path)?;
    text.push_str(": ")?;
    push_fault(&mut text, fault)?;
    Ok(text)
}

/// The line on a path from which nothing was had: the path with escapes, or `.` for the root, why, and a line feed. Fails
/// only where memory runs out.
#[tactic(auto, unfolding(crate::specs::Faults::failure_text))]
pub fn failure_text(alloc: Global, path: &Path, failure: Failure) -> Result<String, AllocError>
    ensures { IfOk result (λ text. string_bytes text ≡ failure_text path.now failure) }
{
    let mut text = shown_path(alloc, path)?;
    text.push_str(": ")?;
    push_failure(&mut text, failure)?;
    Ok(text)
}
