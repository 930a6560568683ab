// The attributes of a JSON text.
ghost use Rattle.std.specs.Prelude.{◌≡◌, IfOk, string_bytes, Some};
ghost use Rattle.serde_json.specs.View.{view};
ghost use Rattle.imp_rules.specs.Content.{spaced};
ghost use Rattle.imp_rules.specs.Faults.{FillsAs};
ghost use Rattle.imp_json.specs.Objects.{json_attributes, attributes_of};
ghost use Rattle.imp_json.specs.Strings.{strings};

use crate::object::Object;
use crate::strings::push_strings;
use imp_rules::{file_attributes, joined, put_content};
use md_value::{Attrs, Fault, FillFault, Memory};
use serde_json::Value as Json;
use std::alloc::Global;

// The strings of the value, each after a space.
fn spaced_strings(alloc: Global, json: &Json) -> Result<String, Memory>
    ensures { IfOk result (λ text. string_bytes text ≡ spaced (strings (view json.now))) }
{
    let mut text = String::new(alloc);
    push_strings(json, &mut text)?;
    Ok(text)
}

fn attributes_of(alloc: Global, json: &Json, offset: i32) -> Result<Attrs, FillFault>
    ensures { FillsAs result (attributes_of offset (Some (view json.now))) }
{
    if !json.is_object() {
        return Err(FillFault::Fault(Fault::NotObject));
    }
    let mut attrs = file_attributes(alloc, &Object { json, offset })?;
    let strings = spaced_strings(alloc, json)?;
    put_content(alloc, &mut attrs, joined(&strings))?;
    Ok(attrs)
}

/// The attributes of a JSON text that does not begin with a byte order mark. A date alone is the first second of that
/// day at `offset`, in minutes by which local time is ahead of UTC.
///
/// `NotJson` comes exactly where the text is no JSON, `NotObject` where it is no object. Then the names of the schema
/// that files set are taken in ascending order, and the first value with a fault decides.
pub fn fill(alloc: Global, text: &str, offset: i32) -> Result<Attrs, FillFault>
    ensures { FillsAs result (json_attributes text.now offset) }
{
    match Json::from_str(alloc, text) {
        Ok(json) => attributes_of(alloc, &json, offset),
        Err(cause) if cause.is_memory() => Err(FillFault::Memory),
        Err(_) => Err(FillFault::Fault(Fault::NotJson)),
    }
}
