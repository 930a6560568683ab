// Values that a file's texts stand for.
ghost use Rattle.std.specs.Prelude.{◌≡◌, IfOk, chars};
ghost use Rattle.md_value.specs.declared.value.Value.TheVariants as value;
ghost use Rattle.imp_rules.specs.Faults.{FillsAs};
ghost use Rattle.imp_rules.specs.Values.{date_value};

use md_time::read_moment;
use md_value::{Copied, Fault, FillFault, Memory, Name, Text, Value};
use std::alloc::Global;

/// The value of a text.
pub fn text_value(alloc: Global, text: &str) -> Result<Value, Memory>
    ensures { IfOk result (λ made. made ≡ value.Text (chars text.now)) }
{
    Ok(Value::Text(Text::of(alloc, text)?))
}

/// The moment of an ISO 8601 text, for the attribute of this name. A date alone is the first second of that day at
/// `offset`, in minutes by which local time is ahead of UTC. `BadDate` comes exactly where the text is no date.
pub fn date_value(alloc: Global, name: &Name, text: &str, offset: i32) -> Result<Value, FillFault>
    ensures { FillsAs result (date_value name.now text.now offset) }
{
    match read_moment(text, offset) {
        Ok(moment) => Ok(Value::Moment(moment)),
        Err(_) => Err(FillFault::Fault(Fault::BadDate(name.copy(alloc)?))),
    }
}
