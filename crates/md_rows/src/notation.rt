// Attributes and faults, as rows write them.
ghost use Rattle.std.specs.Prelude.{IfOk, All};
ghost use Rattle.md_value.specs.Values.{IsInRange};

use crate::field::RowError;
use md_value::{Attrs, Fault, FillFault, HIGH, LOW, Name, PutError, Text, Value};
use std::alloc::{AllocError, Global};

// `'TEXT`, `@SECONDS`, `true`, `false` or a whole number.
fn value_of(alloc: Global, word: &str) -> Result<Value, RowError>
    ensures { IfOk result (λ value. IsInRange value) }
{
    if let Some(text) = word.strip_prefix('\'') {
        return Ok(Value::Text(Text::of(alloc, text)?));
    }
    if let Some(seconds) = word.strip_prefix('@') {
        return moment_of(seconds);
    }
    match word {
        "true" => Ok(Value::Flag(true)),
        "false" => Ok(Value::Flag(false)),
        _ => match word.parse::<i64>() {
            Ok(number) => Ok(Value::Number(number)),
            Err(_) => Err(RowError::Field),
        },
    }
}

fn moment_of(word: &str) -> Result<Value, RowError>
    ensures { IfOk result (λ value. IsInRange value) }
{
    match word.parse::<i64>() {
        Ok(seconds) if LOW <= seconds && seconds <= HIGH => Ok(Value::Moment(seconds)),
        _ => Err(RowError::Field),
    }
}

// Values with `|` between them; none where the text is empty.
fn values_of(alloc: Global, words: &str) -> Result<Vec<Value>, RowError>
    ensures { IfOk result (λ values. All IsInRange values.items) }
{
    let mut values = Vec::new(alloc);
    if words.is_empty() {
        return Ok(values);
    }
    for word in words.split('|') {
        values.push(value_of(alloc, word)?)?;
    }
    Ok(values)
}

/// Puts the values of `NAME=VALUES`, and says how that ended.
pub fn put(alloc: Global, attrs: &mut Attrs, written: &str) -> Result<&'static str, RowError> {
    let Some((name, words)) = written.split_once('=') else {
        return Err(RowError::Field);
    };
    let values = values_of(alloc, words)?;
    match attrs.put(Name::read(alloc, name)?, values) {
        Ok(()) => Ok("put"),
        Err(PutError::Empty) => Ok("empty"),
        Err(PutError::Mixed) => Ok("mixed"),
        Err(PutError::Memory) => Err(RowError::Memory),
    }
}

/// The attributes of `NAME=VALUES` with `;` between them.
pub fn attributes_of(alloc: Global, written: &str) -> Result<Attrs, RowError> {
    let mut attrs = Attrs::new(alloc);
    for attribute in written.split_terminator(';') {
        if put(alloc, &mut attrs, attribute)? != "put" {
            return Err(RowError::Field);
        }
    }
    Ok(attrs)
}

fn push_value(shown: &mut String, value: &Value) -> Result<(), AllocError> {
    match value {
        Value::Text(text) => {
            shown.push('\'')?;
            shown.push_str(text.as_str())
        }
        Value::Number(number) => write!(shown, "{number}"),
        Value::Flag(flag) => write!(shown, "{flag}"),
        Value::Moment(seconds) => write!(shown, "@{seconds}"),
    }
}

fn push_attribute(shown: &mut String, name: &Name, values: &[Value]) -> Result<(), AllocError> {
    shown.push_str(name.as_str())?;
    let mut before = "=";
    for value in values {
        shown.push_str(before)?;
        push_value(shown, value)?;
        before = "|";
    }
    shown.push(';')
}

/// Attributes as rows write them, each with a `;` behind it.
pub fn shown_attributes(alloc: Global, attrs: &Attrs) -> Result<String, AllocError> {
    let mut shown = String::new(alloc);
    for place in 0..attrs.len() {
        if let Some((name, values)) = attrs.at(place) {
            push_attribute(&mut shown, name, values)?;
        }
    }
    Ok(shown)
}

fn of_name(alloc: Global, words: &str, name: &Name) -> Result<String, AllocError> {
    format!(in alloc; "{words} {}", name.as_str())
}

/// A fault in a few words.
pub fn shown_fault(alloc: Global, fault: &Fault) -> Result<String, AllocError> {
    match fault {
        Fault::TooLarge(size) => format!(in alloc; "too large {size}"),
        Fault::NotUtf8(place) => format!(in alloc; "not utf-8 {place}"),
        Fault::NotJson => String::from_str(alloc, "not json"),
        Fault::NotObject => String::from_str(alloc, "not object"),
        Fault::BadKind(name) => of_name(alloc, "bad kind", name),
        Fault::BadNumber(name) => of_name(alloc, "bad number", name),
        Fault::BadDate(name) => of_name(alloc, "bad date", name),
        Fault::NotSingle(name) => of_name(alloc, "not single", name),
        Fault::Uneven(record) => format!(in alloc; "uneven {record}"),
    }
}

/// The attributes that an importer gives, or the fault.
pub fn shown_filled(alloc: Global, filled: Result<Attrs, FillFault>) -> Result<String, RowError> {
    match filled {
        Ok(attrs) => Ok(shown_attributes(alloc, &attrs)?),
        Err(FillFault::Fault(fault)) => Ok(shown_fault(alloc, &fault)?),
        Err(FillFault::Memory) => Err(RowError::Memory),
    }
}

fn number_of(word: &str) -> Result<u64, RowError> {
    word.parse::<u64>().map_err(|_| RowError::Field)
}

/// The fault of these words.
pub fn fault_of(alloc: Global, written: &str) -> Result<Fault, RowError> {
    match written {
        "not json" => return Ok(Fault::NotJson),
        "not object" => return Ok(Fault::NotObject),
        _ => {}
    }
    let Some((words, last)) = written.rsplit_once(' ') else {
        return Err(RowError::Field);
    };
    match words {
        "too large" => Ok(Fault::TooLarge(number_of(last)?)),
        "not utf-8" => Ok(Fault::NotUtf8(number_of(last)?)),
        "bad kind" => Ok(Fault::BadKind(Name::read(alloc, last)?)),
        "bad number" => Ok(Fault::BadNumber(Name::read(alloc, last)?)),
        "bad date" => Ok(Fault::BadDate(Name::read(alloc, last)?)),
        "not single" => Ok(Fault::NotSingle(Name::read(alloc, last)?)),
        "uneven" => Ok(Fault::Uneven(number_of(last)?)),
        _ => Err(RowError::Field),
    }
}
