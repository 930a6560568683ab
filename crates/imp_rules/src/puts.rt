// Values put at names.
ghost use Rattle.std.specs.Prelude.{◌≡◌, ◌<◌, ◌∷◌, [], IfOk, OnOk, OnErr, IsTrue, All, false, length};
ghost use Rattle.md_value.specs.Name.{is_name};
ghost use Rattle.md_value.specs.Values.{IsInRange, is_mixed};
ghost use Rattle.imp_rules.specs.Files.{with_values, with_given, with_content, text};

use crate::text_value;
use md_value::{Attrs, Memory, Name, NameError, PlainVec, PutError, TEXT_CONTENT, Value};
use std::alloc::Global;

// The name of an attribute that is known.
pub(crate) fn known_name(alloc: Global, name: &str) -> Result<Name, Memory>
    requires { IsTrue (is_name name.now) }
    ensures { IfOk result (λ made. made ≡ name.now) }
{
    match Name::read(alloc, name) {
        Ok(name) => Ok(name),
        Err(NameError::Bad) => unreachable!(),
        Err(NameError::Memory) => Err(Memory),
    }
}

// Sets the values, where there are some.
#[tactic(auto, unfolding(crate::specs::Files::with_values))]
pub(crate) fn put_given(
    attrs: &mut Attrs,
    name: Name,
    values: PlainVec<Value>,
) -> Result<(), Memory>
    requires in_range { All IsInRange values }
    requires one_kind { is_mixed values ≡ false }
    ensures ok { OnOk result (attrs.new ≡ with_given attrs.old (name, values)) }
    ensures err { OnErr result (attrs.new ≡ attrs.old) }
{
    match attrs.put(name, values.into_vec()) {
        Ok(()) | Err(PutError::Empty) => Ok(()),
        Err(PutError::Mixed) => unreachable!(),
        Err(PutError::Memory) => Err(Memory),
    }
}

/// Sets the values of a name that is one, in place of older ones.
#[tactic(auto, unfolding(crate::specs::Files::with_values))]
pub fn put_values(
    alloc: Global,
    attrs: &mut Attrs,
    name: &str,
    values: PlainVec<Value>,
) -> Result<(), Memory>
    requires name { IsTrue (is_name name.now) }
    requires some { 0 < length values }
    requires in_range { All IsInRange values }
    requires one_kind { is_mixed values ≡ false }
    ensures ok { OnOk result (attrs.new ≡ with_values attrs.old name.now values) }
    ensures err { OnErr result (attrs.new ≡ attrs.old) }
{
    let name = known_name(alloc, name)?;
    match attrs.put(name, values.into_vec()) {
        Ok(()) => Ok(()),
        Err(PutError::Empty | PutError::Mixed) => unreachable!(),
        Err(PutError::Memory) => Err(Memory),
    }
}

/// Sets one value of a name that is one, in place of older ones.
pub fn put_value(alloc: Global, attrs: &mut Attrs, name: &str, value: Value) -> Result<(), Memory>
    requires name { IsTrue (is_name name.now) }
    requires in_range { IsInRange value }
    ensures ok { OnOk result (attrs.new ≡ with_values attrs.old name.now (value ∷ [])) }
    ensures err { OnErr result (attrs.new ≡ attrs.old) }
{
    let mut values = PlainVec::new(alloc);
    values.push(value)?;
    put_values(alloc, attrs, name, values)
}

/// Sets one text of a name that is one, in place of older ones.
pub fn put_text(alloc: Global, attrs: &mut Attrs, name: &str, bytes: &str) -> Result<(), Memory>
    requires { IsTrue (is_name name.now) }
    ensures ok { OnOk result (attrs.new ≡ with_values attrs.old name.now (text bytes.now)) }
    ensures err { OnErr result (attrs.new ≡ attrs.old) }
{
    let value = text_value(alloc, bytes)?;
    put_value(alloc, attrs, name, value)
}

/// Sets the text content.
pub fn put_content(alloc: Global, attrs: &mut Attrs, bytes: &str) -> Result<(), Memory>
    ensures ok { OnOk result (attrs.new ≡ with_content bytes.now attrs.old) }
    ensures err { OnErr result (attrs.new ≡ attrs.old) }
{
    put_text(alloc, attrs, TEXT_CONTENT, bytes)
}
