// The attributes that every file has.
ghost use Rattle.std.specs.Prelude.{◌≡◌, ◌∷◌, ◌++◌, ◌<◌, ◌-◌, ◌^◌, [], IfOk, OnOk, codes, chars, pos, length, All, false};
ghost use Rattle.md_value.specs.Values.{IsMoment, IsInRange, is_mixed};
ghost use Rattle.md_value.specs.declared.value.Value.TheVariants as value;
ghost use Rattle.imp_rules.specs.Files.{with_values, text};
ghost use Rattle.imp_kind.specs.Base.{texts, size_number, with_base};
ghost use Rattle.imp_kind.specs.Kinds.{content_types, is_imported};

use crate::FileKind;
use imp_rules::{put_text, put_value, put_values, text_value};
use md_source::Entry;
use md_value::{Attrs, Memory, PlainVec, Value};
use std::alloc::Global;

fn push_text(alloc: Global, values: &mut PlainVec<Value>, bytes: &str) -> Result<(), Memory>
    ensures { OnOk result (values.new ≡ values.old ++ value.Text (chars bytes.now) ∷ []) }
{
    let value = text_value(alloc, bytes)?;
    values.push(value)
}

fn other_types(alloc: Global) -> Result<PlainVec<Value>, Memory>
    ensures { IfOk result (λ values. values ≡ texts (codes "public.data" ∷ codes "public.item" ∷ [])) }
{
    let mut values = PlainVec::new(alloc);
    push_text(alloc, &mut values, "public.data")?;
    push_text(alloc, &mut values, "public.item")?;
    Ok(values)
}

fn text_types(alloc: Global, content_type: &str) -> Result<PlainVec<Value>, Memory>
    ensures { IfOk result (λ values. values
        ≡ texts (content_type.now ∷ codes "public.text" ∷ codes "public.data" ∷ codes "public.item" ∷ codes "public.content" ∷ [])) }
{
    let mut values = PlainVec::new(alloc);
    push_text(alloc, &mut values, content_type)?;
    push_text(alloc, &mut values, "public.text")?;
    push_text(alloc, &mut values, "public.data")?;
    push_text(alloc, &mut values, "public.item")?;
    push_text(alloc, &mut values, "public.content")?;
    Ok(values)
}

fn types_of(alloc: Global, kind: FileKind) -> Result<PlainVec<Value>, Memory>
    ensures { IfOk result (λ values. values ≡ texts (content_types kind)) }
{
    match kind {
        FileKind::Other => other_types(alloc),
        _ => text_types(alloc, kind.content_type()),
    }
}

fn put_types(alloc: Global, attrs: &mut Attrs, kind: FileKind) -> Result<(), Memory>
    ensures { OnOk result (attrs.new ≡ with_values attrs.old (codes "kMDItemContentTypeTree") (texts (content_types kind))) }
{
    let values = types_of(alloc, kind)?;
    put_values(alloc, attrs, "kMDItemContentTypeTree", values)
}

fn size_number(size: u64) -> i64
    ensures { result ≡ pos (size_number size) }
{
    size.min(i64::MAX as u64) as i64
}

fn put_size(alloc: Global, attrs: &mut Attrs, size: u64) -> Result<(), Memory>
    ensures { OnOk result (attrs.new ≡ with_values attrs.old (codes "kMDItemFSSize") (value.Number (pos (size_number size)) ∷ [])) }
{
    let number = size_number(size);
    put_value(alloc, attrs, "kMDItemFSSize", Value::Number(number))
}

fn put_changed(alloc: Global, attrs: &mut Attrs, changed: i64) -> Result<(), Memory>
    requires { IsMoment changed }
    ensures { OnOk result (attrs.new ≡ with_values attrs.old (codes "kMDItemFSContentChangeDate") (value.Moment changed ∷ [])) }
{
    put_value(
        alloc,
        attrs,
        "kMDItemFSContentChangeDate",
        Value::Moment(changed),
    )
}

fn put_imported(alloc: Global, attrs: &mut Attrs, kind: FileKind) -> Result<(), Memory>
    ensures { OnOk result (attrs.new ≡ with_values attrs.old (codes "md_imported") (value.Flag (is_imported kind) ∷ [])) }
{
    put_value(alloc, attrs, "md_imported", Value::Flag(kind.is_imported()))
}

/// Sets the attributes that every file has.
pub(crate) fn put_base(
    alloc: Global,
    attrs: &mut Attrs,
    entry: &Entry,
    kind: FileKind,
) -> Result<(), Memory>
    requires { IsMoment entry.now.changed }
    ensures { OnOk result (attrs.new ≡ with_base entry.now kind attrs.old) }
{
    let name = entry.path.name();
    put_text(alloc, attrs, "kMDItemContentType", kind.content_type())?;
    put_types(alloc, attrs, kind)?;
    put_text(alloc, attrs, "kMDItemDisplayName", name)?;
    put_changed(alloc, attrs, entry.changed)?;
    put_text(alloc, attrs, "kMDItemFSName", name)?;
    put_size(alloc, attrs, entry.size)?;
    put_text(alloc, attrs, "kMDItemKind", kind.words())?;
    put_text(alloc, attrs, "kMDItemPath", entry.path.as_str())?;
    put_imported(alloc, attrs, kind)?;
    Ok(())
}
