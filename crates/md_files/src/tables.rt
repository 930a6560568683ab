// The lists of the importers and of the attributes.
ghost use Rattle.std.specs.Prelude.{◌≡◌, ◌++◌, map, IfOk, OnOk, string_bytes};
ghost use Rattle.std.specs.List.{flat_map};
ghost use Rattle.md_files.specs.Tables.{importer_line, importers_text, type_words, many_words, attribute_line, attributes_text};

use imp_kind::FileKind;
use md_value::{Kind, Rule, SCHEMA};
use std::alloc::{AllocError, Global};

fn push_importer(text: &mut String, kind: FileKind, importer: &str) -> Result<(), AllocError>
    ensures { OnOk result (string_bytes text.new ≡ string_bytes text.old ++ importer_line kind importer.now) }
{
    let content_type = kind.content_type();
    let ending = kind.ending();
    writeln!(text, "{content_type} {importer} {ending}")
}

/// The importers, one on a line: the content type, the importer and the ending of the files' names. Fails only where
/// memory runs out.
pub fn importers(alloc: Global) -> Result<String, AllocError>
    ensures { IfOk result (λ text. string_bytes text ≡ importers_text) }
{
    let mut text = String::new(alloc);
    push_importer(&mut text, FileKind::Plain, "imp_text")?;
    push_importer(&mut text, FileKind::Json, "imp_json")?;
    push_importer(&mut text, FileKind::Csv, "imp_csv")?;
    Ok(text)
}

// Apple's name of the type of values.
fn type_words(kind: Kind) -> &'static str
    ensures { result.now ≡ type_words kind }
{
    match kind {
        Kind::Text => "CFString",
        Kind::Number => "CFNumber",
        Kind::Flag => "CFBoolean",
        Kind::Moment => "CFDate",
    }
}

fn many_words(many: bool) -> &'static str
    ensures { result.now ≡ many_words many }
{
    if many { "many" } else { "one" }
}

fn push_attribute(text: &mut String, name: &str, rule: Rule) -> Result<(), AllocError>
    ensures { OnOk result (string_bytes text.new ≡ string_bytes text.old ++ attribute_line (name.now, rule)) }
{
    let kind = type_words(rule.kind);
    let many = many_words(rule.many);
    writeln!(text, "{name} {kind} {many}")
}

// The lines of the attributes of a table.
fn attributes_of(alloc: Global, table: &[(&str, Rule)]) -> Result<String, AllocError>
    ensures { IfOk result (λ text. string_bytes text ≡ flat_map attribute_line (map (λ a. (a.0.now, a.1)) table.entry.now)) }
{
    let mut text = String::new(alloc);
    for (name, rule) in table {
        push_attribute(&mut text, name, *rule)?;
    }
    Ok(text)
}

/// The attributes of the schema, one on a line: the name, the type and `one` or `many` values. Fails only where memory
/// runs out.
pub fn attributes(alloc: Global) -> Result<String, AllocError>
    ensures { IfOk result (λ text. string_bytes text ≡ attributes_text) }
{
    attributes_of(alloc, &SCHEMA)
}
