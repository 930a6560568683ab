// The attributes of a CSV text.
ghost use Rattle.std.specs.Prelude.{◌≡◌, ◌<◌, ◌^◌, ◌∷◌, [], OnOk, IsTrue, pos};
ghost use Rattle.md_value.specs.Name.{is_name};
ghost use Rattle.md_value.specs.declared.value.Value.TheVariants as value;
ghost use Rattle.imp_rules.specs.Files.{with_values};
ghost use Rattle.imp_rules.specs.Faults.{FillsAs};
ghost use Rattle.imp_csv.specs.Tables.{csv_attributes, attributes_of, with_table};

use crate::reading::records;
use crate::records::Records;
use crate::table::Table;
use imp_rules::{file_attributes, joined, put_content, put_value};
use md_value::{Attrs, Fault, FillFault, Memory, Value};
use std::alloc::Global;

// Sets a number of columns or records.
fn put_count(alloc: Global, attrs: &mut Attrs, name: &str, count: usize) -> Result<(), Memory>
    requires name { IsTrue (is_name name.now) }
    requires small { count < 2 ^ 63 }
    ensures { OnOk result (attrs.new ≡ with_values attrs.old name.now (value.Number (pos count) ∷ [])) }
{
    put_value(alloc, attrs, name, Value::Number(count as i64))
}

// The numbers of columns and rows, and the text content.
fn put_table(alloc: Global, attrs: &mut Attrs, records: &Records) -> Result<(), Memory>
    ensures { OnOk result (attrs.new ≡ with_table records.now attrs.old) }
{
    put_count(alloc, attrs, "md_csv_columns", records.columns())?;
    put_count(alloc, attrs, "md_csv_rows", records.rows())?;
    let fields = records.spaced(alloc)?;
    put_content(alloc, attrs, joined(&fields))
}

fn attributes_of(alloc: Global, records: &Records, offset: i32) -> Result<Attrs, FillFault>
    ensures { FillsAs result (attributes_of offset records.now) }
{
    if let Some(number) = records.uneven() {
        return Err(FillFault::Fault(Fault::Uneven(number)));
    }
    let mut attrs = file_attributes(alloc, &Table { records, offset })?;
    put_table(alloc, &mut attrs, records)?;
    Ok(attrs)
}

/// The attributes of a CSV text that does not begin with a byte order mark. A date alone is the first second of that
/// day at `offset`, in minutes by which local time is ahead of UTC.
///
/// `Uneven` comes exactly where a record has another number of fields than the first. Then the names of the schema
/// that files set and that stand in the first record are taken in ascending order, and the first fault decides.
pub fn fill(alloc: Global, text: &str, offset: i32) -> Result<Attrs, FillFault>
    ensures { FillsAs result (csv_attributes text.now offset) }
{
    let records = records(alloc, text)?;
    attributes_of(alloc, &records, offset)
}
