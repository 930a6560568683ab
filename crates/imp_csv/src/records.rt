// Records in one piece of memory.
ghost use Rattle.std.specs.Prelude.{◌≡◌, ◌<◌, ◌^◌, ◌++◌, ◌+◌, ◌==◌, not, OnOk, IfOk, length, sum, option_map, string_bytes, take, drop};
ghost use Rattle.std.specs.List.{flat_map, position};
ghost use Rattle.imp_rules.specs.Content.{spaced};
ghost use Rattle.imp_csv.specs.Tables.{header_of, later_of, uneven_of, fields_at, fields_of_name};
ghost use Rattle.imp_csv.specs.Records.{cut};

use crate::fields::Fields;
use crate::row::{Row, has_column, push_fields};
use imp_rules::push_spaced;
use md_value::{Memory, Name};
use std::alloc::Global;
use std::marker::Model;

/// Records whose fields lie one after another. Contracts see each as the list of its fields' bytes.
#[derive(Drop)]
pub(crate) struct Records {
    fields: Fields,
    // How many fields each record has.
    lengths: Vec<usize>,
}

impl Model for Records {
    ghost use Rattle.std.specs.Prelude.{◌≡◌, List, length, sum};
    ghost use Rattle.imp_csv.specs.Tables.{Row as Fields};
    ghost use Rattle.imp_csv.specs.Records.{cut};

    ghost Value = { List Fields };

    ghost view = { λ r. cut r.lengths.items r.fields };

    ghost invariant = { λ r. sum r.lengths.items ≡ length r.fields };
}

// Adds the fields of several records, of which the first begins at a place, that are not empty in the columns of this name.
fn push_later(
    name: &Name,
    header: &Row<'_>,
    all: &Fields,
    first: usize,
    lengths: &[usize],
    fields: &mut Fields,
) -> Result<(), Memory>
    requires { first + sum lengths.now ≡ length all.now }
    ensures { OnOk result (fields.new ≡ fields.old ++ flat_map (fields_at name.now header.now) (cut lengths.now (drop first all.now))) }
{
    let count = all.len();
    let mut left = count - first;
    for length in lengths {
        let after = left - *length;
        push_fields(
            name,
            header,
            &Row::of(all, count - left, count - after),
            fields,
        )?;
        left = after;
    }
    Ok(())
}

// The fields of the columns of this name: a header of so many columns, and then records of these lengths.
fn found_in(
    alloc: Global,
    name: &Name,
    all: &Fields,
    columns: usize,
    later: &[usize],
) -> Result<Fields, Memory>
    requires { columns + sum later.now ≡ length all.now }
    ensures { IfOk result (λ fields. fields ≡ flat_map (fields_at name.now (take columns all.now)) (cut later.now (drop columns all.now))) }
{
    let mut fields = Fields::new(alloc);
    let header = Row::of(all, 0, columns);
    if has_column(name, &header) {
        push_later(name, &header, all, columns, later, &mut fields)?;
        return Ok(fields);
    }
    Ok(fields)
}

// The place of the first of these lengths that is another than this.
fn place_of_other(columns: usize, lengths: &[usize]) -> Option<usize>
    ensures { result ≡ position (λ length. not (length == columns)) lengths.now }
{
    lengths.iter().position(|length| *length != columns)
}

// The same, counted from 1.
fn number_of_other(columns: usize, lengths: &[usize]) -> Option<u64>
    ensures { result ≡ option_map (λ place. place + 1) (position (λ length. not (length == columns)) lengths.now) }
{
    let place = place_of_other(columns, lengths)?;
    Some(place as u64 + 1)
}

// Adds the fields to a text, each after a space.
fn push_all(fields: &Fields, text: &mut String) -> Result<(), Memory>
    ensures { OnOk result (string_bytes text.new ≡ string_bytes text.old ++ spaced fields.now) }
{
    for place in 0..fields.len() {
        push_spaced(text, fields.at(place))?;
    }
    Ok(())
}

impl Records {
    /// The records of these lengths that the fields are.
    pub(crate) fn of(fields: Fields, lengths: Vec<usize>) -> Records
        requires { sum lengths.items ≡ length fields }
        ensures { result ≡ cut lengths.items fields }
    {
        Records { fields, lengths }
    }

    /// The number of columns.
    pub(crate) fn columns(&self) -> usize
        ensures value { result ≡ length (header_of self.now) }
        ensures small { result < 2 ^ 63 }
    {
        self.fields.count_is_small();
        match self.lengths.as_slice() {
            [columns, ..] => *columns,
            [] => 0,
        }
    }

    /// The number of records after the header.
    pub(crate) fn rows(&self) -> usize
        ensures value { result ≡ length (later_of self.now) }
        ensures small { result < 2 ^ 63 }
    {
        match self.lengths.as_slice() {
            [_, later @ ..] => later.len(),
            [] => 0,
        }
    }

    /// The number of the first record, from 1, that has another number of fields than the first.
    pub(crate) fn uneven(&self) -> Option<u64>
        ensures { result ≡ uneven_of self.now }
    {
        number_of_other(self.columns(), self.lengths.as_slice())
    }

    /// The fields that are not empty in the columns of this name, by record and then by column.
    pub(crate) fn fields_of_name(&self, alloc: Global, name: &Name) -> Result<Fields, Memory>
        ensures { IfOk result (λ fields. fields ≡ fields_of_name name.now self.now) }
    {
        match self.lengths.as_slice() {
            [columns, later @ ..] => found_in(alloc, name, &self.fields, *columns, later),
            [] => Ok(Fields::new(alloc)),
        }
    }

    /// All fields of all records, each after a space.
    pub(crate) fn spaced(&self, alloc: Global) -> Result<String, Memory>
        ensures { IfOk result (λ text. string_bytes text ≡ spaced (flat_map (λ row. row) self.now)) }
    {
        let mut text = String::new(alloc);
        push_all(&self.fields, &mut text)?;
        Ok(text)
    }
}
