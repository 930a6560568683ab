// One record among others.
ghost use Rattle.std.specs.Prelude.{◌≡◌, ◌++◌, ◌-◌, ◌≤◌, OnOk, length, option_map, take, drop};
ghost use Rattle.std.specs.List.{list_any};
ghost use Rattle.csv.specs.Records.{field_at};
ghost use Rattle.md_value.specs.Values.{is_same};
ghost use Rattle.imp_csv.specs.Tables.{is_at, fields_at};
ghost use Rattle.imp_csv.specs.Records.{is_titled, cell_of};

use crate::fields::Fields;
use md_value::{Memory, Name};
use std::marker::Model;

/// One record. Contracts see it as the list of its fields' bytes.
#[derive(Drop)]
pub(crate) struct Row<'a> {
    fields: &'a Fields,
    start: usize,
    end: usize,
}

impl<'a> Model for Row<'a> {
    ghost use Rattle.std.specs.Prelude.{◌-◌, ◌≤◌, List, ℕ, length, take, drop};

    ghost Value = { List (List ℕ) };

    ghost view = { λ r. take (r.end - r.start) (drop r.start r.fields.now) };

    ghost invariant = { λ r. (r.start ≤ r.end) × (r.end ≤ length r.fields.now) };
}

impl<'a> Row<'a> {
    /// The record of the fields from one place to another.
    pub(crate) fn of(fields: &'a Fields, start: usize, end: usize) -> Row<'a>
        requires { (start ≤ end) × (end ≤ length fields.now) }
        ensures { result ≡ take (end - start) (drop start fields.now) }
    {
        Row { fields, start, end }
    }

    fn len(&self) -> usize
        ensures { result ≡ length self.now }
    {
        self.end - self.start
    }

    // The field at a place, counted from 0.
    fn get(&self, place: usize) -> Option<&'a str>
        ensures { option_map (λ field. field.now) result ≡ field_at self.now place }
    {
        if place < self.end - self.start {
            self.fields.get(self.start + place)
        } else {
            None
        }
    }
}

// Whether a column has this name.
fn is_titled(name: &Name, column: Option<&str>) -> bool
    ensures { result ≡ is_titled name.now (option_map (λ column. column.now) column.entry) }
{
    match column {
        Some(column) => name.is(column),
        None => false,
    }
}

/// Whether a column of the header has this name.
pub(crate) fn has_column(name: &Name, header: &Row<'_>) -> bool
    ensures { result ≡ list_any (is_same name.now) header.now }
{
    for place in 0..header.len() {
        if is_titled(name, header.get(place)) {
            return true;
        }
    }
    false
}

// Whether the cell is in a column of this name, and not empty.
fn is_at(name: &Name, column: &str, field: &str) -> bool
    ensures { result ≡ is_at name.now (column.now, field.now) }
{
    name.is(column) && !field.is_empty()
}

// Adds the field of a cell that is in a column of this name, and not empty.
fn push_cell(
    name: &Name,
    column: Option<&str>,
    field: Option<&str>,
    fields: &mut Fields,
) -> Result<(), Memory>
    ensures { OnOk result (fields.new
        ≡ fields.old ++ cell_of name.now (option_map (λ column. column.now) column.entry) (option_map (λ field. field.now) field.entry)) }
{
    match (column, field) {
        (Some(column), Some(field)) if is_at(name, column, field) => fields.push(field),
        _ => Ok(()),
    }
}

/// Adds the fields of a record that are not empty in the columns of this name.
pub(crate) fn push_fields(
    name: &Name,
    header: &Row<'_>,
    row: &Row<'_>,
    fields: &mut Fields,
) -> Result<(), Memory>
    ensures { OnOk result (fields.new ≡ fields.old ++ fields_at name.now header.now row.now) }
{
    for place in 0..header.len() {
        push_cell(name, header.get(place), row.get(place), fields)?;
    }
    Ok(())
}
