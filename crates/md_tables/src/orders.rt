// Rows in order.
use md_rows::{Field, RowError, attributes_of};
use md_sort::Sorted;
use md_value::{Name, Path};
use md_world::{Order, Row, SortKey};
use std::alloc::Global;

fn key_of(alloc: Global, word: &str) -> Result<SortKey, RowError> {
    let (name, descending) = match word.strip_prefix('-') {
        Some(name) => (name, true),
        None => (word, false),
    };
    Ok(SortKey {
        name: Name::read(alloc, name)?,
        descending,
    })
}

// The order by names with a space between them, each with `-` before it where it descends.
fn order_of(alloc: Global, words: &str) -> Result<Order, RowError> {
    let mut keys = Vec::new(alloc);
    for word in words.split_ascii_whitespace() {
        keys.push(key_of(alloc, word)?)?;
    }
    Order::of(keys).map_err(|_| RowError::Field)
}

// The row of a path, and of attributes behind a space.
fn row_of(alloc: Global, written: &str) -> Result<Row, RowError> {
    let (path, attrs) = written.split_once(' ').unwrap_or((written, ""));
    Ok(Row {
        path: Path::read(alloc, path)?,
        attrs: attributes_of(alloc, attrs)?,
    })
}

fn insert(sorted: &mut Sorted, row: Row) -> Result<(), RowError> {
    sorted.reserve(1)?;
    sorted.insert(row);
    Ok(())
}

// The paths in order, each with `?` behind it where it is not found at its place.
fn push_paths(shown: &mut String, sorted: &Sorted) -> Result<(), RowError> {
    for place in 0..sorted.len() {
        if let Some(row) = sorted.at(place) {
            shown.push_str(row.path.as_str())?;
            let found = sorted.place_of(&row.path) == Some(place);
            shown.push_str(if found { " " } else { "? " })?;
        }
    }
    Ok(())
}

/// An order, rows a line each, and another order: the paths in the first order, in which the rows are put one by one,
/// and in the other.
pub fn sorted(alloc: Global, fields: &[Field]) -> Result<String, RowError> {
    let [first, rows, second] = fields else {
        return Err(RowError::Count);
    };
    let mut sorted = Sorted::new(alloc, order_of(alloc, first.text()?)?);
    for row in rows.text()?.lines() {
        insert(&mut sorted, row_of(alloc, row)?)?;
    }
    let mut shown = String::new(alloc);
    push_paths(&mut shown, &sorted)?;
    shown.push_str("/ ")?;
    sorted.set_order(order_of(alloc, second.text()?)?)?;
    push_paths(&mut shown, &sorted)?;
    Ok(shown)
}
