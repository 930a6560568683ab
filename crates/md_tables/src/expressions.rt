// Expressions and filters.
use md_expr::{Expr, ReadError, interpret, named, print, read};
use md_match::{Filter, FilterError};
use md_rows::{Field, RowError, attributes_of, yes_or_no};
use md_value::Path;
use md_world::Row;
use std::alloc::Global;

fn cause(error: ReadError) -> Result<&'static str, RowError> {
    match error {
        ReadError::TooLong => Ok("too long"),
        ReadError::NotExpression => Ok("not an expression"),
        ReadError::TooDeep => Ok("too deep"),
        ReadError::TooMany => Ok("too many"),
        ReadError::Memory => Err(RowError::Memory),
    }
}

fn spelled(alloc: Global, read: Result<Expr, ReadError>) -> Result<String, RowError> {
    match read {
        Ok(expr) => Ok(print(alloc, &expr)?),
        Err(error) => Ok(String::from_str(alloc, cause(error)?)?),
    }
}

/// A text: the canonical spelling of the expression that it is read as, or why it is refused.
pub fn expression(alloc: Global, fields: &[Field]) -> Result<String, RowError> {
    let [text] = fields else {
        return Err(RowError::Count);
    };
    spelled(alloc, read(alloc, text.text()?))
}

/// A search text: the canonical spelling of the expression that it stands for, or why it is refused.
pub fn plain_text(alloc: Global, fields: &[Field]) -> Result<String, RowError> {
    let [text] = fields else {
        return Err(RowError::Count);
    };
    spelled(alloc, interpret(alloc, text.text()?))
}

/// What a name is to have in it: the canonical spelling of the test.
pub fn name_text(alloc: Global, fields: &[Field]) -> Result<String, RowError> {
    let [text] = fields else {
        return Err(RowError::Count);
    };
    Ok(print(alloc, &named(alloc, text.text()?)?)?)
}

// Whether the filter lets the row pass, or the first form of time that is out of range.
fn tested(
    alloc: Global,
    filter: Result<Filter, FilterError>,
    row: &Row,
) -> Result<String, RowError> {
    match filter {
        Ok(filter) => yes_or_no(alloc, filter.test(alloc, row)?),
        Err(FilterError::TimeOutOfRange(which)) => Ok(format!(in alloc; "form {which}")?),
        Err(FilterError::Memory) => Err(RowError::Memory),
    }
}

// The row of a path and attributes.
fn row_of(alloc: Global, path: &Field, attrs: &Field) -> Result<Row, RowError> {
    Ok(Row {
        path: Path::read(alloc, path.text()?)?,
        attrs: attributes_of(alloc, attrs.text()?)?,
    })
}

/// An expression, now, an offset, a folder, a path and attributes: whether the filter lets the row pass, the first form
/// of time that is out of range, or why the expression is refused.
pub fn filter(alloc: Global, fields: &[Field]) -> Result<String, RowError> {
    let [text, now, offset, folder, path, attrs] = fields else {
        return Err(RowError::Count);
    };
    let now = now.signed()?;
    let offset = offset.offset()?;
    let row = row_of(alloc, path, attrs)?;
    let folder = Path::read(alloc, folder.text()?)?;
    match read(alloc, text.text()?) {
        Ok(expr) => tested(alloc, Filter::new(alloc, &expr, now, offset, &folder), &row),
        Err(error) => Ok(String::from_str(alloc, cause(error)?)?),
    }
}
