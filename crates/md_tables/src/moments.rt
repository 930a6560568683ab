// Moments of time.
use md_rows::{Field, RowError, Sum};
use md_time::{Form, IsoText, OutOfRange, print_moment, read_moment};
use md_value::{HIGH, LOW};
use std::alloc::{AllocError, Global};

fn shown<E: Drop>(alloc: Global, moment: Result<i64, E>) -> Result<String, AllocError> {
    match moment {
        Ok(moment) => format!(in alloc; "{moment}"),
        Err(_) => String::from_str(alloc, "none"),
    }
}

// The moment of the text as a form of time.
fn form_moment(text: &str, offset: i32) -> Result<i64, OutOfRange> {
    match IsoText::read(text) {
        Some(iso) if iso.text() == text => Form::Iso(iso).moment(0, offset),
        _ => Err(OutOfRange),
    }
}

/// An ISO text and an offset: its moment, by itself and as a form of time, or `none`.
pub fn iso(alloc: Global, fields: &[Field]) -> Result<String, RowError> {
    let [text, offset] = fields else {
        return Err(RowError::Count);
    };
    let text = text.text()?;
    let offset = offset.offset()?;
    let read = shown(alloc, read_moment(text, offset))?;
    let form = shown(alloc, form_moment(text, offset))?;
    if read == form {
        Ok(read)
    } else {
        Ok(format!(in alloc; "{read} and as a form {form}")?)
    }
}

fn form_of(unit: &str, count: i64) -> Result<Form, RowError> {
    match unit {
        "now" => Ok(Form::Now(count)),
        "day" => Ok(Form::Day(count)),
        "week" => Ok(Form::Week(count)),
        "month" => Ok(Form::Month(count)),
        "year" => Ok(Form::Year(count)),
        _ => Err(RowError::Field),
    }
}

/// A unit, a count, now and an offset: the moment of the form of time, or `none`.
pub fn form(alloc: Global, fields: &[Field]) -> Result<String, RowError> {
    let [unit, count, now, offset] = fields else {
        return Err(RowError::Count);
    };
    let form = form_of(unit.text()?, count.signed()?)?;
    Ok(shown(alloc, form.moment(now.signed()?, offset.offset()?))?)
}

/// A moment: how it is printed.
pub fn printed(alloc: Global, fields: &[Field]) -> Result<String, RowError> {
    let [moment] = fields else {
        return Err(RowError::Count);
    };
    let moment = moment.signed()?;
    if moment < LOW || HIGH < moment {
        return Err(RowError::Field);
    }
    Ok(print_moment(alloc, moment)?)
}

// What the calls say of a text: its moment, and that moment printed.
fn date_line(alloc: Global, text: &str) -> Result<String, AllocError> {
    match read_moment(text, 0) {
        Ok(moment) if LOW <= moment && moment <= HIGH => {
            let printed = print_moment(alloc, moment)?;
            format!(in alloc; "{text} {moment} {printed}\n")
        }
        _ => format!(in alloc; "{text} none\n"),
    }
}

// Adds the lines of the twelve months of 31 days of a year.
fn add_year(alloc: Global, sum: &mut Sum, year: u32) -> Result<(), AllocError> {
    for month in 1..13u32 {
        for day in 1..32u32 {
            let text = format!(in alloc; "{year:04}-{month:02}-{day:02}")?;
            sum.add(&date_line(alloc, &text)?);
        }
    }
    Ok(())
}

/// The first and the last of years: one sum over the moments, printed too, of their days.
pub fn days_of_years(alloc: Global, fields: &[Field]) -> Result<String, RowError> {
    let [first, last] = fields else {
        return Err(RowError::Count);
    };
    let mut sum = Sum::new();
    for year in first.count()?..=last.count()? {
        add_year(alloc, &mut sum, year)?;
    }
    Ok(format!(in alloc; "{:016x}", sum.value())?)
}
