// Moments as they are printed.
ghost use Rattle.std.specs.Prelude.{◌≡◌, ◌++◌, [], ◌∷◌, ◌<◌, ◌^◌, string_bytes, OnOk, IfOk};
ghost use Rattle.md_value.specs.Values.{IsMoment};
ghost use Rattle.md_time.specs.Moments.{IsDay, year_of, month_of, day_of_month};
ghost use Rattle.md_time.specs.Printed.{digit, two_digits, four_digits, separated, date_text, time_text, second_of_day, moment_text};

use crate::days::{calendar_date, day_of};
use std::alloc::{AllocError, Global};

fn push_digit(text: &mut String, number: u32) -> Result<(), AllocError>
    ensures { OnOk result (string_bytes text.new ≡ string_bytes text.old ++ digit number ∷ []) }
{
    let digit = b'0' + (number % 10) as u8;
    text.push(digit as char)?;
    Ok(())
}

fn push_two(text: &mut String, number: u32) -> Result<(), AllocError>
    ensures { OnOk result (string_bytes text.new ≡ string_bytes text.old ++ two_digits number) }
{
    push_digit(text, number / 10)?;
    push_digit(text, number)
}

fn push_four(text: &mut String, number: u32) -> Result<(), AllocError>
    ensures { OnOk result (string_bytes text.new ≡ string_bytes text.old ++ four_digits number) }
{
    push_two(text, number / 100)?;
    push_two(text, number)
}

fn push_separated(text: &mut String, separator: char, number: u32) -> Result<(), AllocError>
    requires { separator < 128 }
    ensures { OnOk result (string_bytes text.new ≡ string_bytes text.old ++ separated separator number) }
{
    text.push(separator)?;
    push_two(text, number)?;
    Ok(())
}

fn push_date(text: &mut String, year: u32, month: u32, day: u32) -> Result<(), AllocError>
    ensures { OnOk result (string_bytes text.new ≡ string_bytes text.old ++ date_text year month day) }
{
    push_four(text, year)?;
    push_separated(text, '-', month)?;
    push_separated(text, '-', day)?;
    Ok(())
}

fn push_time(text: &mut String, second: u32) -> Result<(), AllocError>
    ensures { OnOk result (string_bytes text.new ≡ string_bytes text.old ++ time_text second) }
{
    push_two(text, second / 3600)?;
    push_separated(text, ':', second / 60 % 60)?;
    push_separated(text, ':', second % 60)?;
    Ok(())
}

fn push_day(text: &mut String, day: i64) -> Result<(), AllocError>
    requires { IsDay day }
    ensures { OnOk result (string_bytes text.new ≡ string_bytes text.old
        ++ date_text (year_of day) (month_of day) (day_of_month day)) }
{
    let date = calendar_date(day);
    push_date(text, date.year as u32, date.month as u32, date.day as u32)
}

fn second_of_day(moment: i64) -> u32
    ensures { result ≡ second_of_day moment }
{
    moment.rem_euclid(86_400) as u32
}

/// The text `YYYY-MM-DD HH:MM:SS +0000` of a moment, in seconds since 1970 in UTC, from `LOW` to `HIGH`.
pub fn print_moment(alloc: Global, moment: i64) -> Result<String, AllocError>
    requires { IsMoment moment }
    ensures { IfOk result (λ text. string_bytes text ≡ moment_text moment) }
{
    let mut text = String::new(alloc);
    push_day(&mut text, day_of(moment))?;
    text.push_str(" ")?;
    push_time(&mut text, second_of_day(moment))?;
    text.push_str(" +0000")?;
    Ok(text)
}
