// Days, weeks, months and years by day numbers.
ghost use Rattle.std.specs.Prelude.{◌≡◌, ◌≤◌, pos, neg_ℤ, ◌+ℤ◌, ◌*ℤ◌, ◌-◌, ◌≤ℤ◌, unsigned_abs, ◌<◌, ◌^◌, IfSome, IsTrue};
ghost use Rattle.jiff_core.specs.Calendar.{IsBetween, days_from_civil};
ghost use Rattle.jiff_core.specs.Date.{epoch_day};
ghost use Rattle.md_time.specs.IsoTexts.{is_calendar_date};
ghost use Rattle.md_value.specs.Values.{IsMoment};
ghost use Rattle.md_time.specs.Moments.{IsDay, day_of, first_second, monday_of, year_of, month_of, day_of_month, month_number, first_of_month, month_start};

use jiff_core::civil::Date;

pub(crate) fn day_of(second: i64) -> i64
    requires { IsMoment second }
    ensures value { result ≡ day_of second }
    ensures range { IsDay result }
{
    second.div_euclid(86_400)
}

pub(crate) fn first_second(day: i128) -> i128
    requires { unsigned_abs day < 2 ^ 80 }
    ensures { result ≡ first_second day }
{
    day * 86_400
}

pub(crate) fn monday_of(day: i64) -> i64
    requires { IsDay day }
    ensures value { result ≡ monday_of day }
    ensures bound { unsigned_abs result < 2 ^ 40 }
{
    let week = (day + 3).rem_euclid(7);
    day - week
}

fn date_of(day: i64) -> Date
    requires { IsDay day }
    ensures { epoch_day result ≡ day }
{
    Date::from_unix_epoch_day(day).unwrap()
}

pub(crate) fn calendar_date(day: i64) -> Date
    requires { IsDay day }
    ensures year { result.year ≡ pos (year_of day) }
    ensures month { result.month ≡ month_of day }
    ensures day { result.day ≡ day_of_month day }
{
    date_of(day)
}

pub(crate) fn year_of(day: i64) -> i64
    requires { IsDay day }
    ensures value { result ≡ pos (year_of day) }
    ensures bound { unsigned_abs result < 2 ^ 20 }
{
    date_of(day).year as i64
}

fn number_of(year: i16, month: u8) -> i64
    requires { 1 ≤ month }
    ensures value { result ≡ year *ℤ pos 12 +ℤ pos (month - 1) }
    ensures bound { unsigned_abs result < 2 ^ 20 }
{
    let before = month - 1;
    year as i64 * 12 + before as i64
}

pub(crate) fn month_number(day: i64) -> i64
    requires { IsDay day }
    ensures value { result ≡ month_number day }
    ensures bound { unsigned_abs result < 2 ^ 20 }
{
    let date = date_of(day);
    number_of(date.year, date.month)
}

pub(crate) fn day_number(year: u32, month: u32, day: u32) -> i64
    requires { IsTrue (is_calendar_date year month day) }
    ensures value { result ≡ days_from_civil (pos year) month day }
    ensures bound { unsigned_abs result < 2 ^ 40 }
{
    Date::new(year as i16, month as i8, day as i8)
        .unwrap()
        .to_unix_epoch_day() as i64
}

fn first_day(year: i16, month: i8) -> i64
    requires year { IsBetween (pos 1) (pos 9999) year }
    requires month { IsBetween (pos 1) (pos 12) month }
    ensures value { result ≡ days_from_civil year (unsigned_abs month) 1 }
    ensures bound { unsigned_abs result < 2 ^ 40 }
{
    Date::new(year, month, 1).unwrap().to_unix_epoch_day() as i64
}

fn first_of_month(number: i128) -> Option<i64>
    requires { unsigned_abs number < 2 ^ 100 }
    ensures value { result ≡ first_of_month number }
    ensures bound { IfSome result (λ day. unsigned_abs day < 2 ^ 40) }
{
    let year = number.div_euclid(12);
    if year < 1 {
        return None;
    }
    if 9999 < year {
        return None;
    }
    let month = number.rem_euclid(12) + 1;
    Some(first_day(year as i16, month as i8))
}

pub(crate) fn month_start(number: i128) -> Option<i128>
    requires { unsigned_abs number < 2 ^ 100 }
    ensures { result ≡ month_start number }
{
    let day = first_of_month(number)?;
    Some(first_second(day as i128))
}
