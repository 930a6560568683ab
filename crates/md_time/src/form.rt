// Time forms.
ghost use Rattle.std.specs.Prelude.{◌≡◌, ◌<◌, ◌^◌, pos, ◌+ℤ◌, ◌*ℤ◌, unsigned_abs, Some, None};
ghost use Rattle.std.specs.Result.{MatchResult};
ghost use Rattle.md_time.specs.Moments.{day_of, first_second, monday_of, month_number, month_start, year_of, from_now, in_range, iso_moment, moment_of};

use crate::IsoText;
use crate::days::{day_of, first_second, monday_of, month_number, month_start, year_of};
use crate::iso_moment::iso_moment_in_range;
use crate::range::{local_second, to_moment};

/// A time form: a moment that is resolved from the local time of now, or by a text.
#[derive(Clone, Copy, Debug, PartialEq, Eq)]
pub enum Form {
    /// So many seconds after now.
    Now(i64),
    /// The first second of the day so many days after today.
    Day(i64),
    /// The first second of the Monday so many weeks after the one on or before today.
    Week(i64),
    /// The first second of the month so many months after this one.
    Month(i64),
    /// The first second of the year so many years after this one.
    Year(i64),
    /// The moment of an ISO text.
    Iso(IsoText),
}

/// The moment of a time form, or a second on the way to it, is not in the years 0001 to 9999.
#[derive(Clone, Copy, Debug, PartialEq, Eq)]
pub struct OutOfRange;

fn seconds_after(second: i64, count: i64) -> i128
    ensures { result ≡ second +ℤ count }
{
    second as i128 + count as i128
}

fn days_after(day: i64, count: i64) -> i128
    ensures value { result ≡ day +ℤ count }
    ensures bound { unsigned_abs result < 2 ^ 80 }
{
    day as i128 + count as i128
}

fn weeks_after(day: i64, count: i64) -> i128
    ensures value { result ≡ day +ℤ pos 7 *ℤ count }
    ensures bound { unsigned_abs result < 2 ^ 80 }
{
    day as i128 + 7 * count as i128
}

fn months_after(number: i64, count: i64) -> i128
    ensures value { result ≡ number +ℤ count }
    ensures bound { unsigned_abs result < 2 ^ 100 }
{
    number as i128 + count as i128
}

fn january_after(year: i64, count: i64) -> i128
    ensures value { result ≡ (year +ℤ count) *ℤ pos 12 }
    ensures bound { unsigned_abs result < 2 ^ 100 }
{
    (year as i128 + count as i128) * 12
}

fn from_second(now: i64, offset: i32, count: i64) -> Option<i64>
    ensures { result ≡ from_now now offset (λ l. Some (l +ℤ count)) }
{
    let local = local_second(now, offset)?;
    to_moment(seconds_after(local, count), offset)
}

fn from_day(now: i64, offset: i32, count: i64) -> Option<i64>
    ensures { result ≡ from_now now offset (λ l. Some (first_second (day_of l +ℤ count))) }
{
    let local = local_second(now, offset)?;
    let day = days_after(day_of(local), count);
    to_moment(first_second(day), offset)
}

fn from_week(now: i64, offset: i32, count: i64) -> Option<i64>
    ensures { result ≡ from_now now offset (λ l. Some (first_second (monday_of (day_of l) +ℤ pos 7 *ℤ count))) }
{
    let local = local_second(now, offset)?;
    let day = weeks_after(monday_of(day_of(local)), count);
    to_moment(first_second(day), offset)
}

fn from_month(now: i64, offset: i32, count: i64) -> Option<i64>
    ensures { result ≡ from_now now offset (λ l. month_start (month_number (day_of l) +ℤ count)) }
{
    let local = local_second(now, offset)?;
    let number = months_after(month_number(day_of(local)), count);
    to_moment(month_start(number)?, offset)
}

fn from_year(now: i64, offset: i32, count: i64) -> Option<i64>
    ensures { result ≡ from_now now offset (λ l. month_start ((pos (year_of (day_of l)) +ℤ count) *ℤ pos 12)) }
{
    let local = local_second(now, offset)?;
    let january = january_after(year_of(day_of(local)), count);
    to_moment(month_start(january)?, offset)
}

#[tactic(auto, unfolding(crate::specs::Moments::moment_of))]
fn moment(form: &Form, now: i64, offset: i32) -> Option<i64>
    ensures { result ≡ moment_of form.now now offset }
{
    match form {
        Form::Now(count) => from_second(now, offset, *count),
        Form::Day(count) => from_day(now, offset, *count),
        Form::Week(count) => from_week(now, offset, *count),
        Form::Month(count) => from_month(now, offset, *count),
        Form::Year(count) => from_year(now, offset, *count),
        Form::Iso(text) => from_text(text, offset),
    }
}

fn from_text(text: &IsoText, offset: i32) -> Option<i64>
    ensures { result ≡ in_range (iso_moment text.now offset) }
{
    iso_moment_in_range(text.text().as_bytes(), offset)
}

impl Form {
    /// The same form. It takes no memory.
    pub fn copy(&self) -> Form
        ensures { result ≡ self.now }
    {
        *self
    }

    /// The moment of the form, in seconds since 1970 in UTC, where `now` is such a moment and `offset`
    /// is how many minutes local time is ahead of UTC. It takes no memory.
    ///
    /// Local time goes by days of 86,400 seconds, weeks from Monday and the proleptic Gregorian
    /// calendar. `OutOfRange` comes exactly where the local second of now, the local second that the
    /// form names, or its moment is outside `LOW` to `HIGH`; for an ISO text, where its moment is.
    pub fn moment(&self, now: i64, offset: i32) -> Result<i64, OutOfRange>
        ensures { MatchResult result
            (λ moment. moment_of self.now now offset ≡ Some moment)
            (λ _. moment_of self.now now offset ≡ None) }
    {
        match moment(self, now, offset) {
            Some(moment) => Ok(moment),
            None => Err(OutOfRange),
        }
    }
}
