// The moments of ISO texts.
ghost use Rattle.std.specs.Prelude.{◌≡◌, ◌<◌, ◌≤◌, ◌^◌, ◌+ℤ◌, ◌-ℤ◌, ◌*ℤ◌, length, IsTrue, pos, unsigned_abs, take, drop, Some, None};
ghost use Rattle.std.specs.Result.{MatchResult};
ghost use Rattle.md_time.specs.IsoTexts.{is_date_text, is_time_text, is_zone_text, is_full_text, is_iso};
ghost use Rattle.md_time.specs.Moments.{date_day, time_second, distance, zone_offset, first_second, full_moment, iso_moment, in_range, read_as};

use crate::days::day_number;
use crate::iso::{is_date_text, is_iso, looks_like, number};
use crate::range::in_range;

/// A text is not an ISO text, or its moment is not in the years 0001 to 9999.
#[derive(Clone, Copy, Debug, PartialEq, Eq)]
pub struct NotDate;

#[tactic(auto, unfolding(crate::specs::Moments::date_day))]
fn date_day(date: &[u8]) -> i64
    requires { IsTrue (is_date_text date.now) }
    ensures value { result ≡ date_day date.now }
    ensures bound { unsigned_abs result < 2 ^ 40 }
{
    day_number(
        number(&date[0..4]),
        number(&date[5..7]),
        number(&date[8..10]),
    )
}

#[tactic(auto, unfolding(crate::specs::Moments::time_second))]
fn time_second(time: &[u8]) -> u32
    requires { 9 ≤ length time.now }
    ensures { result ≡ time_second time.now }
{
    3600 * number(&time[1..3]) + 60 * number(&time[4..6]) + number(&time[7..9])
}

#[tactic(auto, unfolding(crate::specs::Moments::distance))]
fn distance(zone: &[u8]) -> u32
    requires { 5 ≤ length zone.now }
    ensures { result ≡ distance zone.now }
{
    60 * number(&zone[1..3]) + number(&zone[zone.len() - 2..])
}

#[tactic(auto, unfolding(crate::specs::Moments::zone_offset))]
fn zone_offset(zone: &[u8]) -> i64
    requires { IsTrue (is_zone_text zone.now) }
    ensures value { result ≡ zone_offset zone.now }
    ensures bound { unsigned_abs result < 2 ^ 40 }
{
    if looks_like(b"Z", zone) {
        return 0;
    }
    let minutes = distance(zone) as i64;
    if zone[0] == b'-' { -minutes } else { minutes }
}

fn date_alone(day: i64, offset: i32) -> i64
    requires { unsigned_abs day < 2 ^ 40 }
    ensures value { result ≡ first_second day -ℤ pos 60 *ℤ offset }
    ensures bound { unsigned_abs result < 2 ^ 60 }
{
    day * 86_400 - 60 * offset as i64
}

fn date_and_time(day: i64, second: u32, zone: i64) -> i64
    requires day { unsigned_abs day < 2 ^ 40 }
    requires zone { unsigned_abs zone < 2 ^ 40 }
    ensures value { result ≡ first_second day +ℤ pos second -ℤ pos 60 *ℤ zone }
    ensures bound { unsigned_abs result < 2 ^ 60 }
{
    day * 86_400 + second as i64 - 60 * zone
}

fn full_moment(text: &[u8]) -> i64
    requires long { 19 ≤ length text.now }
    requires date { IsTrue (is_date_text (take 10 text.now)) }
    requires zone { IsTrue (is_zone_text (drop 19 text.now)) }
    ensures value { result ≡ full_moment text.now }
    ensures bound { unsigned_abs result < 2 ^ 60 }
{
    let day = date_day(&text[..10]);
    let second = time_second(&text[10..19]);
    let zone = zone_offset(&text[19..]);
    date_and_time(day, second, zone)
}

fn iso_moment(text: &[u8], offset: i32) -> i64
    requires { IsTrue (is_iso text.now) }
    ensures value { result ≡ iso_moment text.now offset }
    ensures bound { unsigned_abs result < 2 ^ 60 }
{
    if is_date_text(text) {
        date_alone(date_day(text), offset)
    } else {
        full_moment(text)
    }
}

pub(crate) fn iso_moment_in_range(text: &[u8], offset: i32) -> Option<i64>
    requires { IsTrue (is_iso text.now) }
    ensures { result ≡ in_range (iso_moment text.now offset) }
{
    in_range(iso_moment(text, offset) as i128)
}

#[tactic(auto, unfolding(crate::specs::Moments::read_as))]
fn read(text: &[u8], offset: i32) -> Option<i64>
    ensures { result ≡ read_as text.now offset }
{
    if !is_iso(text) {
        return None;
    }
    iso_moment_in_range(text, offset)
}

/// The moment of an ISO text, in seconds since 1970 in UTC. A date alone is the first second of that
/// day at `offset`, in minutes by which local time is ahead of UTC. It takes no memory.
///
/// `NotDate` comes exactly where the text is not an ISO text or its moment is outside `LOW` to `HIGH`.
pub fn read_moment(text: &str, offset: i32) -> Result<i64, NotDate>
    ensures { MatchResult result
        (λ moment. read_as text.now offset ≡ Some moment)
        (λ _. read_as text.now offset ≡ None) }
{
    match read(text.as_bytes(), offset) {
        Some(moment) => Ok(moment),
        None => Err(NotDate),
    }
}
