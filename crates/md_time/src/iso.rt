// The ISO texts.
ghost use Rattle.std.specs.Prelude.{◌≡◌, ℕ, ◌<◌, ◌≤◌, ◌^◌, length, IsTrue, IsOk, pos};
ghost use Rattle.md_time.specs.IsoTexts.{stands_for, looks_like, number_after, is_calendar_date, is_date_text, is_time_text, is_plain_distance, is_colon_distance, is_zone_text, is_full_text, is_iso};

use jiff_core::civil::days_in_month;

fn stands_for(pictured: u8, byte: u8) -> bool
    ensures { result ≡ stands_for pictured byte }
{
    match pictured {
        b'0' => byte.is_ascii_digit(),
        b'+' => byte == b'+' || byte == b'-',
        _ => pictured == byte,
    }
}

pub(crate) fn looks_like(picture: &[u8], text: &[u8]) -> bool
    ensures value { result ≡ looks_like picture.now text.now }
    ensures length { IsTrue result → length picture.now ≡ length text.now }
{
    match picture {
        [] => text.is_empty(),
        [pictured, other_pictured @ ..] => match text {
            [] => false,
            [first, rest @ ..] => stands_for(*pictured, *first) && looks_like(other_pictured, rest),
        },
    }
}

pub(crate) fn number(digits: &[u8]) -> u32
    requires { length digits.now ≤ 4 }
    ensures value { result ≡ number_after 0 digits.now }
    ensures bound { result < 2 ^ 20 }
{
    let mut number = 0;
    for digit in digits {
        number = 10 * number + digit.saturating_sub(b'0') as u32;
    }
    number
}

fn is_calendar_date(year: u32, month: u32, day: u32) -> bool
    ensures { result ≡ is_calendar_date year month day }
{
    (1..=9999).contains(&year)
        && (1..=12).contains(&month)
        && 1 <= day
        && day <= days_in_month(year as i16, month as u8) as u32
}

pub(crate) fn is_date_text(text: &[u8]) -> bool
    ensures { result ≡ is_date_text text.now }
{
    looks_like(b"0000-00-00", text)
        && is_calendar_date(
            number(&text[0..4]),
            number(&text[5..7]),
            number(&text[8..10]),
        )
}

fn is_time_text(text: &[u8]) -> bool
    ensures { result ≡ is_time_text text.now }
{
    looks_like(b"T00:00:00", text)
        && number(&text[1..3]) <= 23
        && number(&text[4..6]) <= 59
        && number(&text[7..9]) <= 59
}

fn is_plain_distance(text: &[u8]) -> bool
    ensures { result ≡ is_plain_distance text.now }
{
    looks_like(b"+0000", text) && number(&text[1..3]) <= 23 && number(&text[3..5]) <= 59
}

fn is_colon_distance(text: &[u8]) -> bool
    ensures { result ≡ is_colon_distance text.now }
{
    looks_like(b"+00:00", text) && number(&text[1..3]) <= 23 && number(&text[4..6]) <= 59
}

fn is_zone_text(text: &[u8]) -> bool
    ensures { result ≡ is_zone_text text.now }
{
    looks_like(b"Z", text) || is_plain_distance(text) || is_colon_distance(text)
}

fn are_date_time_and_zone(text: &[u8]) -> bool
    requires { 19 < length text.now }
    ensures { result ≡ is_full_text text.now }
{
    is_date_text(&text[..10]) && is_time_text(&text[10..19]) && is_zone_text(&text[19..])
}

fn is_full_text(text: &[u8]) -> bool
    ensures { result ≡ is_full_text text.now }
{
    19 < text.len() && are_date_time_and_zone(text)
}

pub(crate) fn is_iso(text: &[u8]) -> bool
    ensures { result ≡ is_iso text.now }
{
    is_date_text(text) || is_full_text(text)
}
