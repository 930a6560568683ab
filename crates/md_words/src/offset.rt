// The offset of local time.
ghost use Rattle.std.specs.Prelude.{◌≡◌, ◌<◌, IfSome, unsigned_abs};
ghost use Rattle.md_words.specs.Offsets.{two_digits, minutes_of, signed, offset_of};

// The number below the limit that two digits write.
fn two_digits(limit: u32, tens: u8, units: u8) -> Option<u32>
    ensures value { result ≡ two_digits limit tens units }
    ensures below { IfSome result (λ n. n < limit) }
{
    if !tens.is_ascii_digit() || !units.is_ascii_digit() {
        return None;
    }
    let number = 10 * (tens - b'0') as u32 + (units - b'0') as u32;
    if number < limit { Some(number) } else { None }
}

// The minutes of `HHMM`.
#[tactic(auto, unfolding(crate::specs::Offsets::minutes_of))]
fn minutes_of(h: u8, hh: u8, m: u8, mm: u8) -> Option<u32>
    ensures value { result ≡ minutes_of h hh m mm }
    ensures below { IfSome result (λ n. n < 1440) }
{
    let hours = two_digits(24, h, hh)?;
    let minutes = two_digits(60, m, mm)?;
    Some(60 * hours + minutes)
}

fn with_sign(sign: u8, minutes: u32) -> Option<i32>
    requires { minutes < 1440 }
    ensures value { result ≡ signed sign minutes }
    ensures bound { IfSome result (λ offset. unsigned_abs offset < 1440) }
{
    match sign {
        b'+' => Some(minutes as i32),
        b'-' => Some(-(minutes as i32)),
        _ => None,
    }
}

/// The minutes by which local time is ahead of UTC, as the word writes them: `Z`, `+HHMM`, `-HHMM`, `+HH:MM` or `-HH:MM`.
#[tactic(auto, unfolding(crate::specs::Offsets::offset_of))]
pub fn offset_of(word: &str) -> Option<i32>
    ensures value { result ≡ offset_of word.now }
    ensures bound { IfSome result (λ offset. unsigned_abs offset < 1440) }
{
    match word.as_bytes() {
        [b'Z'] => Some(0),
        [sign, h, hh, m, mm] => with_sign(*sign, minutes_of(*h, *hh, *m, *mm)?),
        [sign, h, hh, b':', m, mm] => with_sign(*sign, minutes_of(*h, *hh, *m, *mm)?),
        _ => None,
    }
}
