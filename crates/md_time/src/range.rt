// The range of moments.
ghost use Rattle.std.specs.Prelude.{◌≡◌, pos, ◌+ℤ◌, ◌-ℤ◌, ◌*ℤ◌, unsigned_abs, ◌<◌, ◌^◌, IfSome};
ghost use Rattle.md_value.specs.Values.{IsMoment};
ghost use Rattle.md_time.specs.Moments.{in_range, to_moment, local};

use md_value::{HIGH, LOW};

pub(crate) fn in_range(second: i128) -> Option<i64>
    ensures value { result ≡ in_range second }
    ensures bound { IfSome result IsMoment }
{
    if second < LOW as i128 {
        return None;
    }
    if (HIGH as i128) < second {
        return None;
    }
    Some(second as i64)
}

fn local(moment: i64, offset: i32) -> i128
    ensures { result ≡ local moment offset }
{
    moment as i128 + 60 * offset as i128
}

fn in_utc(local: i64, offset: i32) -> i128
    ensures { result ≡ local -ℤ pos 60 *ℤ offset }
{
    local as i128 - 60 * offset as i128
}

pub(crate) fn local_second(moment: i64, offset: i32) -> Option<i64>
    ensures value { result ≡ in_range (local moment offset) }
    ensures bound { IfSome result IsMoment }
{
    in_range(local(moment, offset))
}

pub(crate) fn to_moment(second: i128, offset: i32) -> Option<i64>
    ensures { result ≡ to_moment offset second }
{
    let second = in_range(second)?;
    in_range(in_utc(second, offset))
}
