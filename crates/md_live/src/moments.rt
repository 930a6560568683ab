// The local time of a line.
ghost use Rattle.std.specs.Prelude.{◌≡◌};
ghost use Rattle.md_value.specs.Values.{IsMoment};
ghost use Rattle.md_live.specs.Moments.{moment_of};

use md_time::LocalTime;
use md_value::HIGH;

// The moment in seconds since 1970 in UTC of a line at so many milliseconds of a run that began now: at most the end of
// the year 9999.
fn moment_of(now: i64, ms: u64) -> i64
    requires { IsMoment now }
    ensures moment { IsMoment result }
    ensures value { result ≡ moment_of now ms }
{
    now.saturating_add_unsigned(ms / 1_000).min(HIGH)
}

/// The local time of a line at so many milliseconds of a run that began at `start`: at most the end of the year 9999 in UTC.
/// Takes no memory.
pub fn time_of(start: &LocalTime, ms: u64) -> LocalTime
    requires { IsMoment start.now.moment }
    ensures in_range { IsMoment result.moment }
    ensures moment { result.moment ≡ moment_of start.now.moment ms }
    ensures offset { result.offset ≡ start.now.offset }
{
    LocalTime {
        moment: moment_of(start.moment, ms),
        offset: start.offset,
    }
}
