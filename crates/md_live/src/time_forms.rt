// The forms of time of a script whose moments are out of range.
ghost use Rattle.std.specs.Prelude.{◌≡◌};
ghost use Rattle.md_value.specs.Values.{IsMoment};
ghost use Rattle.md_live.specs.TimeForms.{form_out, out_of_range};

use crate::moments::time_of;
use md_match::first_out_of_range;
use md_script::{Line, What};
use md_time::LocalTime;

// The number of the first form of time of a line whose moment is out of range, resolved from a local time.
fn form_out(local: &LocalTime, what: &What) -> Option<u32>
    ensures { result ≡ form_out local.now.moment local.now.offset what.now }
{
    match what {
        What::Query { expr, .. } => first_out_of_range(expr, local.moment, local.offset),
        _ => None,
    }
}

/// The number of the first line with a form of time whose moment is out of range, and the form's number in the line, from 1,
/// in a run that began at a local time. Takes no memory.
pub fn out_of_range(start: &LocalTime, lines: &[Line]) -> Option<(u32, u32)>
    requires { IsMoment start.now.moment }
    ensures { result ≡ out_of_range start.now.moment start.now.offset lines.now }
{
    for line in lines {
        let local = time_of(start, line.at_ms);
        if let Some(form) = form_out(&local, &line.what) {
            return Some((line.number, form));
        }
    }
    None
}
