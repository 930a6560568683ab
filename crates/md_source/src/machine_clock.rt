// The machine's clock.
ghost use Rattle.std.specs.Prelude.{◌≡◌, None};
ghost use Rattle.md_source.specs.Adapters.{clock_failures};

use crate::failure::count_failure;
use crate::{Clock, Failed};
use md_value::{HIGH, LOW};
use std::io::ErrorKind;
use std::time::{self, SystemTime, UNIX_EPOCH};

/// The machine's clock. It fails where the system does. A time before 1970 is answered by the beginning of 1970, the nearest
/// moment that the library tells.
#[derive(Drop)]
pub struct MachineClock<R> {
    rt: R,
    failures: u64,
}

impl<R: time::Clock> MachineClock<R> {
    /// The clock, with no failure yet.
    pub fn new(rt: R) -> MachineClock<R>
        ensures { clock_failures result ≡ 0 }
    {
        MachineClock { rt, failures: 0 }
    }
}

// Seconds since 1970, where the library's time begins: of an earlier one it says only that it is.
fn seconds<R: time::Clock>(rt: &R) -> Result<u64, Failed> {
    match SystemTime::now(rt) {
        Ok(now) => match now.duration_since(UNIX_EPOCH) {
            Ok(duration) => Ok(duration.as_secs()),
            Err(_) => Ok(0),
        },
        Err(error) if error.kind() == ErrorKind::InvalidData => Ok(0),
        Err(_) => Err(Failed),
    }
}

impl<R: time::Clock> Clock for MachineClock<R> {
    ghost moment = { λ c. None };

    ghost failures = { clock_failures };

    fn now(&mut self) -> Result<i64, Failed> {
        match seconds(&self.rt) {
            Ok(seconds) => Ok(i64::try_from(seconds).unwrap_or(HIGH).clamp(LOW, HIGH)),
            Err(_) => Err(count_failure(&mut self.failures)),
        }
    }
}
