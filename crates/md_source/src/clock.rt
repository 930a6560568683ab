// Clocks.
ghost use Rattle.std.specs.Prelude.{◌≡◌, ℤ, ℕ, IfOk, IfSome, Option, Ok, Some};
ghost use Rattle.md_value.specs.Values.{IsMoment};
ghost use Rattle.md_source.specs.Causes.{HasCause};
ghost use Rattle.md_source.specs.Memory.{FollowsPlan, new_plan};

use crate::Failed;
use crate::failure::Plan;
use std::marker::Model;

/// A clock.
pub trait Clock {
    /// The moment that it shows, where the clock tells it. No call changes it.
    ghost moment: { Self → Option ℤ };

    /// How often the clock has failed.
    ghost failures: { Self → ℕ };

    /// The moment now, in seconds since 1970 in UTC.
    fn now(&mut self) -> Result<i64, Failed>
        ensures range { IfOk result IsMoment }
        ensures known { IfOk result (λ now. IfSome (moment self.old) (λ known. now ≡ known)) }
        ensures moment { moment self.new ≡ moment self.old }
        ensures cause { HasCause (failures self.old) (failures self.new) result };
}

/// A clock in memory that shows one moment and never fails.
#[derive(Debug, Drop)]
pub struct SureClock {
    now: i64,
}

impl Model for SureClock {
    ghost use Rattle.std.specs.Prelude.{ℤ};
    ghost use Rattle.md_value.specs.Values.{IsMoment};

    ghost Value = { ℤ };

    ghost view = { λ c. c.now };

    ghost invariant = { λ c. IsMoment c.now };
}

impl SureClock {
    /// A clock that shows this moment.
    pub fn new(now: i64) -> SureClock
        requires { IsMoment now }
        ensures { result ≡ now }
    {
        SureClock { now }
    }
}

impl Clock for SureClock {
    ghost moment = { λ c. Some c };

    ghost failures = { λ c. 0 };

    fn now(&mut self) -> Result<i64, Failed>
        ensures range { IfOk result IsMoment }
        ensures now { result ≡ Ok self.old }
        ensures same { self.new ≡ self.old }
    {
        Ok(self.now)
    }
}

/// A clock in memory that shows one moment and fails in the calls that are listed, which are numbered from 0.
#[derive(Debug, Drop)]
pub struct MemoryClock {
    clock: SureClock,
    plan: Plan,
}

impl Model for MemoryClock {
    ghost use Rattle.md_source.specs.Memory.{PlannedMoment};

    ghost Value = { PlannedMoment };

    ghost view = { λ c. record { moment = c.clock; plan = c.plan } };
}

impl MemoryClock {
    /// A clock that shows this moment, whose calls of these numbers fail.
    pub fn new(now: i64, fails: Vec<u64>) -> MemoryClock
        requires { IsMoment now }
        ensures { result ≡ record { moment = now; plan = new_plan fails.items } }
    {
        MemoryClock {
            clock: SureClock::new(now),
            plan: Plan::new(fails),
        }
    }
}

impl Clock for MemoryClock {
    ghost moment = { λ c. Some c.moment };

    ghost failures = { λ c. c.plan.failures };

    fn now(&mut self) -> Result<i64, Failed>
        ensures range { IfOk result IsMoment }
        ensures now { IfOk result (λ now. now ≡ self.old.moment) }
        ensures moment { self.new.moment ≡ self.old.moment }
        ensures plan { FollowsPlan self.old.plan self.new.plan result }
    {
        self.plan.call()?;
        self.clock.now()
    }
}
