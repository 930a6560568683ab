// Faults and their counts.
ghost use Rattle.std.specs.Prelude.{◌≡◌, ◌+◌, ◌-◌, ◌^◌, ◌≤◌, min};
ghost use Rattle.md_source.specs.Memory.{FollowsPlan};

use std::marker::Model;

/// The outside failed.
#[derive(Clone, Copy, Debug, PartialEq, Eq)]
pub struct Failed;

/// Counts a failure. A count at its type's end stands.
pub(crate) fn count_failure(failures: &mut u64) -> Failed
    ensures later { failures.old ≤ failures.new }
    ensures count { failures.new ≡ min (failures.old + 1) (2 ^ 64 - 1) }
{
    *failures = failures.saturating_add(1);
    Failed
}

/// Calls that are numbered from 0 and fail where their number is listed.
#[derive(Debug, Drop)]
pub(crate) struct Plan {
    fails: Vec<u64>,
    calls: u64,
    failures: u64,
}

impl Model for Plan {
    ghost use Rattle.md_source.specs.Memory.{Plan};

    ghost Value = { Plan };

    ghost view = { λ p. record { fails = p.fails.items; calls = p.calls; failures = p.failures } };
}

impl Plan {
    pub(crate) fn new(fails: Vec<u64>) -> Plan
        ensures { result ≡ record { fails = fails.items; calls = 0; failures = 0 } }
    {
        Plan {
            fails,
            calls: 0,
            failures: 0,
        }
    }

    /// Makes the next call.
    pub(crate) fn call(&mut self) -> Result<(), Failed>
        ensures { FollowsPlan self.old self.new result }
    {
        let call = self.calls;
        self.calls = call.saturating_add(1);
        if self.fails.contains(&call) {
            return Err(count_failure(&mut self.failures));
        }
        Ok(())
    }
}
