// How many examples passed.
use std::fmt;

/// How many examples were run, and how many of them did not print what they want.
#[derive(Clone, Copy, Debug, PartialEq, Eq)]
pub struct Tally {
    examples: u64,
    failed: u64,
}

impl Tally {
    pub fn new() -> Tally {
        Tally {
            examples: 0,
            failed: 0,
        }
    }

    /// Counts an example.
    pub fn count(&mut self, passed: bool) {
        self.examples = self.examples.saturating_add(1);
        if !passed {
            self.failed = self.failed.saturating_add(1);
        }
    }

    pub fn all_passed(&self) -> bool {
        self.failed == 0
    }
}

impl fmt::Display for Tally {
    fn fmt<W: fmt::Write>(&self, f: &mut fmt::Formatter<W>) -> fmt::Result {
        let Tally { examples, failed } = *self;
        write!(f, "{examples} examples, {failed} failed")
    }
}
