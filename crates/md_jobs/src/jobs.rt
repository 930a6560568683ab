// The jobs of a script, which several threads look at.
ghost use Rattle.std.specs.Prelude.{◌≡◌, ◌<◌, ◌^◌, length};

use crate::source::ScriptJob;
use md_value::{Copied, Path};
use md_workers::Jobs;
use md_world::Change;
use std::alloc::{AllocError, Global};
use std::marker::Model;

/// The jobs of a script, counted from 0, in the order of its lines.
#[derive(Drop)]
pub struct ScriptJobs {
    offset: i32,
    jobs: Vec<ScriptJob>,
}

impl Model for ScriptJobs {
    ghost use Rattle.std.specs.Prelude.{◌<◌, ◌^◌, length};
    ghost use Rattle.md_jobs.specs.Sheets.{Sheet};

    ghost Value = { Sheet };

    ghost view = { λ s. record { offset = s.offset; jobs = s.jobs.items } };

    ghost invariant = { λ s. length s.jobs.items < 2 ^ 32 };
}

impl ScriptJobs {
    /// These jobs, fewer than 2 ^ 32. Dates alone are at `offset`, in minutes by which local time is ahead of UTC.
    pub fn new(offset: i32, jobs: Vec<ScriptJob>) -> ScriptJobs
        requires { length jobs.items < 2 ^ 32 }
        ensures { result ≡ record { offset = offset; jobs = jobs.items } }
    {
        ScriptJobs { offset, jobs }
    }

    /// The jobs, in order.
    pub fn jobs(&self) -> &[ScriptJob]
        ensures { result.now ≡ self.now.jobs }
    {
        self.jobs.as_slice()
    }
}

impl Jobs for ScriptJobs {
    ghost use Rattle.std.specs.Prelude.{map};
    ghost use Rattle.md_jobs.specs.Sources.{job_in};

    ghost jobs = { λ s. map (job_in s.offset) s.jobs };

    fn count(&self) -> u32 {
        self.jobs.len() as u32
    }

    fn path(&self, alloc: Global, number: u32) -> Result<Path, AllocError> {
        self.jobs[number as usize].path.copy(alloc)
    }

    fn change(&self, alloc: Global, number: u32) -> Result<Option<Change>, AllocError> {
        self.jobs[number as usize].task.change(alloc, self.offset)
    }
}
