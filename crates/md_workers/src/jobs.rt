// The jobs of a run.
ghost use Rattle.std.specs.Prelude.{◌≡◌, ◌<◌, List, length, slice_get, IfOk, IfSome};
ghost use Rattle.md_merge.specs.Jobs.{Job};

use md_value::Path;
use md_world::Change;
use std::alloc::{AllocError, Global};

/// The jobs of a run, counted from 0, which several threads look at.
pub trait Jobs {
    /// For each its path, and the change that it commits.
    ghost jobs: { Self → List Job };

    /// How many there are.
    fn count(&self) -> u32
        ensures { result ≡ length (jobs self.now) };

    /// A job's path.
    ///
    /// # Errors
    ///
    /// Memory is refused.
    fn path(&self, alloc: Global, number: u32) -> Result<Path, AllocError>
        requires { number < length (jobs self.now) }
        ensures { IfOk result (λ path. IfSome (slice_get (jobs self.now) number) (λ job. path ≡ job.path)) };

    /// The change that a job commits, or `None` where it closes its ticket. This may take long, and threads do it side by side.
    ///
    /// # Errors
    ///
    /// Memory is refused.
    fn change(&self, alloc: Global, number: u32) -> Result<Option<Change>, AllocError>
        requires { number < length (jobs self.now) }
        ensures { IfOk result (λ change. IfSome (slice_get (jobs self.now) number) (λ job. change ≡ job.change)) };
}
