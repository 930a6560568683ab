// Calls in threads of their own.
ghost use Rattle.std.specs.Prelude.{All, IfOk};
ghost use Rattle.md_workers.specs.Teams.{InPairs};

use std::alloc::AllocError;
use std::sync::Wait;
use std::thread::{Threads, map_vec};

/// What several threads call at once.
pub trait Runs<X, Y> {
    /// What it may be called with.
    ghost takes: { Self → X → Type 0 };

    /// What it then gives.
    ghost gives: { Self → X → Y → Type 0 };

    /// The call.
    fn run<R: Wait>(&self, rt: &R, job: X) -> Y
        requires { takes self.now job }
        ensures { gives self.now job result };
}

/// Calls it with each of the jobs, in a thread of its own, and waits for all. The results come in the order of the jobs.
///
/// Fails only where memory is refused.
pub fn spread<R: Threads + Wait + Sync, X: Send + Drop, Y: Send + Drop, S: Runs<X, Y> + Sync>(
    rt: &R,
    shared: &S,
    jobs: Vec<X>,
) -> Result<Vec<Y>, AllocError>
    requires { All (S.takes shared.now) jobs.items }
    ensures { IfOk result (λ results. InPairs (S.gives shared.now) jobs.items results.items) }
{
    map_vec(
        rt,
        jobs,
        &|job: X| -> Y
            requires { S.takes shared.now job }
            ensures { S.gives shared.entry.now job result }
        { shared.run(rt, job) },
    )
}
