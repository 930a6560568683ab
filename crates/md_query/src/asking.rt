// What a query is asked and answers, and what its batches say.
ghost use Rattle.std.specs.Prelude.{◌≡◌};
ghost use Rattle.md_machine.specs.Steps.{most_hits, reaches, is_due};

use md_machine::{Batch, Reply};

/// What a query is asked.
#[derive(Clone, Copy, Debug, Drop)]
pub enum Ask {
    /// For its next hits.
    Gather,
    /// To disable updates once more.
    Disable,
    /// To match a disable.
    Enable,
    /// For what changed since.
    Poll,
}

/// What an answer makes of the query.
#[derive(Debug, Drop)]
pub enum Effect {
    /// It stays as it is.
    Keep,
    /// So many hits are given.
    Give(usize),
    /// Gathering is finished at this moment, in milliseconds.
    Finish(u64),
    /// So many disables are not matched.
    Count(u32),
    /// This version is the base, delivered at this moment with no disable left.
    Deliver(u32, u64),
}

/// A reply with its effect.
pub(crate) type QueryReply = (Reply, Effect);

/// The greatest number of hits in the next part, after so many were given.
pub(crate) fn most_hits(batch: &Batch, given: usize) -> Option<u32>
    ensures { result ≡ most_hits batch.now given }
{
    if given == 0 {
        batch.first
    } else {
        batch.progress
    }
}

fn reaches_count(n: usize, least: Option<u32>) -> bool
    ensures { result ≡ reaches n least }
{
    match least {
        None => false,
        Some(least) => least as usize <= n,
    }
}

fn reaches_time(n: u64, least: Option<u64>) -> bool
    ensures { result ≡ reaches n least }
{
    match least {
        None => false,
        Some(least) => least <= n,
    }
}

/// Whether an update of so many items is due, so many milliseconds after the last delivery.
pub(crate) fn is_due(batch: &Batch, items: usize, passed: u64) -> bool
    ensures { result ≡ is_due batch.now items passed }
{
    items > 0
        && ((batch.update.is_none() && batch.ms.is_none())
            || reaches_count(items, batch.update)
            || reaches_time(passed, batch.ms))
}
