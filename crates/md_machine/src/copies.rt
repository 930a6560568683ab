// Copies of specs and replies.
ghost use Rattle.std.specs.Prelude.{◌≡◌, IfOk, IsOk, OnErr, true, false};
ghost use Rattle.md_machine.specs.Replies.{delivers, takes_memory};

use crate::{Reply, Spec};
use md_value::Copied;
use std::alloc::{AllocError, Global};

impl Copied for Spec {
    fn copy(&self, alloc: Global) -> Result<Spec, AllocError> {
        Ok(Spec {
            expr: self.expr.copy(alloc)?,
            now: self.now,
            offset: self.offset,
            scope: self.scope.copy(alloc)?,
            order: self.order.copy(alloc)?,
            batch: self.batch,
        })
    }
}

impl Reply {
    /// A copy of a reply that hands out no rows. Takes no memory.
    pub fn plain_copy(&self) -> Reply
        requires { delivers self.now ≡ false }
        ensures { result ≡ self.now }
    {
        match self {
            Reply::Ticket(n) => Reply::Ticket(*n),
            Reply::Committed(n) => Reply::Committed(*n),
            Reply::Superseded(n) => Reply::Superseded(*n),
            Reply::Created(n) => Reply::Created(*n),
            Reply::AlreadyFinished(n) => Reply::AlreadyFinished(*n),
            Reply::Held(n) => Reply::Held(*n),
            Reply::Disabled(n) => Reply::Disabled(*n),
            Reply::StillDisabled(n) => Reply::StillDisabled(*n),
            Reply::NotYet(n) => Reply::NotYet(*n),
            Reply::TicketsSpent => Reply::TicketsSpent,
            Reply::StoreFull => Reply::StoreFull,
            Reply::NoTicket => Reply::NoTicket,
            Reply::Closed => Reply::Closed,
            Reply::Taken => Reply::Taken,
            Reply::TooMany => Reply::TooMany,
            Reply::NotFinished => Reply::NotFinished,
            Reply::TooDeep => Reply::TooDeep,
            Reply::Resumed => Reply::Resumed,
            Reply::NotDisabled => Reply::NotDisabled,
            Reply::Stopped => Reply::Stopped,
            Reply::NoQuery => Reply::NoQuery,
            Reply::Vacuumed => Reply::Vacuumed,
            Reply::Memory => Reply::Memory,
            Reply::Progress(_) | Reply::Finished(_, _) | Reply::Notice(_) => Reply::Memory,
        }
    }
}

impl Copied for Reply {
    /// A reply that hands out no rows is copied without memory.
    fn copy(&self, alloc: Global) -> Result<Reply, AllocError>
        ensures copied { IfOk result (λ copied. copied ≡ self.now) }
        ensures plain { delivers self.now ≡ false → IsOk result }
        ensures memory { OnErr result (takes_memory self.now ≡ true) }
    {
        Ok(match self {
            Reply::Progress(part) => Reply::Progress(part.copy(alloc)?),
            Reply::Finished(part, base) => Reply::Finished(part.copy(alloc)?, *base),
            Reply::Notice(notice) => Reply::Notice(notice.copy(alloc)?),
            plain => plain.plain_copy(),
        })
    }
}
