// Sources and sinks in memory that fail by a list of call numbers.
ghost use Rattle.std.specs.Prelude.{◌≡◌, ◌+◌, ◌<◌, ◌≤◌, length, min, IfOk, OnOk, MatchResult, [], Some};
ghost use Rattle.std.specs.Io.{ReadsAtMost, WritesAtMost};
ghost use Rattle.std.specs.Io.KnownBytes.{ReadConsumes, WriteAppends};
ghost use Rattle.md_source.specs.Causes.{HasCause};
ghost use Rattle.md_source.specs.Memory.{FollowsPlan, new_plan};

use crate::failure::Plan;
use crate::{Failed, Sink, Source, SureSink, SureSource};
use std::alloc::{AllocError, Global};
use std::marker::Model;

/// A source over bytes in memory. It gives at most a piece in one call, and fails in the calls that are
/// listed, which are numbered from 0.
#[derive(Debug, Drop)]
pub struct MemorySource {
    source: SureSource,
    plan: Plan,
}

impl Model for MemorySource {
    ghost use Rattle.md_source.specs.Memory.{PlannedFeed};

    ghost Value = { PlannedFeed };

    ghost view = { λ s. record { feed = s.source; plan = s.plan } };
}

impl MemorySource {
    /// A source of these bytes, whose calls of these numbers fail.
    pub fn new(bytes: Vec<u8>, piece: usize, fails: Vec<u64>) -> MemorySource
        requires { 1 ≤ piece }
        ensures { result ≡ record { feed = record { left = bytes.items; piece = piece }; plan = new_plan fails.items } }
    {
        MemorySource {
            source: SureSource::new(bytes, piece),
            plan: Plan::new(fails),
        }
    }
}

impl Source for MemorySource {
    ghost left = { λ s. Some s.feed.left };

    ghost failures = { λ s. s.plan.failures };

    fn next(&mut self, into: &mut [u8]) -> Result<usize, Failed>
        ensures bound { ReadsAtMost result into.new }
        ensures bytes { ReadConsumes (Some self.old.feed.left) (Some self.new.feed.left) result into.new }
        ensures cause { HasCause self.old.plan.failures self.new.plan.failures result }
        ensures plan { FollowsPlan self.old.plan self.new.plan result }
        ensures count { IfOk result (λ count. count ≡ min (length into.old) (min self.old.feed.piece (length self.old.feed.left))) }
        ensures piece { self.new.feed.piece ≡ self.old.feed.piece }
    {
        self.plan.call()?;
        self.source.next(into)
    }
}

/// A sink in memory. It takes at most a piece in one put, and fails in the puts that are listed, which are
/// numbered from 0.
#[derive(Debug, Drop)]
pub struct MemorySink {
    sink: SureSink,
    plan: Plan,
}

impl Model for MemorySink {
    ghost use Rattle.md_source.specs.Memory.{PlannedDrain};

    ghost Value = { PlannedDrain };

    ghost view = { λ s. record { drain = s.sink; plan = s.plan } };
}

impl MemorySink {
    /// A sink that has taken nothing, whose puts of these numbers fail.
    pub fn new(alloc: Global, piece: usize, fails: Vec<u64>) -> MemorySink
        requires { 1 ≤ piece }
        ensures { result ≡ record { drain = record { taken = []; spare = 0; piece = piece }; plan = new_plan fails.items } }
    {
        MemorySink {
            sink: SureSink::new(alloc, piece),
            plan: Plan::new(fails),
        }
    }

    /// The bytes that were taken.
    pub fn taken(&self) -> &[u8]
        ensures { result.now ≡ self.now.drain.taken }
    {
        self.sink.taken()
    }
}

impl Sink for MemorySink {
    ghost taken = { λ s. Some s.drain.taken };

    ghost spare = { λ s. s.drain.spare };

    ghost failures = { λ s. s.plan.failures };

    fn reserve(&mut self, more: usize) -> Result<(), AllocError>
        ensures room { OnOk result (more ≤ self.new.drain.spare) }
        ensures taken { self.new.drain.taken ≡ self.old.drain.taken }
        ensures plan { self.new.plan ≡ self.old.plan }
        ensures piece { self.new.drain.piece ≡ self.old.drain.piece }
    {
        self.sink.reserve(more)
    }

    fn put(&mut self, piece: &[u8]) -> Result<usize, Failed>
        requires { length piece.now ≤ self.old.drain.spare }
        ensures bound { WritesAtMost result piece.now }
        ensures some { IfOk result (λ count. 0 < length piece.now → 0 < count) }
        ensures bytes { WriteAppends (Some self.old.drain.taken) (Some self.new.drain.taken) result piece.now }
        ensures room { MatchResult result (λ count. self.new.drain.spare + count ≡ self.old.drain.spare) (λ _. self.new.drain.spare ≡ self.old.drain.spare) }
        ensures cause { HasCause self.old.plan.failures self.new.plan.failures result }
        ensures plan { FollowsPlan self.old.plan self.new.plan result }
        ensures count { IfOk result (λ count. count ≡ min (length piece.now) self.old.drain.piece) }
        ensures piece { self.new.drain.piece ≡ self.old.drain.piece }
    {
        self.plan.call()?;
        self.sink.put(piece)
    }
}
