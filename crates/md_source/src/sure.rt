// Sources and sinks in memory that never fail.
ghost use Rattle.std.specs.Prelude.{◌≡◌, ◌+◌, ◌<◌, ◌≤◌, length, min, IsOk, IfOk, OnOk, MatchResult, [], Some};
ghost use Rattle.std.specs.Io.{ReadsAtMost, WritesAtMost};
ghost use Rattle.std.specs.Io.KnownBytes.{ReadConsumes, WriteAppends};
ghost use Rattle.md_source.specs.Causes.{HasCause};

use crate::{Failed, Sink, Source};
use std::alloc::{AllocError, Global};
use std::marker::Model;

/// A source over bytes in memory that gives at most a piece in one call and never fails.
#[derive(Debug, Drop)]
pub struct SureSource {
    bytes: Vec<u8>,
    at: usize,
    piece: usize,
}

impl Model for SureSource {
    ghost use Rattle.std.specs.Prelude.{drop, ◌≤◌, vec_len};
    ghost use Rattle.md_source.specs.Memory.{Feed};

    ghost Value = { Feed };

    ghost view = { λ s. record { left = drop s.at s.bytes.items; piece = s.piece } };

    ghost invariant = { λ s. (s.at ≤ vec_len s.bytes) × (1 ≤ s.piece) };
}

impl SureSource {
    /// A source of these bytes.
    pub fn new(bytes: Vec<u8>, piece: usize) -> SureSource
        requires { 1 ≤ piece }
        ensures { result ≡ record { left = bytes.items; piece = piece } }
    {
        SureSource {
            bytes,
            at: 0,
            piece,
        }
    }
}

impl Source for SureSource {
    ghost left = { λ s. Some s.left };

    ghost failures = { λ s. 0 };

    fn next(&mut self, into: &mut [u8]) -> Result<usize, Failed>
        ensures bound { ReadsAtMost result into.new }
        ensures bytes { ReadConsumes (Some self.old.left) (Some self.new.left) result into.new }
        ensures cause { HasCause 0 0 result }
        ensures sure { IsOk result }
        ensures count { IfOk result (λ count. count ≡ min (length into.old) (min self.old.piece (length self.old.left))) }
        ensures piece { self.new.piece ≡ self.old.piece }
    {
        let count = into.len().min(self.piece.min(self.bytes.len() - self.at));
        into[..count].copy_from_slice(&self.bytes[self.at..self.at + count]);
        self.at += count;
        Ok(count)
    }
}

/// A sink in memory that takes at most a piece in one put and never fails.
#[derive(Debug, Drop)]
pub struct SureSink {
    bytes: Vec<u8>,
    spare: usize,
    piece: usize,
}

impl Model for SureSink {
    ghost use Rattle.std.specs.Prelude.{◌+◌, ◌≤◌, vec_len, vec_capacity};
    ghost use Rattle.md_source.specs.Memory.{Drain};

    ghost Value = { Drain };

    ghost view = { λ s. record { taken = s.bytes.items; spare = s.spare; piece = s.piece } };

    ghost invariant = { λ s. (vec_len s.bytes + s.spare ≤ vec_capacity s.bytes) × (1 ≤ s.piece) };
}

impl SureSink {
    /// A sink that has taken nothing.
    pub fn new(alloc: Global, piece: usize) -> SureSink
        requires { 1 ≤ piece }
        ensures { result ≡ record { taken = []; spare = 0; piece = piece } }
    {
        SureSink {
            bytes: Vec::new(alloc),
            spare: 0,
            piece,
        }
    }

    /// The bytes that were taken.
    pub fn taken(&self) -> &[u8]
        ensures { result.now ≡ self.now.taken }
    {
        self.bytes.as_slice()
    }
}

impl Sink for SureSink {
    ghost taken = { λ s. Some s.taken };

    ghost spare = { λ s. s.spare };

    ghost failures = { λ s. 0 };

    fn reserve(&mut self, more: usize) -> Result<(), AllocError>
        ensures room { OnOk result (more ≤ self.new.spare) }
        ensures taken { self.new.taken ≡ self.old.taken }
        ensures piece { self.new.piece ≡ self.old.piece }
    {
        self.bytes.reserve(more)?;
        self.spare = self.spare.max(more);
        Ok(())
    }

    fn put(&mut self, piece: &[u8]) -> Result<usize, Failed>
        requires { length piece.now ≤ self.old.spare }
        ensures bound { WritesAtMost result piece.now }
        ensures some { IfOk result (λ count. 0 < length piece.now → 0 < count) }
        ensures bytes { WriteAppends (Some self.old.taken) (Some self.new.taken) result piece.now }
        ensures room { MatchResult result (λ count. self.new.spare + count ≡ self.old.spare) (λ _. self.new.spare ≡ self.old.spare) }
        ensures cause { HasCause 0 0 result }
        ensures sure { IsOk result }
        ensures count { IfOk result (λ count. count ≡ min (length piece.now) self.old.piece) }
        ensures piece { self.new.piece ≡ self.old.piece }
    {
        let count = piece.len().min(self.piece);
        self.bytes.extend_from_slice(&piece[..count]).unwrap();
        self.spare -= count;
        Ok(count)
    }
}
