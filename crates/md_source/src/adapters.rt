// The source and the sink over a reader and a writer of the library.
ghost use Rattle.std.specs.Prelude.{◌≡◌, ◌≤◌, IsOk, OnOk};
ghost use Rattle.md_source.specs.Adapters.{reader_of, reader_failures, writer_of, writer_spare, writer_failures};

use crate::failure::count_failure;
use crate::{Failed, Sink, Source};
use std::alloc::AllocError;
use std::io::{Read, Write};

/// A source over a reader. Each call is one read, and a read that fails is a failure.
#[derive(Drop)]
pub struct Reading<R> {
    inner: R,
    failures: u64,
}

impl<R: Read> Reading<R> {
    /// A source over the reader, with no failure yet.
    pub fn new(inner: R) -> Reading<R>
        ensures reader { reader_of result ≡ inner }
        ensures failures { reader_failures result ≡ 0 }
    {
        Reading { inner, failures: 0 }
    }
}

impl<R: Read> Source for Reading<R> {
    ghost left = { λ s. R.remaining (reader_of s) };

    ghost failures = { reader_failures };

    fn next(&mut self, into: &mut [u8]) -> Result<usize, Failed> {
        match self.inner.read(into) {
            Ok(count) => Ok(count),
            Err(_) => Err(count_failure(&mut self.failures)),
        }
    }
}

/// A sink over a writer. It never refuses room, and each put is one write. A write that fails or that takes
/// nothing of a nonempty piece is a failure.
#[derive(Drop)]
pub struct Writing<W> {
    inner: W,
    spare: usize,
    failures: u64,
}

impl<W: Write> Writing<W> {
    /// A sink over the writer, with no failure yet.
    pub fn new(inner: W) -> Writing<W>
        ensures writer { writer_of result ≡ inner }
        ensures failures { writer_failures result ≡ 0 }
    {
        Writing {
            inner,
            spare: 0,
            failures: 0,
        }
    }
}

impl<W: Write> Sink for Writing<W> {
    ghost taken = { λ s. W.contents (writer_of s) };

    ghost spare = { writer_spare };

    ghost failures = { writer_failures };

    fn reserve(&mut self, more: usize) -> Result<(), AllocError>
        ensures sure { IsOk result }
        ensures room { OnOk result (more ≤ writer_spare self.new) }
        ensures taken { W.contents (writer_of self.new) ≡ W.contents (writer_of self.old) }
        ensures failures { writer_failures self.new ≡ writer_failures self.old }
    {
        self.spare = self.spare.max(more);
        Ok(())
    }

    fn put(&mut self, piece: &[u8]) -> Result<usize, Failed> {
        match self.inner.write(piece) {
            Ok(count) if count > 0 || piece.is_empty() => {
                self.spare -= count;
                Ok(count)
            }
            _ => Err(count_failure(&mut self.failures)),
        }
    }
}
