// Sources of bytes.
ghost use Rattle.std.specs.Prelude.{◌≡◌, ◌+◌, ◌^◌, ◌<◌, ◌≤◌, ℕ, List, take, IfOk, IfSome, OnOk, IsErrOf, vec_len, Option};
ghost use Rattle.std.specs.Io.{ReadsAtMost};
ghost use Rattle.std.specs.Io.KnownBytes.{ReadConsumes, Consumes, IsAtEnd};
ghost use Rattle.md_source.specs.Causes.{HasCause, Rose};

use crate::Failed;
use std::alloc::Global;

/// A source of bytes.
pub trait Source {
    /// The bytes that are left, where the source tells them.
    ghost left: { Self → Option (List ℕ) };

    /// How often the source has failed.
    ghost failures: { Self → ℕ };

    /// Moves the next bytes into the slice, and says how many. None of a slice that is not empty is the end.
    fn next(&mut self, into: &mut [u8]) -> Result<usize, Failed>
        ensures bound { ReadsAtMost result into.new }
        ensures bytes { ReadConsumes (left self.old) (left self.new) result into.new }
        ensures cause { HasCause (failures self.old) (failures self.new) result };
}

/// Why a source was not read.
#[derive(Clone, Copy, Debug, PartialEq, Eq)]
pub enum SourceEnd {
    /// A call of the source failed.
    Failed,
    /// There was no room for the bytes.
    Memory,
}

/// How many bytes a call of a source is asked for at most.
const CHUNK: usize = 4096;

/// Reads the source to its end, or to one byte past the most that are wanted.
pub fn read_all<S: Source>(alloc: Global, source: &mut S, most: usize) -> Result<Vec<u8>, SourceEnd>
    requires { most < 2 ^ 62 }
    // The bytes are those that were taken, and the source is at its end if they are not more than wanted.
    ensures taken { IfOk result (λ bytes. Consumes (S.left source.old) (S.left source.new) bytes.items) }
    ensures bound { IfOk result (λ bytes. vec_len bytes ≤ most + 1) }
    ensures end { IfOk result (λ bytes. vec_len bytes ≤ most → IsAtEnd (S.left source.new)) }
    ensures bytes { IfOk result (λ bytes. IfSome (S.left source.old) (λ left. bytes.items ≡ take (most + 1) left)) }

    ensures later { S.failures source.old ≤ S.failures source.new }
    ensures failed { IsErrOf result SourceEnd.Failed → Rose (S.failures source.old) (S.failures source.new) }
    ensures memory { IsErrOf result SourceEnd.Memory → S.failures source.new ≡ S.failures source.old }
    ensures kept { OnOk result (S.failures source.new ≡ S.failures source.old) }
{
    let mut bytes = Vec::new(alloc);
    let mut chunk = [0u8; CHUNK];
    while bytes.len() <= most {
        let room = CHUNK.min(most + 1 - bytes.len());
        match source.next(&mut chunk[..room]) {
            Ok(0) => break,
            Ok(count) => match bytes.extend_from_slice(&chunk[..count]) {
                Ok(()) => {}
                Err(_) => return Err(SourceEnd::Memory),
            },
            Err(_) => return Err(SourceEnd::Failed),
        }
    }
    Ok(bytes)
}
