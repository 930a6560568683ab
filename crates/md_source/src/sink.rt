// Sinks of bytes.
ghost use Rattle.std.specs.Prelude.{◌≡◌, ◌+◌, ◌<◌, ◌≤◌, ℕ, List, length, IfOk, OnOk, MatchResult, Option};
ghost use Rattle.std.specs.Io.{WritesAtMost};
ghost use Rattle.std.specs.Io.KnownBytes.{WriteAppends};
ghost use Rattle.md_source.specs.Causes.{HasCause};

use crate::Failed;
use std::alloc::AllocError;

/// A sink of bytes.
pub trait Sink {
    /// The bytes that were taken, where the sink tells them.
    ghost taken: { Self → Option (List ℕ) };

    /// How many more bytes there is room for.
    ghost spare: { Self → ℕ };

    /// How often the sink has failed.
    ghost failures: { Self → ℕ };

    /// Makes room for that many bytes.
    fn reserve(&mut self, more: usize) -> Result<(), AllocError>
        ensures room { OnOk result (more ≤ spare self.new) }
        ensures taken { taken self.new ≡ taken self.old }
        ensures failures { failures self.new ≡ failures self.old };

    /// Takes the first bytes of the piece, and says how many: some, where the piece is not empty.
    fn put(&mut self, piece: &[u8]) -> Result<usize, Failed>
        requires { length piece.now ≤ spare self.old }
        ensures bound { WritesAtMost result piece.now }
        ensures some { IfOk result (λ count. 0 < length piece.now → 0 < count) }
        ensures bytes { WriteAppends (taken self.old) (taken self.new) result piece.now }
        ensures room { MatchResult result (λ count. spare self.new + count ≡ spare self.old) (λ _. spare self.new ≡ spare self.old) }
        ensures cause { HasCause (failures self.old) (failures self.new) result };
}
