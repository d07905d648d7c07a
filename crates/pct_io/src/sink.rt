//! Byte sinks.
ghost use Rattle.std.specs.Prelude.{ℕ, List, Option, IfOk};
ghost use Rattle.std.specs.Io.KnownBytes.{WriteAppends};
ghost use Rattle.pct_io.specs.ErrorCounts.{HasCause};
ghost use Rattle.pct_io.specs.Inners.{Inner, KeepsInners};
ghost use Rattle.pct_io.specs.Sinks.{Accepts};

use crate::Failed;

/// A byte sink that counts its errors.
pub trait Sink {
    /// The bytes written so far, or `None` where the sink does not report them.
    ghost written: { Self → Option (List ℕ) };

    /// The number of errors so far, which stops at 18446744073709551615.
    ghost errors: { Self → ℕ };

    /// The sinks that this one writes to, outermost first. A device has none. A buffered sink has the sink that it
    /// wraps, followed by the inner sinks of that sink.
    ghost inners: { Self → List Inner };

    /// Writes a prefix of `piece` and returns its length, which is at least 1 unless `piece` is empty. `Failed` means
    /// that the sink recorded one error and that, of the bytes that it reports, none was written.
    fn write(&mut self, piece: &[u8]) -> Result<usize, Failed>
        ensures bound { IfOk result (λ n. Accepts n piece.now) }
        ensures bytes { WriteAppends (written self.old) (written self.new) result piece.now }
        ensures cause { HasCause (errors self.old) (errors self.new) result }
        ensures inners { KeepsInners (inners self.old) (inners self.new) };
}
