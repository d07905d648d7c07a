//! Byte sources.
ghost use Rattle.std.specs.Prelude.{ℕ, List, Option};
ghost use Rattle.std.specs.Io.{ReadsAtMost};
ghost use Rattle.std.specs.Io.KnownBytes.{ReadConsumes};
ghost use Rattle.pct_io.specs.ErrorCounts.{HasCause};

use crate::Failed;

/// A byte source that counts its errors.
pub trait Source {
    /// The bytes that are not read yet, or `None` where the source does not report them.
    ghost left: { Self → Option (List ℕ) };

    /// The number of errors so far, which stops at 18446744073709551615.
    ghost errors: { Self → ℕ };

    /// Reads the next bytes into the start of `buf` and returns how many were read. The result is 0 only at the end of
    /// the input or where `buf` is empty. `Failed` means that the source recorded one error and that, of the bytes
    /// that it reports, none was consumed.
    fn read(&mut self, buf: &mut [u8]) -> Result<usize, Failed>
        ensures bound { ReadsAtMost result buf.new }
        ensures bytes { ReadConsumes (left self.old) (left self.new) result buf.new }
        ensures cause { HasCause (errors self.old) (errors self.new) result };
}
