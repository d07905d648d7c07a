//! Sources and sinks over std's streams. They do not report their bytes, since what a read or a write of a real stream
//! did is known to the operating system alone. Their contracts state the counts of errors, and the effect on a reader or
//! a writer whose bytes std's own contracts describe.
ghost use Rattle.std.specs.Prelude.{◌≡◌, [], None, take, IfOk, OnErr};
ghost use Rattle.std.specs.Io.{ReadsAtMost};
ghost use Rattle.std.specs.Io.KnownBytes.{Appends, ReadConsumes};
ghost use Rattle.pct_io.specs.ErrorCounts.{HasCause};
ghost use Rattle.pct_io.specs.Sinks.{AppendsPrefix, Accepts};

use crate::{Failed, Sink, Source};
use std::io::{Read, Write};

/// A source over a reader of std. Each error of the reader is answered with `Failed`, which no clause states; each `Failed`
/// is recorded as one error.
#[derive(Drop)]
pub struct StdSource<R> {
    reader: R,
    errors: u64,
}

impl<R: Read> StdSource<R> {
    /// A source over `reader`, with no error recorded.
    pub fn new(reader: R) -> StdSource<R>
        ensures reader { result.reader ≡ reader }
        ensures errors { result.errors ≡ 0 }
    {
        StdSource { reader, errors: 0 }
    }
}

impl<R: Read> Source for StdSource<R> {
    ghost left = { λ _. None };

    ghost errors = { λ source. source.errors };

    fn read(&mut self, buf: &mut [u8]) -> Result<usize, Failed>
        ensures bound { ReadsAtMost result buf.new }
        ensures passed_on { ReadConsumes (R.remaining self.old.reader) (R.remaining self.new.reader) result buf.new }
        ensures cause { HasCause self.old.errors self.new.errors result }
    {
        match self.reader.read(buf) {
            Ok(count) => Ok(count),
            Err(_) => {
                self.errors = self.errors.saturating_add(1);
                Err(Failed)
            }
        }
    }
}

/// A sink over a writer of std. It flushes the writer after each write, and answers a failed write, a failed flush, and a
/// write that accepts no byte of a non-empty piece with `Failed`; no clause states either. Each `Failed` is recorded as one
/// error. After it the writer may have accepted a prefix of the piece.
#[derive(Drop)]
pub struct StdSink<W> {
    writer: W,
    errors: u64,
}

impl<W: Write> StdSink<W> {
    /// A sink over `writer`, with no error recorded.
    pub fn new(writer: W) -> StdSink<W>
        ensures writer { result.writer ≡ writer }
        ensures errors { result.errors ≡ 0 }
    {
        StdSink { writer, errors: 0 }
    }
}

impl<W: Write> Sink for StdSink<W> {
    ghost written = { λ _. None };

    ghost errors = { λ sink. sink.errors };

    ghost inners = { λ _. [] };

    fn write(&mut self, piece: &[u8]) -> Result<usize, Failed>
        ensures bound { IfOk result (λ n. Accepts n piece.now) }
        ensures passed_on { IfOk result (λ n. Appends (W.contents self.old.writer) (W.contents self.new.writer) (take n piece.now)) }
        ensures err { OnErr result (AppendsPrefix (W.contents self.old.writer) (W.contents self.new.writer) piece.now) }
        ensures cause { HasCause self.old.errors self.new.errors result }
    {
        if let Ok(count) = self.writer.write(piece)
            && (count > 0 || piece.is_empty())
            && self.writer.flush().is_ok()
        {
            return Ok(count);
        }
        self.errors = self.errors.saturating_add(1);
        Err(Failed)
    }
}
