//! Buffered output.
ghost use Rattle.std.specs.Prelude.{◌≡◌, ◌<◌, [], length, IfOk, OnOk};
ghost use Rattle.std.specs.Io.KnownBytes.{WriteAppends};
ghost use Rattle.pct_io.specs.ErrorCounts.{HasCause};
ghost use Rattle.pct_io.specs.Inners.{KeepsInners};
ghost use Rattle.pct_io.specs.Sinks.{Accepts, accepted_of};
ghost use Rattle.pct_io.specs.Buffered.{buffered, inners_through, KeepsWritten, PassesThrough};

use crate::read_write::write_prefix;
use crate::write_buffer::{CAPACITY, WriteBuffer};
use crate::{Failed, Sink};

/// A sink that collects up to 8192 bytes before it writes them to the sink that it wraps. Buffered bytes count as
/// written, so call `flush` at the end: dropping a buffered sink discards the bytes in its buffer.
#[derive(Drop)]
pub struct BufferedSink<'a, K: Sink> {
    sink: &'a mut K,
    buffer: WriteBuffer,
}

impl<'a, K: Sink> BufferedSink<'a, K> {
    /// Wraps `sink`, with an empty buffer.
    pub fn new(sink: &'a mut K) -> BufferedSink<'a, K>
        ensures same_reference { result.sink.ghost_name ≡ sink.entry.ghost_name }
        ensures sink { result.sink.now ≡ sink.old }
        ensures buffer { result.buffer ≡ [] }
        ensures written { buffered K.written result ≡ K.written sink.old }
    {
        BufferedSink {
            sink,
            buffer: WriteBuffer::new(),
        }
    }

    /// Writes the buffered bytes to the wrapped sink. `Failed` means that the wrapped sink recorded one error. The bytes
    /// that it did not accept stay in the buffer, and a later call can write them.
    #[cold]
    #[inline(never)]
    pub fn flush(&mut self) -> Result<(), Failed>
        ensures kept { KeepsWritten K.written K.errors K.inners self.old self.new result }
        ensures passes { PassesThrough K.written self.old self.new [] }
        ensures buffer { OnOk result (self.new.buffer ≡ []) }
    {
        let (count, outcome) = write_prefix(self.sink, self.buffer.as_slice());
        self.buffer.remove_prefix(count);
        outcome
    }

    // Flushes the buffer if it is full.
    #[inline(always)]
    fn flush_if_full(&mut self) -> Result<(), Failed>
        ensures kept { KeepsWritten K.written K.errors K.inners self.old self.new result }
        ensures passes { PassesThrough K.written self.old self.new [] }
        ensures capacity { OnOk result (length self.new.buffer < 8192) }
    {
        if self.buffer.has_capacity() {
            return Ok(());
        }
        self.flush()
    }
}

impl<K: Sink> Sink for BufferedSink<'_, K> {
    ghost written = { buffered K.written };

    ghost errors = { λ outer. K.errors outer.sink.now };

    ghost inners = { inners_through K.written K.inners };

    #[inline(always)]
    fn write(&mut self, piece: &[u8]) -> Result<usize, Failed>
        ensures bound { IfOk result (λ n. Accepts n piece.now) }
        ensures bytes { WriteAppends (buffered K.written self.old) (buffered K.written self.new) result piece.now }
        ensures cause { HasCause (K.errors self.old.sink.now) (K.errors self.new.sink.now) result }
        ensures inners { KeepsInners (inners_through K.written K.inners self.old) (inners_through K.written K.inners self.new) }
        ensures passes { PassesThrough K.written self.old self.new (accepted_of result piece.now) }
    {
        self.flush_if_full()?;
        if self.buffer.is_empty() && piece.len() >= CAPACITY {
            return self.sink.write(piece);
        }
        Ok(self.buffer.fill(piece))
    }
}
