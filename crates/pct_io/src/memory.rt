//! A source and a sink in memory, with a chosen transfer size and chosen failing calls, for tests.
ghost use Rattle.std.specs.Prelude.{◌≡◌, ◌<◌, ◌≤◌, cond, [], length, Some, IfOk, vec_len, vec_capacity};
ghost use Rattle.std.specs.Io.{ReadsAtMost};
ghost use Rattle.std.specs.Io.KnownBytes.{ReadConsumes, WriteAppends};
ghost use Rattle.pct_io.specs.ErrorCounts.{HasCause, raised};
ghost use Rattle.pct_io.specs.Sinks.{Accepts};

use crate::{Failed, NoMemory, Sink, Source};
use std::alloc::Global;

// The calls of a source or sink in memory: the numbers of the failing calls, the number of calls so far, and the number
// of errors recorded.
#[derive(Drop)]
struct Calls {
    fails: Vec<u64>,
    count: u64,
    errors: u64,
}

impl Calls {
    ghost use Rattle.pct_io.specs.Memory.{is_listed};

    fn new(alloc: Global, fails: &[u64]) -> Result<Calls, NoMemory>
        ensures fails { IfOk result (λ calls. calls.fails.items ≡ fails.now) }
        ensures count { IfOk result (λ calls. calls.count ≡ 0) }
        ensures errors { IfOk result (λ calls. calls.errors ≡ 0) }
    {
        Ok(Calls {
            fails: fails.to_vec(alloc)?,
            count: 0,
            errors: 0,
        })
    }

    // Counts one more call, and records an error if `fails` has its number.
    fn begin(&mut self) -> Result<(), Failed>
        ensures answer { result ≡ cond (is_listed self.old.fails.items (raised self.old.count)) (Err (record {})) (Ok tt) }
        ensures count { self.new.count ≡ raised self.old.count }
        ensures fails { self.new.fails ≡ self.old.fails }
        ensures cause { HasCause self.old.errors self.new.errors result }
    {
        self.count = self.count.saturating_add(1);
        if self.fails.contains(&self.count) {
            return Err(self.record_error());
        }
        Ok(())
    }

    fn record_error(&mut self) -> Failed
        ensures { self.new ≡ record self.old { errors = raised self.old.errors } }
    {
        self.errors = self.errors.saturating_add(1);
        Failed
    }
}

/// A source over bytes in memory. A call reads at most `chunk` bytes. The calls whose numbers, counted from 1, are in
/// `fails` return `Failed`.
#[derive(Drop)]
pub struct MemSource {
    bytes: Vec<u8>,
    position: usize,
    chunk: u32,
    calls: Calls,
    ghost within: { position ≤ vec_len bytes },
    ghost moves: { 0 < chunk },
}

impl MemSource {
    ghost use Rattle.pct_io.specs.Memory.{bytes_left, source_device};

    /// A source over a copy of `bytes`, with no call made and no error recorded. `chunk` must be at least 1.
    pub fn new(
        alloc: Global,
        bytes: &[u8],
        chunk: u32,
        fails: &[u64],
    ) -> Result<MemSource, NoMemory>
        requires { 0 < chunk }
        ensures left { IfOk result (λ source. bytes_left source ≡ bytes.now) }
        ensures device { IfOk result (λ source. source_device source ≡ record { fails = fails.now; chunk = chunk; calls = 0 }) }
        ensures errors { IfOk result (λ source. source.calls.errors ≡ 0) }
    {
        Ok(MemSource {
            bytes: bytes.to_vec(alloc)?,
            position: 0,
            chunk,
            calls: Calls::new(alloc, fails)?,
        })
    }

    /// The bytes that are not read yet.
    pub fn left(&self) -> &[u8]
        ensures { result.now ≡ bytes_left self.now }
    {
        &self.bytes[self.position..]
    }
}

impl Source for MemSource {
    ghost use Rattle.pct_io.specs.Memory.{bytes_left, source_device, after_call, read_answer};

    ghost left = { λ source. Some (bytes_left source) };

    ghost errors = { λ source. source.calls.errors };

    fn read(&mut self, buf: &mut [u8]) -> Result<usize, Failed>
        ensures bound { ReadsAtMost result buf.new }
        ensures bytes { ReadConsumes (Some (bytes_left self.old)) (Some (bytes_left self.new)) result buf.new }
        ensures cause { HasCause self.old.calls.errors self.new.calls.errors result }
        ensures answer { result ≡ read_answer self.old (length buf.old) }
        ensures device { source_device self.new ≡ after_call (source_device self.old) }
    {
        self.calls.begin()?;
        let left = self.left();
        let count = left.len().min(buf.len()).min(self.chunk as usize);
        let (prefix, _) = left.split_at(count);
        buf[..count].copy_from_slice(prefix);
        self.position += count;
        Ok(count)
    }
}

/// A sink in memory that holds at most `room` bytes. A call writes at most `chunk` bytes. The calls whose numbers, counted
/// from 1, are in `fails` return `Failed`, and so does the write of a non-empty piece to a full sink. Writes allocate
/// nothing.
#[derive(Drop)]
pub struct MemSink {
    bytes: Vec<u8>,
    room: u32,
    chunk: u32,
    calls: Calls,
    ghost within: { vec_len bytes ≤ room },
    ghost reserved: { room ≤ vec_capacity bytes },
    ghost moves: { 0 < chunk },
}

impl MemSink {
    ghost use Rattle.pct_io.specs.Memory.{bytes_written, sink_device};

    /// An empty sink, with no call made and no error recorded. All its memory is allocated here. `chunk` must be at
    /// least 1.
    pub fn new(alloc: Global, room: u32, chunk: u32, fails: &[u64]) -> Result<MemSink, NoMemory>
        requires { 0 < chunk }
        ensures written { IfOk result (λ sink. bytes_written sink ≡ []) }
        ensures room { IfOk result (λ sink. sink.room ≡ room) }
        ensures device { IfOk result (λ sink. sink_device sink ≡ record { fails = fails.now; chunk = chunk; calls = 0 }) }
        ensures errors { IfOk result (λ sink. sink.calls.errors ≡ 0) }
    {
        Ok(MemSink {
            bytes: Vec::with_capacity(alloc, room as usize)?,
            room,
            chunk,
            calls: Calls::new(alloc, fails)?,
        })
    }

    /// The bytes written so far.
    pub fn written(&self) -> &[u8]
        ensures { result.now ≡ bytes_written self.now }
    {
        &self.bytes
    }
}

impl Sink for MemSink {
    ghost use Rattle.pct_io.specs.Memory.{bytes_written, sink_device, after_call, write_answer};

    ghost written = { λ sink. Some (bytes_written sink) };

    ghost errors = { λ sink. sink.calls.errors };

    ghost inners = { λ _. [] };

    fn write(&mut self, piece: &[u8]) -> Result<usize, Failed>
        ensures bound { IfOk result (λ n. Accepts n piece.now) }
        ensures bytes { WriteAppends (Some (bytes_written self.old)) (Some (bytes_written self.new)) result piece.now }
        ensures cause { HasCause self.old.calls.errors self.new.calls.errors result }
        ensures answer { result ≡ write_answer self.old (length piece.now) }
        ensures room { self.new.room ≡ self.old.room }
        ensures device { sink_device self.new ≡ after_call (sink_device self.old) }
    {
        self.calls.begin()?;
        let room = self.room as usize - self.bytes.len();
        let count = piece.len().min(room).min(self.chunk as usize);
        if count == 0 && !piece.is_empty() {
            return Err(self.calls.record_error());
        }
        self.bytes.extend_from_slice(&piece[..count]).unwrap();
        Ok(count)
    }
}
