//! Sources and sinks over readers and writers of std. Their contracts name neither the errors of a reader or a writer nor its flushes.

use pct_io::{StdSink, StdSource, read_all, write_all};
use std::io;
use std::io::{Read, Write};
use std::test::Fail;

// A reader of one byte a call, whose call number `fails` fails, counted from 1.
#[derive(Drop)]
struct FailingReader {
    bytes: &'static [u8],
    calls: u32,
    fails: u32,
}

impl Read for FailingReader {
    fn read(&mut self, buf: &mut [u8]) -> io::Result<usize> {
        self.calls = self.calls.saturating_add(1);
        if self.calls == self.fails {
            return Err(io::ErrorKind::Interrupted.into());
        }
        if self.bytes.is_empty() || buf.is_empty() {
            return Ok(0);
        }
        buf[0] = self.bytes[0];
        self.bytes = &self.bytes[1..];
        Ok(1)
    }
}

// The failing call, and the bytes that are not read before it. The fourth call reaches the end of the input.
static FAILING_READS: [(u32, &[u8]); 4] = [(1, b"abc"), (2, b"bc"), (3, b"c"), (4, b"")];

#[test]
fn each_error_of_a_reader_is_returned(rt: HostRuntime) -> Result<(), Fail> {
    for (fails, rest) in &FAILING_READS {
        let mut source = StdSource::new(FailingReader {
            bytes: b"abc",
            calls: 0,
            fails: *fails,
        });
        assert!(rt; read_all(rt.alloc(), &mut source, 9).is_err());
        let read = read_all(rt.alloc(), &mut source, 9)?;
        assert!(rt; read.as_slice() == *rest);
    }
    Ok(())
}

// A writer that takes one byte a call. The write and the flush with these numbers fail, counted from 1.
#[derive(Drop)]
struct FailingWriter {
    writes: u32,
    flushes: u32,
    write_fails: u32,
    flush_fails: u32,
}

impl Write for FailingWriter {
    fn write(&mut self, buf: &[u8]) -> io::Result<usize> {
        self.writes = self.writes.saturating_add(1);
        if self.writes == self.write_fails {
            return Err(io::ErrorKind::Other.into());
        }
        Ok(buf.len().min(1))
    }

    fn flush(&mut self) -> io::Result<()> {
        self.flushes = self.flushes.saturating_add(1);
        if self.flushes == self.flush_fails {
            return Err(io::ErrorKind::Other.into());
        }
        Ok(())
    }
}

// The failing write, the failing flush, and whether all of three bytes are written.
static FAILING_WRITES: [(u32, u32, bool); 7] = [
    (0, 0, true),
    (1, 0, false),
    (3, 0, false),
    (4, 0, true),
    (0, 1, false),
    (0, 3, false),
    (0, 4, true),
];

#[test]
fn each_write_is_flushed_once_and_each_error_returned(rt: HostRuntime) {
    for (write_fails, flush_fails, is_whole) in &FAILING_WRITES {
        let mut sink = StdSink::new(FailingWriter {
            writes: 0,
            flushes: 0,
            write_fails: *write_fails,
            flush_fails: *flush_fails,
        });
        assert!(rt; write_all(&mut sink, b"abc").is_ok() == *is_whole);
    }
}
