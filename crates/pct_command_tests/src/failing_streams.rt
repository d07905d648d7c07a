//! Calls of `command` over sources and sinks that fail. The expected bytes are worked by hand from the rules of statuses.

use pct_command::command;
use pct_io::{MemSink, MemSource, NoGate};
use std::alloc::Global;
use std::test::Fail;
use std::thread::Threads;

const SCRIPT: &[u8] = b"fn main x\nreturn 0\nend\n";

const REPLAY: &[u8] = b"fn main x\nreturn 0\nend\n%%\nschedule 1 1 4 64\nend 0\n";

const REPORT: &[u8] =
    b"report 1\n1.1 exit 0\n1.1 process_end 0\nverdict complete\nschedule 1 10000 4 64\n1 1 1 go\n1 1 1 go\nend 2\n";

// The words, the input, and the numbers of a read and of a write that fail, counted from 1; then the status, what is written,
// and how many bytes are not read. The first read takes the whole input, and the second one finds its end. A write takes
// one byte.
static CALLS: [(&[&str], &[u8], [u64; 2], (u8, &[u8], usize)); 13] = [
    (&["run"], SCRIPT, [1, 0], (9, b"", 23)),
    (&["check"], SCRIPT, [1, 0], (9, b"", 23)),
    (&["run"], SCRIPT, [2, 0], (9, b"", 0)),
    (&["run"], SCRIPT, [0, 1], (10, b"", 0)),
    (&["run"], SCRIPT, [0, 2], (10, b"r", 0)),
    (&["check"], SCRIPT, [0, 2], (10, b"f", 0)),
    (&["replay"], REPLAY, [0, 2], (10, b"r", 0)),
    // No read and no write is made that is not needed: the report has 101 bytes.
    (&["run"], SCRIPT, [3, 102], (0, REPORT, 0)),
    // Nothing is read for `points`, nor with words that are not accepted.
    (&["points"], SCRIPT, [1, 2], (10, b"a", 23)),
    (&["walk"], SCRIPT, [1, 2], (10, b"r", 23)),
    (&["walk"], SCRIPT, [1, 15], (5, b"refused words\n", 23)),
    (&[""], SCRIPT, [1, 15], (5, b"refused words\n", 23)),
    (&[], SCRIPT, [1, 15], (5, b"refused words\n", 23)),
];

#[test]
fn failed_reads_and_writes_decide_the_status(rt: HostRuntime) -> Result<(), Fail> {
    let alloc = rt.alloc();
    for row_number in 0..13 {
        let (words, input, [read, write], (code, text, left)) = CALLS[row_number];
        let mut all = Vec::new(alloc);
        for word in words {
            all.push(String::from_str(alloc, word)?)?;
        }
        let mut source = MemSource::new(alloc, input, 4096, &[read])?;
        let mut sink = MemSink::new(alloc, 1000, 1, &[write])?;
        let status = command(&rt, alloc, &all, &mut source, &mut sink, &NoGate);
        assert!(rt; status.code() == code, "row {row_number}");
        assert!(rt; sink.written() == text, "row {row_number}");
        assert!(rt; source.left().len() == left, "row {row_number}");
    }
    Ok(())
}

// `run` over a source and a sink that take a byte a call, of which a read and a write fail: the status, and what is written.
fn run<R: Threads + Sync>(
    rt: &R,
    alloc: Global,
    room: u32,
    [read, write]: [u64; 2],
) -> Result<(u8, Vec<u8>), Fail> {
    let mut words = Vec::new(alloc);
    words.push(String::from_str(alloc, "run")?)?;
    let mut source = MemSource::new(alloc, SCRIPT, 1, &[read])?;
    let mut sink = MemSink::new(alloc, room, 1, &[write])?;
    let status = command(rt, alloc, &words, &mut source, &mut sink, &NoGate);
    Ok((status.code(), sink.written().to_vec(alloc)?))
}

#[test]
fn each_read_of_a_byte_fails(rt: HostRuntime) -> Result<(), Fail> {
    // The script has 23 bytes, and the 24th read finds its end.
    for read in 1..25_u64 {
        let (code, text) = run(&rt, rt.alloc(), 1000, [read, 0])?;
        assert!(rt; code == 9 && text.is_empty(), "read {read}");
    }
    let (code, text) = run(&rt, rt.alloc(), 1000, [25, 0])?;
    assert!(rt; code == 0 && text.as_slice() == REPORT, "no read");
    Ok(())
}

#[test]
fn each_write_of_a_byte_fails(rt: HostRuntime) -> Result<(), Fail> {
    // The report has 101 bytes.
    for before in 0..101_usize {
        let write = before as u64 + 1;
        let (code, text) = run(&rt, rt.alloc(), 1000, [0, write])?;
        assert!(rt;
            code == 10 && text.as_slice() == &REPORT[..before],
            "write {write}"
        );
    }
    let (code, text) = run(&rt, rt.alloc(), 101, [0, 102])?;
    assert!(rt; code == 0 && text.as_slice() == REPORT, "no write");
    // One byte less fits.
    let (code, text) = run(&rt, rt.alloc(), 100, [0, 0])?;
    assert!(rt; code == 10 && text.as_slice() == &REPORT[..100], "room 100");
    Ok(())
}
