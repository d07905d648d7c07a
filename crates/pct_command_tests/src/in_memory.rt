//! Calls of `answer`, with words and an input in memory. The expected bytes are worked by hand.

use pct_command::answer;
use std::alloc::Global;
use std::test::Fail;
use std::thread::Threads;

// The words, the input, and then the status and the text.
static CALLS: [(&str, &[u8], (u8, &[u8])); 3] = [
    (
        "run",
        b"fn main x\nreturn 0\nend\n",
        (
            0,
            b"report 1\n1.1 exit 0\n1.1 process_end 0\nverdict complete\nschedule 1 10000 4 64\n1 1 1 go\n1 1 1 go\nend 2\n",
        ),
    ),
    (
        "check",
        b"fn main x\nreturn y\nend\n",
        (6, b"refused script 2 unknown_name\n"),
    ),
    ("walk", b"", (5, b"refused words\n")),
];

#[test]
fn an_input_in_memory_is_answered(rt: HostRuntime) -> Result<(), Fail> {
    let alloc = rt.alloc();
    for row_number in 0..3 {
        let (word, input, (code, expected)) = CALLS[row_number];
        let mut words = Vec::new(alloc);
        words.push(String::from_str(alloc, word)?)?;
        let (status, text) = answer(&rt, alloc, &words, input)?;
        assert!(rt; status.code() == code, "row {row_number}");
        assert!(rt; text.as_slice() == expected, "row {row_number}");
    }
    Ok(())
}

// The answer to one word, or to `run` with a budget of 200,000.
fn answer_to<R: Threads + Sync>(
    rt: &R,
    alloc: Global,
    word: &str,
    input: &[u8],
) -> Result<(u8, Vec<u8>), Fail> {
    let mut words = Vec::new(alloc);
    for one in word.split(' ') {
        words.push(String::from_str(alloc, one)?)?;
    }
    let (status, text) = answer(rt, alloc, &words, input)?;
    Ok((status.code(), text))
}

#[test]
fn the_largest_budget_is_spent_and_replayed(rt: HostRuntime) -> Result<(), Fail> {
    let script = b"fn main x\nwhile 1\nend\nend\n".as_slice();
    let (code, report) = answer_to(&rt, rt.alloc(), "run --budget 200000", script)?;
    assert!(rt; code == 2 && report.len() == 1_800_058, "the report");
    let mut input = script.to_vec(rt.alloc())?;
    input.extend_from_slice(b"%%\n")?;
    input.extend_from_slice(&report)?;
    let (code, text) = answer_to(&rt, rt.alloc(), "replay", &input)?;
    assert!(rt; code == 2 && text == report, "the replay");
    Ok(())
}

#[test]
fn the_largest_input_is_read(rt: HostRuntime) -> Result<(), Fail> {
    let (_, script, (_, report)) = CALLS[0];
    let mut input = vec![in rt.alloc(); b'#'; 16_777_192]?;
    input.push(b'\n')?;
    input.extend_from_slice(script)?;
    let (code, text) = answer_to(&rt, rt.alloc(), "run", &input)?;
    assert!(rt; code == 0 && text.as_slice() == report, "16,777,216 bytes");
    input.push(b'\n')?;
    let (code, text) = answer_to(&rt, rt.alloc(), "run", &input)?;
    assert!(rt;
        code == 8 && text.as_slice() == b"refused input too_long\n".as_slice(),
        "one byte more"
    );
    Ok(())
}
