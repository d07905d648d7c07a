//! The cases of a text.

use crate::case::{Call, Case, Failure};
use crate::escapes::add_line;
use pct_io::Sink;
use std::alloc::{AllocError, Global};
use std::thread::Threads;

// What a line belongs to.
#[derive(Clone, Copy)]
enum Part {
    /// The words, which are not read yet.
    Words,
    /// An input of several lines.
    Input,
    /// Inputs of one line each.
    Inputs,
    /// The expected output, or what comes before the first case.
    Output,
}

/// Runs the cases of the text, and writes a line for each of them.
pub(crate) fn run_cases<R: Threads + Sync, K: Sink>(
    rt: &R,
    alloc: Global,
    text: &[u8],
    report: &mut K,
) -> Result<(), Failure> {
    let mut part = Part::Output;
    let mut case = Case::named(alloc, b"")?;
    for line in text.split(|byte| *byte == b'\n') {
        match begun(part, line) {
            Some(name) => {
                run_named(rt, alloc, &case, report)?;
                case = Case::named(alloc, name)?;
                part = Part::Words;
            }
            None => part = take_line(alloc, &mut case, part, line)?,
        }
    }
    run_named(rt, alloc, &case, report)
}

// Runs a case. What comes before the first case has no name, and is none.
fn run_named<R: Threads + Sync, K: Sink>(
    rt: &R,
    alloc: Global,
    case: &Case,
    report: &mut K,
) -> Result<(), Failure> {
    if case.name.is_empty() {
        return Ok(());
    }
    case.run(rt, alloc, report)
}

// The name of the case that the line begins, if it begins one.
fn begun(part: Part, line: &[u8]) -> Option<&[u8]> {
    match part {
        Part::Output => line.strip_prefix(b"case "),
        _ => None,
    }
}

// Adds a line to a case, and returns what the next line belongs to.
fn take_line(alloc: Global, case: &mut Case, part: Part, line: &[u8]) -> Result<Part, AllocError> {
    match part {
        Part::Words => take_words(alloc, case, line),
        Part::Input | Part::Inputs => take_input(alloc, case, part, line),
        Part::Output => {
            if !line.is_empty() && !line.starts_with(b"#") {
                add_line(&mut case.output, line)?;
            }
            Ok(Part::Output)
        }
    }
}

// Adds the words of a line to a case.
fn take_words(alloc: Global, case: &mut Case, line: &[u8]) -> Result<Part, AllocError> {
    if let Some(words) = line.strip_prefix(b"each ") {
        add_words(alloc, &mut case.words, words)?;
        return Ok(Part::Inputs);
    }
    if let Some(words) = line.strip_prefix(b"words ") {
        add_words(alloc, &mut case.words, words)?;
    }
    if let Some(words) = line.strip_prefix(b"inspect ") {
        case.call = Call::Inspect;
        add_words(alloc, &mut case.words, words)?;
    }
    case.inputs.push(Vec::new(alloc))?;
    Ok(Part::Input)
}

fn add_words(alloc: Global, words: &mut Vec<String>, line: &[u8]) -> Result<(), AllocError> {
    for word in line.split(|byte| *byte == b' ') {
        words.push(String::from_utf8_lossy(alloc, word)?)?;
    }
    Ok(())
}

// Adds a line of an input to a case, or the status that is expected.
fn take_input(alloc: Global, case: &mut Case, part: Part, line: &[u8]) -> Result<Part, AllocError> {
    if let Some(code) = line.strip_prefix(b"exits ") {
        case.code.extend_from_slice(code)?;
        return Ok(Part::Output);
    }
    if let Part::Inputs = part {
        case.inputs.push(Vec::new(alloc))?;
    }
    if let Some(input) = case.inputs.last_mut() {
        add_line(input, line)?;
    }
    Ok(part)
}
