//! Runs the cases of its input, one after another, and writes a line for each: `passed NAME`, or `FAILED NAME` and what the call
//! gave. A case is
//!
//!     case NAME
//!     words WORD ..
//!     the input of the call, any number of lines
//!     exits CODE
//!     the output that is expected, any number of lines
//!
//! With `each WORD ..` in the place of `words WORD ..` each line of the input is the input of a call of its own. With `inspect WORD ..`
//! the call is that of the program that inspects runs. In an input and in an output `\r`, `\t`, `\\` and `\xHH` are bytes, and a `\` at the end of a line leaves out its line end. A line `\*N REST` stands for N
//! lines REST, in which `\#` is the number of the line, from 1. After an `exits`, empty lines and lines that begin with `#` are
//! comments.
#![tactic(auto)]

mod case;
mod escapes;
mod reader;

use crate::case::Failure;
use crate::reader::run_cases;
use pct_io::{StdSink, StdSource, read_all};
use std::io;
use std::process::ExitCode;

// The greatest length of the input.
const LIMIT: u32 = 16_777_216;

fn main(rt: HostRuntime) -> ExitCode {
    let mut source = StdSource::new(rt.reader());
    let mut sink = StdSink::new(io::writer(&rt));
    let Ok(text) = read_all(rt.alloc(), &mut source, LIMIT) else {
        return ExitCode::from(2);
    };
    match run_cases(&rt, rt.alloc(), &text, &mut sink) {
        Ok(()) => ExitCode::from(0),
        Err(Failure) => ExitCode::from(1),
    }
}
