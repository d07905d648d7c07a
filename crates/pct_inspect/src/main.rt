//! The program that inspects runs. It calls `inspect` with its arguments, standard input as the source and standard output as the
//! sink, and exits with the code of the status that `inspect` returns. It writes nothing to standard error.
#![tactic(auto)]

use pct_command::{Status, words_of};
use pct_inspection::inspect;
use pct_io::{NoMemory, StdSink, StdSource};
use std::io;
use std::process::ExitCode;

fn main(rt: HostRuntime) -> ExitCode {
    let status = match words_of(&rt) {
        Err(NoMemory) => Status::NoMemory,
        Ok(words) => {
            let mut source = StdSource::new(rt.reader());
            let mut sink = StdSink::new(io::writer(&rt));
            inspect(&rt, rt.alloc(), &words, &mut source, &mut sink)
        }
    };
    ExitCode::from(status.code())
}
