//! The program. It calls `command` with its arguments, standard input as the source and standard output as the sink, and
//! exits with the code of the status that `command` returns. It writes nothing to standard error.
#![tactic(auto)]

use pct_command::{Status, command, words_of};
use pct_io::{NoGate, NoMemory, StdSink, StdSource};
use std::io;
use std::process::ExitCode;

fn main(rt: HostRuntime) -> ExitCode {
    let status = match words_of(&rt) {
        Err(NoMemory) => Status::NoMemory,
        Ok(words) => {
            let mut source = StdSource::new(rt.reader());
            let mut sink = StdSink::new(io::writer(&rt));
            command(&rt, rt.alloc(), &words, &mut source, &mut sink, &NoGate)
        }
    };
    ExitCode::from(status.code())
}
