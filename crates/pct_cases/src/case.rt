//! One case: the words and the inputs of its calls, and the status and the output that are expected of each.

use pct_command::command;
use pct_inspection::inspect;
use pct_io::{Failed, MemSink, MemSource, NoGate, NoMemory, Sink, write_parts};
use std::alloc::{AllocError, Global};
use std::thread::Threads;

/// Memory ran out, or the report could not be written.
#[derive(Clone, Copy, Debug)]
pub(crate) struct Failure;

impl From<AllocError> for Failure {
    fn from(_failed: AllocError) -> Failure {
        Failure
    }
}

impl From<NoMemory> for Failure {
    fn from(_failed: NoMemory) -> Failure {
        Failure
    }
}

impl From<Failed> for Failure {
    fn from(_failed: Failed) -> Failure {
        Failure
    }
}

/// The call that a case makes.
#[derive(Clone, Copy)]
pub(crate) enum Call {
    Command,
    Inspect,
}

/// A case, as far as it was read.
#[derive(Drop)]
pub(crate) struct Case {
    pub(crate) name: Vec<u8>,
    pub(crate) call: Call,
    pub(crate) words: Vec<String>,
    /// The inputs of the calls.
    pub(crate) inputs: Vec<Vec<u8>>,
    /// The exit status, in decimal.
    pub(crate) code: Vec<u8>,
    pub(crate) output: Vec<u8>,
}

impl Case {
    /// A case with this name, of which nothing else was read.
    pub(crate) fn named(alloc: Global, name: &[u8]) -> Result<Case, Failure> {
        Ok(Case {
            name: name.to_vec(alloc)?,
            call: Call::Command,
            words: Vec::new(alloc),
            inputs: Vec::new(alloc),
            code: Vec::new(alloc),
            output: Vec::new(alloc),
        })
    }

    /// Makes the calls, and writes whether the status and the output of each are the expected ones.
    pub(crate) fn run<R: Threads + Sync, K: Sink>(
        &self,
        rt: &R,
        alloc: Global,
        report: &mut K,
    ) -> Result<(), Failure> {
        let mut has_passed = !self.inputs.is_empty();
        for input in &self.inputs {
            has_passed &= self.passes(rt, alloc, input, report)?;
        }
        let result = if has_passed {
            b"passed ".as_slice()
        } else {
            b"FAILED "
        };
        write_parts(report, &[result, &self.name, b"\n"])?;
        Ok(())
    }

    // Makes the call for one input, and writes what it gave, unless that is what is expected.
    fn passes<R: Threads + Sync, K: Sink>(
        &self,
        rt: &R,
        alloc: Global,
        input: &[u8],
        report: &mut K,
    ) -> Result<bool, Failure> {
        let mut source = MemSource::new(alloc, input, 4096, &[])?;
        let mut sink = MemSink::new(alloc, 2_000_000, 1_000_000, &[])?;
        let status = match self.call {
            Call::Command => command(rt, alloc, &self.words, &mut source, &mut sink, &NoGate),
            Call::Inspect => inspect(rt, alloc, &self.words, &mut source, &mut sink),
        };
        let code = format!(in alloc; "{}", status.code())?;
        let is_expected = code.as_bytes() == self.code.as_slice()
            && sink.written() == self.output.as_slice();
        if !is_expected {
            let parts = [input, b"exits ", code.as_bytes(), b"\n", sink.written()];
            write_parts(report, &parts)?;
        }
        Ok(is_expected)
    }
}
