//! The answer to an input in memory.

ghost use Rattle.std.specs.Prelude.{◌≡◌, ◌<◌, ℕ, List, true, map, string_bytes, IfOk};
ghost use Rattle.pct_model.specs.Outcome.{is_accepted};
ghost use Rattle.pct_command.specs.Answer.{Answered};
ghost use Rattle.pct_command.specs.Audits.{HasReadReport, IsAuditedCode};
ghost use Rattle.pct_command.specs.Command.{IsAnswer, IsValid};
ghost use Rattle.pct_command.specs.Expectations.{HasReadParts, IsJudgedCode};
ghost use Rattle.pct_command.specs.Status.{code_of};
ghost use Rattle.pct_command.specs.Words.{Asks, HasInput, asks_audit, asks_expect};

use crate::answer_writer::give_answer;
use crate::answering::answer_of;
use crate::answers::{Answer, Refusal};
use crate::demo_command::demonstrate;
use crate::status::Status;
use crate::text_sink::TextSink;
use crate::words::{Job, Usage, read_words};
use pct_io::{Failed, Gate, NoGate, NoMemory};
use pct_model::MAX_INPUT;
use pct_workers::Runtime;
use std::alloc::Global;
use std::thread::Threads;

/// The answer of [`command`](crate::command) to the words and an input in memory: the status, and the text that is written. The
/// words are those of `command`, and so are the statuses, but `ReadFault`, `WriteFault` and `NoMemory`, which are no answers. The
/// text is held whole, while `command` writes it piece by piece. No gate is called. `NoMemory` is returned if memory runs out.
pub fn answer<R: Threads + Sync>(
    rt: &R,
    alloc: Global,
    words: &[String],
    input: &[u8],
) -> Result<(Status, Vec<u8>), NoMemory>
    ensures answer { IfOk result (λ given. IsAnswer (map string_bytes words.now) input.now (code_of given.0) given.1.items) }

    // With accepted words a valid input is not refused.
    ensures complete { is_accepted (map string_bytes words.now) ≡ true → IsValid (map string_bytes words.now) input.now → IfOk result (λ given. code_of given.0 < 5) }

    // With `expect` an input whose parts are read is not refused.
    ensures judged { asks_expect (map string_bytes words.now) ≡ true → HasReadParts input.now → IfOk result (λ given. IsJudgedCode (code_of given.0)) }

    // With `audit` a report that is read is not refused.
    ensures audited { asks_audit (map string_bytes words.now) ≡ true → HasReadReport input.now → IfOk result (λ given. IsAuditedCode (code_of given.0)) }
{
    let runtime = Runtime {
        rt,
        alloc,
        gate: &NoGate,
    };
    let answer = answer_bytes(&runtime, words, input)?;
    let mut text = TextSink::new(alloc);
    match give_answer(answer, &mut text) {
        (status, Ok(())) => Ok((status, text.into_bytes())),
        (_, Err(Failed)) => Err(NoMemory),
    }
}

// The answer to the words and an input, before it is written.
fn answer_bytes<R: Threads + Sync, G: Gate>(
    runtime: &Runtime<'_, R, G>,
    words: &[String],
    input: &[u8],
) -> Result<Answer, NoMemory>
    ensures { Answered (map string_bytes words.now) input.now result }
{
    match read_words(words) {
        Err(Usage) => Ok(Answer::Refused(Refusal::Words)),
        Ok(Job::Points) => Ok(Answer::Points),
        Ok(Job::Demo(number)) => demonstrate(runtime.alloc, number),
        Ok(job) => answer_text(runtime, job, input),
    }
}

// The answer of a job to an input.
fn answer_text<R: Threads + Sync, G: Gate>(
    runtime: &Runtime<'_, R, G>,
    job: Job,
    input: &[u8],
) -> Result<Answer, NoMemory>
    requires { HasInput job }
    ensures { (words : List (List ℕ)) → Asks words job → Answered words input.now result }
{
    if input.len() > MAX_INPUT as usize {
        Ok(Answer::Refused(Refusal::Input))
    } else {
        answer_of(runtime, job, input)
    }
}
