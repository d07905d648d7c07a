//! The top call: which command the words name, the input, and the answer.

ghost use Rattle.std.specs.Prelude.{◌≡◌, ◌⊎◌, List, ℕ, true, false, not, map, string_bytes, Ok as Gives, IfOk, IsErrOf};
ghost use Rattle.pct_model.specs.declared.keyword.Keyword.TheVariants as keyword;
ghost use Rattle.pct_model.specs.declared.limits.TheConstants.{MAX_INPUT};
ghost use Rattle.pct_model.specs.Outcome.{asks_demo, is_asked};
ghost use Rattle.pct_io.specs.Inners.{KeepsInners};
ghost use Rattle.pct_io.specs.Reads.{ReadsAll};
ghost use Rattle.pct_command.specs.Answer.{AnswersRead, IsDemonstrated, ReadsInput};
ghost use Rattle.pct_command.specs.Command.{Answers, HasRead, IsAnswer, IsComplete, Records};
ghost use Rattle.pct_command.specs.Words.{Asks, HasInput, accepts, reads_input, takes_memory};

use crate::answer_writer::give_answer;
use crate::answering::answer_of;
use crate::answers::{Answer, Refusal, Unanswered};
use crate::demo_command::demonstrate;
use crate::status::Status;
use crate::words::{Job, Usage, read_words};
use pct_io::{Failed, Gate, NoMemory, ReadEnd, Sink, Source, read_all};
use pct_model::MAX_INPUT;
use pct_workers::Runtime;
use std::alloc::Global;
use std::thread::Threads;

/// Performs the command that the words name on the bytes of the source, and writes the answer to the sink.
///
/// The words are `run` and its options (`--budget N`, `--passes N`, `--slots N`, `--seed N`, `--workers N` and `--turns N`, each also as
/// `--budget=N`), `sample` and a number of seeds from 1 to 10,000, `demo` and a number, or `replay`, `check`, `points`, `expect` or `audit` alone.
/// `run` reads a script and runs it: 1 to 16 workers take turns, on threads of their own if threads can be made, and a worker that gets a turn
/// makes one step, which two words of its random stream choose under the seed. When each worker has taken its turns, number 0 makes the steps that
/// are left, by its own stream. `replay` reads a script, a line `%%`, and a schedule or a whole report, and runs the script under that schedule.
/// Both write a report. `check` reads a script and writes its canonical text. `sample` reads a script, runs it as `run` does under each seed from 1
/// to the number, and writes how many of the runs ended in which way, and the first seed of each. `points` reads nothing and writes the table of
/// cancellation points (XSH 2.9.5.2). `demo` reads nothing, runs the script that is generated from the number, where the number of steps so far
/// chooses each step, and writes a summary of the run. `expect` reads rules, a line `%%` and a report, and writes which of the rules hold of the
/// events in the report, and how many do not; without the line the report is empty. `audit` reads a report, with no script, and writes whether its
/// events keep the laws of cleanup handlers, of thread ids and slots, of joins, of mutexes and condition waits, and of pthread_once. A refusal is
/// one line that names the reason.
///
/// With one worker the report is that of the seed. With several workers it depends on how their threads run, and which one it is, is not
/// promised; it names the worker of each step. The gate is called before each turn of a worker. It can delay the worker, and has no other
/// effect. The runs of `sample` are spread over threads, if threads can be made; its answer does not depend on that, and the gate is not
/// called.
///
/// The answer is the first of these that holds, unless it is `ReadFault`, `WriteFault` or `NoMemory`:
///
/// - `Usage`: the words are not accepted; nothing is read.
/// - `Complete`, from `points`: the table was written; nothing is read.
/// - `Complete`, from `demo`: the summary was written; nothing is read.
/// - `TooLong`: more than 16,777,216 bytes were read.
/// - `ScriptRefused`: the text of the script has a fault.
/// - `Complete`, from `check`: the canonical text was written.
/// - `Complete`, from `sample`: what is counted of the runs was written, whatever their verdicts are.
/// - `ScheduleRefused`, only from `replay`: the text of the schedule has a fault, or one of its entries is not legal.
/// - `Complete`, `Deadlock`, `Budget`, `Undefined` or `Open`: the report of a run with this verdict was written. `run` never
///   answers `Open`.
/// - `ExpectRefused`, only from `expect`: the text of the rules has a fault.
/// - `ReportRefused`, only from `expect` and `audit`: the text of the report has a fault. With `expect` its lines are counted after the
///   line `%%`.
/// - `Complete` or `ExpectFailed`, from `expect`: which rules hold was written; `Complete` exactly if each of them holds.
/// - `Complete` or `AuditFailed`, from `audit`: the number of events was written if they keep the laws, and with `AuditFailed` the first event
///   at which a law fails, and the first law that fails there.
///
/// With the answers of this list from `ScriptRefused` on the input was read to its end. `replay` of a report that was written gives the
/// same bytes again, if the script, the line `%%` and the report have at most 16,777,216 bytes together; and `audit` of a report that `run`
/// or `replay` wrote answers `Complete`, if the report has at most that many bytes.
///
/// - `ReadFault` comes only with `run`, `replay`, `check`, `sample`, `expect` and `audit`, and only if the source recorded an error in this call.
///   The sink is unchanged.
/// - `WriteFault` comes only if the sink recorded an error in this call. A prefix of the text was written.
/// - `NoMemory` comes only with `run`, `replay`, `check`, `sample`, `expect`, `audit` and `demo`. The sink is unchanged.
pub fn command<R: Threads + Sync, S: Source, K: Sink, G: Gate>(
    rt: &R,
    alloc: Global,
    words: &[String],
    source: &mut S,
    sink: &mut K,
    gate: &G,
) -> Status
    ensures answers { Answers (reads_input (map string_bytes words.now)) (takes_memory (map string_bytes words.now)) (IsAnswer (map string_bytes words.now))
        (record { left = S.left source.old; read_errors = S.errors source.old; written = K.written sink.old; write_errors = K.errors sink.old })
        (record { left = S.left source.new; read_errors = S.errors source.new; written = K.written sink.new; write_errors = K.errors sink.new })
        result }

    // Unless a call failed or memory ran out, the whole outcome was written. With accepted words a valid input is not refused, nor is one of
    // `expect` whose parts are read, or one of `audit` whose report is read.
    ensures complete { IsComplete (map string_bytes words.now)
        (record { left = S.left source.old; read_errors = S.errors source.old; written = K.written sink.old; write_errors = K.errors sink.old })
        (record { left = S.left source.new; read_errors = S.errors source.new; written = K.written sink.new; write_errors = K.errors sink.new })
        result }

    // With words that are not accepted nothing is read.
    ensures usage { accepts (map string_bytes words.now) ≡ false → (source.new ≡ source.old) × ((result ≡ Status.Usage) ⊎ (result ≡ Status.WriteFault)) }

    // With `points` nothing is read.
    ensures points { is_asked keyword.Points (map string_bytes words.now) ≡ true → (source.new ≡ source.old) × ((result ≡ Status.Complete) ⊎ (result ≡ Status.WriteFault)) }

    // With `demo` nothing is read.
    ensures demo { asks_demo (map string_bytes words.now) ≡ true → (source.new ≡ source.old) × ((result ≡ Status.Complete) ⊎ (result ≡ Status.WriteFault) ⊎ (result ≡ Status.NoMemory)) }

    // With the other commands out of memory comes only after a byte was read.
    ensures memory { asks_demo (map string_bytes words.now) ≡ false → result ≡ Status.NoMemory → HasRead (S.left source.old) (S.left source.new) }

    // A read error and exhausted memory leave the sink as it was.
    ensures untouched { (result ≡ Status.ReadFault) ⊎ (result ≡ Status.NoMemory) → sink.new ≡ sink.old }

    // A count of errors rises by one with the status of its failure, and is unchanged with every other status.
    ensures read_errors { Records Status.ReadFault result (S.errors source.old) (S.errors source.new) }
    ensures write_errors { Records Status.WriteFault result (K.errors sink.old) (K.errors sink.new) }

    // The sink still writes through the same sinks, and each of them has only grown.
    ensures inners { KeepsInners (K.inners sink.old) (K.inners sink.new) }
{
    let runtime = Runtime { rt, alloc, gate };
    match answer_words(&runtime, words, source) {
        Ok(answer) => match give_answer(answer, sink) {
            (status, Ok(())) => status,
            (_, Err(Failed)) => Status::WriteFault,
        },
        Err(Unanswered::ReadFault) => Status::ReadFault,
        Err(Unanswered::NoMemory) => Status::NoMemory,
    }
}

// The answer to the words, and to the bytes of the source if the words name a command that reads them.
fn answer_words<R: Threads + Sync, S: Source, G: Gate>(
    runtime: &Runtime<'_, R, G>,
    words: &[String],
    source: &mut S,
) -> Result<Answer, Unanswered>
    ensures answer { IfOk result (λ answer. AnswersRead (map string_bytes words.now) (S.left source.old) (S.left source.new) answer) }
    ensures read { IsErrOf result Unanswered.ReadFault → reads_input (map string_bytes words.now) ≡ true }
    ensures memory { IsErrOf result Unanswered.NoMemory → takes_memory (map string_bytes words.now) ≡ true }
    ensures usage { accepts (map string_bytes words.now) ≡ false → (source.new ≡ source.old) × (result ≡ Gives (Answer.Refused Refusal.Words)) }
    ensures points { is_asked keyword.Points (map string_bytes words.now) ≡ true → (source.new ≡ source.old) × (result ≡ Gives Answer.Points) }
    ensures demo { asks_demo (map string_bytes words.now) ≡ true → (source.new ≡ source.old) × IsDemonstrated result }
    ensures reads { ReadsInput S.left S.errors (not (asks_demo (map string_bytes words.now))) source.old source.new result }
{
    match read_words(words) {
        Err(Usage) => Ok(Answer::Refused(Refusal::Words)),
        Ok(Job::Points) => Ok(Answer::Points),
        Ok(Job::Demo(number)) => match demonstrate(runtime.alloc, number) {
            Ok(answer) => Ok(answer),
            Err(NoMemory) => Err(Unanswered::NoMemory),
        },
        Ok(job) => answer_input(runtime, job, source),
    }
}

// The answer of a job to the bytes of the source.
fn answer_input<R: Threads + Sync, S: Source, G: Gate>(
    runtime: &Runtime<'_, R, G>,
    job: Job,
    source: &mut S,
) -> Result<Answer, Unanswered>
    requires { HasInput job }
    ensures answer { (words : List (List ℕ)) → Asks words job → IfOk result (λ answer. AnswersRead words (S.left source.old) (S.left source.new) answer) }
    ensures reads { ReadsInput S.left S.errors true source.old source.new result }
{
    match read_input(runtime.alloc, source) {
        Ok(text) => match answer_of(runtime, job, &text) {
            Ok(answer) => Ok(answer),
            Err(NoMemory) => Err(Unanswered::NoMemory),
        },
        Err(ReadEnd::TooLong) => Ok(Answer::Refused(Refusal::Input)),
        Err(ReadEnd::Failed) => Err(Unanswered::ReadFault),
        Err(ReadEnd::NoMemory) => Err(Unanswered::NoMemory),
    }
}

// Reads the input. The buffer that a read fills is in the frame of this call, and so not on the stack while the input is answered.
#[inline(never)]
fn read_input<S: Source>(alloc: Global, source: &mut S) -> Result<Vec<u8>, ReadEnd>
    ensures { ReadsAll S.left S.errors source.old source.new MAX_INPUT result }
{
    read_all(alloc, source, MAX_INPUT)
}
