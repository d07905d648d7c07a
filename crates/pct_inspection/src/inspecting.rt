//! The top call: what the words ask for, the input, and the answer.

ghost use Rattle.std.specs.Prelude.{◌≡◌, ◌⊎◌, List, ℕ, true, false, map, string_bytes, Ok as Gives, IfOk, IfErr};
ghost use Rattle.pct_io.specs.Inners.{KeepsInners};
ghost use Rattle.pct_io.specs.Reads.{ReadsAll};
ghost use Rattle.pct_model.specs.declared.limits.TheConstants.{MAX_INPUT};
ghost use Rattle.pct_command.specs.Command.{Answers, HasRead, Records};
ghost use Rattle.pct_inspection.specs.Answer.{AnswersRead, AsksFor, ReadsInput};
ghost use Rattle.pct_inspection.specs.Inspection.{IsInspected, IsWhole};
ghost use Rattle.pct_inspection.specs.TallyOutcomes.{IsAccepted};
ghost use Rattle.pct_inspection.specs.Words.{is_inspection};

use crate::answer::{Answer, Unanswered};
use crate::answer_writer::give_answer;
use crate::answering::answer_input;
use crate::resources::Resources;
use crate::words::{Inspection, read_inspection, selection_in};
use pct_command::{Refusal, Status};
use pct_io::{Failed, NoMemory, ReadEnd, Sink, Source, read_all};
use pct_lanes::Selection;
use pct_model::MAX_INPUT;
use std::alloc::Global;
use std::thread::Threads;

/// Does what the words ask for on the bytes of the source, and writes the answer to the sink.
///
/// The words are `continue` and a seed, one of `trace`, `choices`, `states`, `lanes` and `picture`, `tally` and two seeds, `sum`,
/// `judge`, or `survey`, a number of seeds from 1 to 100,000 and options of `run` but `--seed`, `--workers` and `--turns`. With `tally`
/// the input is a script, with `sum` it is tallies, with `judge` a report, and with `survey` a script, a line `%%`, and an expectation.
/// With the others it is a script, a line `%%`, and a prefix of a schedule: a schedule or a whole report, in which the line `end N` may
/// be missing. Without a line `%%`, or with nothing after it, the prefix has no entry, and the numbers of the run are those of `run`
/// without options. The run makes the steps of the prefix, up to the first entry that is not legal.
///
/// - `continue`: worker 1 makes each further step, as two words of its random stream choose under the seed, until the verdict is not `Open`.
///   The report is written.
/// - `trace`: a line for each step is written, with where the thread was, the statement there, the choice and the events; then the verdict.
/// - `choices`: the verdict is written; then, for each thread that has not ended, where it is, what it waits for, its cancelability and its
///   handlers, and below it each entry of worker 1 that is legal.
/// - `states`: the verdict is written; then, for each process that has not ended, its globals, its mutexes with their owners, its semaphores
///   with their counts, its keys, what it has registered, and its once controls that are busy or done; and below it, for each thread that has
///   not ended, its frames with their locals, its thread-specific data, and whether it is detached.
/// - `lanes`, `picture`: the steps are written with a column for each thread, as text or as SVG. After the command words may select steps:
///   `--steps FROM-TO`, `--threads P.T,P.T..` and `--events`.
/// - `tally`: the script is run as `run --seed S` does under each seed S from the first to the second. It is written how many of the runs ended in
///   which way, with the first seed of each, and the digest of the script. The runs are spread over threads, if threads can be made; the answer does
///   not depend on that.
/// - `sum`: the sum of the tallies is written, if they are of one script and their ranges together have each seed from the first to the last once.
/// - `survey`: the script is run under each seed from 1 to the number, as `run --seed S` does with these options and one worker. It is written of how
///   many of the runs each rule of the expectation holds and of how many it does not, and how many end with each verdict, each with the first seed.
///   The runs are spread over threads, as those of `tally` are.
/// - `judge`: for each law that is about events alone it is written whether the events of the report keep it, and if not, which is the
///   first event that the law does not allow. The laws are judged with the limits of the report's schedule; its verdict and its entries
///   are not compared with the events.
///
/// After a report or a view, if entry N of the prefix is not legal, a line `entry N is not legal here` is written. A refusal is one line that names
/// the reason.
///
/// The answer is the first of these that holds, unless it is `ReadFault`, `WriteFault` or `NoMemory`:
///
/// - `Usage`: the words are not accepted; nothing is read.
/// - `TooLong`: more than 16,777,216 bytes were read.
/// - `ScriptRefused`: the text of the script has a fault.
/// - `TallyRefused`: the input of `sum` has a line that is none of a tally, or the tallies have no sum.
/// - `ReportRefused`: the input of `judge` is not a report.
/// - `Complete` or `AuditFailed`, from `judge`: what is found was written, and the events keep each law, or they do not keep one.
/// - `Complete`, from `tally` and `sum`: the tally was written, whatever the verdicts of its runs are.
/// - `ExpectRefused`: the expectation of `survey` has a fault.
/// - `Complete` or `ExpectFailed`, from `survey`: what is counted was written, and each rule holds of each run, or one does not.
/// - `ScheduleRefused`: the text of the prefix has a fault, or one of its entries is not legal; then the report or the view, and the notice,
///   were written.
/// - `Complete`, `Deadlock`, `Budget`, `Undefined` or, of a view, `Open`: the report or the view of a run with this verdict was written.
///
/// With the answers of this list from `ScriptRefused` on the input was read to its end.
///
/// - `ReadFault` comes only with accepted words, and only if the source recorded an error in this call. The sink is unchanged.
/// - `WriteFault` comes only if the sink recorded an error in this call. A prefix of the text was written.
/// - `NoMemory` comes only with accepted words. The sink is unchanged.
pub fn inspect<R: Threads + Sync, S: Source, K: Sink>(
    rt: &R,
    alloc: Global,
    words: &[String],
    source: &mut S,
    sink: &mut K,
) -> Status
    ensures answers { Answers (is_inspection (map string_bytes words.now)) (is_inspection (map string_bytes words.now)) (IsInspected (map string_bytes words.now))
        (record { left = S.left source.old; read_errors = S.errors source.old; written = K.written sink.old; write_errors = K.errors sink.old })
        (record { left = S.left source.new; read_errors = S.errors source.new; written = K.written sink.new; write_errors = K.errors sink.new })
        result }

    // Unless a call failed or memory ran out, the whole outcome was written. With accepted words a valid input is not refused.
    ensures complete { IsWhole (map string_bytes words.now)
        (record { left = S.left source.old; read_errors = S.errors source.old; written = K.written sink.old; write_errors = K.errors sink.old })
        (record { left = S.left source.new; read_errors = S.errors source.new; written = K.written sink.new; write_errors = K.errors sink.new })
        result }

    // With words that are not accepted nothing is read.
    ensures usage { is_inspection (map string_bytes words.now) ≡ false → (source.new ≡ source.old) × ((result ≡ Status.Usage) ⊎ (result ≡ Status.WriteFault)) }

    // Out of memory comes only after a byte was read.
    ensures memory { result ≡ Status.NoMemory → HasRead (S.left source.old) (S.left source.new) }

    // A read error and exhausted memory leave the sink as it was.
    ensures untouched { (result ≡ Status.ReadFault) ⊎ (result ≡ Status.NoMemory) → sink.new ≡ sink.old }

    // A count of errors rises by one with the status of its failure, and is unchanged with every other status.
    ensures read_errors { Records Status.ReadFault result (S.errors source.old) (S.errors source.new) }
    ensures write_errors { Records Status.WriteFault result (K.errors sink.old) (K.errors sink.new) }

    // The sink still writes through the same sinks, and each of them has only grown.
    ensures inners { KeepsInners (K.inners sink.old) (K.inners sink.new) }
{
    let resources = Resources { rt, alloc };
    match answer_words(&resources, words, source) {
        Ok(answer) => match give_answer(answer, sink) {
            (status, Ok(())) => status,
            (_, Err(Failed)) => Status::WriteFault,
        },
        Err(Unanswered::ReadFault) => Status::ReadFault,
        Err(Unanswered::NoMemory) => Status::NoMemory,
    }
}

// The answer to the words, and to the bytes of the source if the words are accepted.
fn answer_words<R: Threads + Sync, S: Source>(
    resources: &Resources<'_, R>,
    words: &[String],
    source: &mut S,
) -> Result<Answer, Unanswered>
    ensures answer { IfOk result (λ answer. AnswersRead (map string_bytes words.now) (S.left source.old) (S.left source.new) answer) }
    ensures input { IfErr result (λ _. is_inspection (map string_bytes words.now) ≡ true) }
    ensures usage { is_inspection (map string_bytes words.now) ≡ false → (source.new ≡ source.old) × (result ≡ Gives (Answer.Refused Refusal.Words)) }
    ensures reads { ReadsInput S.left S.errors source.old source.new result }
{
    match read_inspection(words) {
        None => Ok(Answer::Refused(Refusal::Words)),
        Some(asked) => answer_read(resources, asked, selection_in(words), source),
    }
}

// The answer to the bytes of the source.
fn answer_read<R: Threads + Sync, S: Source>(
    resources: &Resources<'_, R>,
    asked: Inspection,
    selection: Selection,
    source: &mut S,
) -> Result<Answer, Unanswered>
    requires accepted { IsAccepted asked }
    ensures answer { (words : List (List ℕ)) → AsksFor words asked → IfOk result (λ answer. AnswersRead words (S.left source.old) (S.left source.new) answer) }
    ensures reads { ReadsInput S.left S.errors source.old source.new result }
{
    match read_input(resources.alloc, source) {
        Ok(text) => match answer_input(resources, asked, selection, &text) {
            Ok(answer) => Ok(answer),
            Err(NoMemory) => Err(Unanswered::NoMemory),
        },
        Err(ReadEnd::TooLong) => Ok(Answer::Refused(Refusal::Input)),
        Err(ReadEnd::Failed) => Err(Unanswered::ReadFault),
        Err(ReadEnd::NoMemory) => Err(Unanswered::NoMemory),
    }
}

// Reads the input. The buffer that a read fills is in the frame of this call, and so not on the stack while the input is answered.
#[inline(never)]
fn read_input<S: Source>(alloc: Global, source: &mut S) -> Result<Vec<u8>, ReadEnd>
    ensures { ReadsAll S.left S.errors source.old source.new MAX_INPUT result }
{
    read_all(alloc, source, MAX_INPUT)
}
