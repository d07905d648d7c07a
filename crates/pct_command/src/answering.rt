//! The answer to a text.

ghost use Rattle.std.specs.Prelude.{◌≡◌, ◌≤◌, ◌<◌, ℕ, List, length, IsErr};
ghost use Rattle.pct_model.specs.declared.limits.TheConstants.{MAX_INPUT};
ghost use Rattle.pct_command.specs.Answer.{Answered, HasParts};
ghost use Rattle.pct_command.specs.Words.{Asks, HasInput, HasScriptInput, parts_of_job};

use crate::answers::{Answer, Refusal};
use crate::replay_command::replay_script;
use crate::run_command::run_script;
use crate::sample_command::sample_script;
use crate::words::Job;
use pct_history::split_replay;
use pct_io::{Gate, NoMemory};
use pct_judgement::judge_input;
use pct_model::Script;
use pct_report_audit::audit_report;
use pct_script::parse;
use pct_script_lines::ParseFault;
use pct_workers::Runtime;
use std::thread::Threads;

/// The answer of a job to a text. `NoMemory` comes only with a text that is not empty.
pub(crate) fn answer_of<R: Threads + Sync, G: Gate>(
    runtime: &Runtime<'_, R, G>,
    job: Job,
    text: &[u8],
) -> Result<Answer, NoMemory>
    requires fits { length text.now ≤ MAX_INPUT }
    requires input { HasInput job }
    ensures answer { (words : List (List ℕ)) → Asks words job → Answered words text.now result }
    ensures memory { IsErr result → 0 < length text.now }
{
    match job {
        Job::Expect => Ok(Answer::Judged(judge_input(runtime.alloc, text)?)),
        Job::Audit => Ok(Answer::Audited(audit_report(runtime.alloc, text)?)),
        _ => answer_with_script(runtime, job, text),
    }
}

// The answer of a job to a text that has a script.
fn answer_with_script<R: Threads + Sync, G: Gate>(
    runtime: &Runtime<'_, R, G>,
    job: Job,
    text: &[u8],
) -> Result<Answer, NoMemory>
    requires fits { length text.now ≤ MAX_INPUT }
    requires input { HasScriptInput job }
    ensures answer { (words : List (List ℕ)) → Asks words job → Answered words text.now result }
    ensures memory { IsErr result → 0 < length text.now }
{
    let (end, start) = parts_of(job, text);
    match parse(runtime.alloc, &text[..end]) {
        Ok(script) => answer_script(runtime, job, script, &text[start..]),
        Err(ParseFault::Refused { line, why }) => {
            Ok(Answer::Refused(Refusal::Script { line, why }))
        }
        Err(ParseFault::NoMemory) => Err(NoMemory),
    }
}

// The end of the script's part of a text, and the start of the schedule's part.
fn parts_of(job: Job, text: &[u8]) -> (usize, usize)
    ensures parts { result ≡ parts_of_job job text.now }
    ensures within { (result.0 ≤ length text.now) × (result.1 ≤ length text.now) }
{
    match job {
        Job::Replay => split_replay(text),
        _ => (text.len(), text.len()),
    }
}

// The answer of a job to a script and the text of a schedule.
fn answer_script<R: Threads + Sync, G: Gate>(
    runtime: &Runtime<'_, R, G>,
    job: Job,
    script: Script,
    schedule: &[u8],
) -> Result<Answer, NoMemory>
    requires fits { length schedule.now ≤ MAX_INPUT }
    requires input { HasScriptInput job }
    ensures { (words : List (List ℕ)) (input : List ℕ) → Asks words job → HasParts words job input script schedule.now → Answered words input result }
{
    match job {
        Job::Run(options) => run_script(runtime, options, script),
        Job::Replay => replay_script(runtime.alloc, script, schedule),
        Job::Check => Ok(Answer::Checked(script)),
        Job::Sample(seeds) => sample_script(runtime, &script, seeds),
        Job::Points | Job::Demo(_) | Job::Expect | Job::Audit => unreachable!(),
    }
}
