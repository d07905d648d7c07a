//! Judgements of the events in a report.

ghost use Rattle.std.specs.Prelude.{◌≡◌, ◌≤◌, List, ℕ, length, IfOk, IsErr, IsOk, Ok as Gives};
ghost use Rattle.pct_expect.specs.Reading.{expects_in};
ghost use Rattle.pct_judgement.specs.Judgements.{IsJudgement, failed_count, report_part, rules_part};
ghost use Rattle.pct_model.specs.declared.limits.TheConstants.{MAX_INPUT};

use pct_expect::{ExpectFault, ExpectWhy, Expects, Judged, Verdicts, judge, read_expect};
use pct_io::NoMemory;
use pct_report_reader::{ReportFault, ReportWhy, read_report};
use pct_schedule_reader::split_replay;
use std::alloc::Global;

/// What `expect` answers.
#[derive(Debug, Drop)]
pub enum Judgement {
    /// The answers to the rules, in order.
    Answered(Verdicts),
    /// The text of the rules is refused: the line of its first fault, counted from 1, and the reason.
    ExpectRefused { line: u32, why: ExpectWhy },
    /// The report is refused: the line of its first fault, counted from 1 in the report, and the reason.
    ReportRefused { line: u32, why: ReportWhy },
}

/// Judges the report in an input of at most 16,777,216 bytes by the rules in it.
///
/// The rules are the text before the first line `%%`, which `read_expect` reads, and the report is the text after that line, which `read_report`
/// reads; without such a line all of the input is the rules', and the report is empty. A fault of the rules is reported first. The events are
/// those of the report's event lines; `judge` answers each rule over them.
///
/// An error means that memory ran out. It comes only with rules that are not refused.
pub fn judge_input(alloc: Global, input: &[u8]) -> Result<Judgement, NoMemory>
    requires { length input.now ≤ MAX_INPUT }
    ensures judgement { IfOk result (IsJudgement (rules_part input.now) (report_part input.now)) }
    ensures memory { IsErr result → IsOk (expects_in (rules_part input.now)) }
{
    let (end, start) = split_replay(input);
    match read_expect(alloc, &input[..end]) {
        Ok(rules) => judge_report(alloc, &rules, &input[start..]),
        Err(ExpectFault::Refused { line, why }) => Ok(Judgement::ExpectRefused { line, why }),
        Err(ExpectFault::NoMemory) => Err(NoMemory),
    }
}

// The answers to rules over the events in a report.
fn judge_report(alloc: Global, rules: &Expects, report: &[u8]) -> Result<Judgement, NoMemory>
    requires { length report.now ≤ MAX_INPUT }
    ensures { (text : List ℕ) → expects_in text ≡ Gives rules.now → IfOk result (IsJudgement text report.now) }
{
    match read_report(alloc, report) {
        Ok(read) => {
            let answers = judge(alloc, report, read.lines.as_slice(), rules)?;
            Ok(Judgement::Answered(answers))
        }
        Err(ReportFault::Refused { line, why }) => Ok(Judgement::ReportRefused { line, why }),
        Err(ReportFault::NoMemory) => Err(NoMemory),
    }
}

/// How many rules do not hold, by their answers.
pub fn failed_count(answers: &[Judged]) -> usize
    ensures { result ≡ failed_count answers.now }
{
    let mut count = 0;
    for answer in answers {
        if !answer.holds {
            count += 1;
        }
    }
    count
}
