//! The answers: a refusal, a run, a view of a run, a tally, a survey, or what is found of a report.

ghost use Rattle.std.specs.Prelude.{◌≡◌};
ghost use Rattle.pct_command.specs.Status.{IsAnswered};
ghost use Rattle.pct_command.specs.Answer.{status_of_verdict};
ghost use Rattle.pct_inspection.specs.Answer.{status_by, status_of_answer, status_of_findings, status_of_survey};

use pct_command::{Refusal, Status};
use pct_engine::Engine;
use pct_expect::ExpectWhy;
use pct_model::Verdict;
use pct_report_reader::ReportWhy;
use pct_survey::Survey;
use pct_tallies::{RangeTally, TallyWhy};

/// What is written.
#[derive(Drop)]
pub(crate) enum Answer {
    /// One line that names the reason.
    Refused(Refusal),
    /// The report of the run; and a notice, if an entry of the prefix is not legal: the number of the first one, counted from 1.
    Continued {
        engine: Engine,
        illegal: Option<u32>,
    },
    /// The text of a view of a run; the verdict of the run; and the number of the first entry of the prefix that is not legal, if
    /// there is one.
    Shown {
        text: Vec<u8>,
        verdict: Verdict,
        illegal: Option<u32>,
    },
    /// What is counted of the runs under the seeds of a range.
    Tallied(RangeTally),
    /// What is counted of the rules of an expectation.
    Surveyed(Survey),
    /// One line that names the reason why an expectation is refused: its line, counted from 1, and why.
    ExpectRefused {
        line: u32,
        why: ExpectWhy,
    },
    /// One line that names the reason why tallies have no sum: the line of the input, counted from 1, and why.
    TallyRefused {
        line: u32,
        why: TallyWhy,
    },
    /// The text of what is found of the events of a report, and whether they keep each law.
    Judged {
        text: Vec<u8>,
        kept: bool,
    },
    /// One line that names the reason why a report is refused: its line, counted from 1, and why.
    ReportRefused {
        line: u32,
        why: ReportWhy,
    },
}

/// Why there is no answer to an input.
#[derive(Clone, Copy)]
pub(crate) enum Unanswered {
    /// A read failed.
    ReadFault,
    /// Memory ran out.
    NoMemory,
}

impl Answer {
    /// The status of the answer, if it is written whole.
    pub(crate) fn status(&self) -> Status
        ensures status { result ≡ status_of_answer self.now }
        ensures answered { IsAnswered result }
    {
        match self {
            Answer::Refused(refusal) => refusal.status(),
            Answer::Continued { engine, illegal } => status_by(*illegal, engine.verdict()),
            Answer::Shown {
                verdict,
                illegal,
                ..
            } => status_by(*illegal, *verdict),
            Answer::Tallied(_) => Status::Complete,
            Answer::Surveyed(survey) => status_of_survey(survey),
            Answer::ExpectRefused { .. } => Status::ExpectRefused,
            Answer::TallyRefused { .. } => Status::TallyRefused,
            Answer::Judged { kept, .. } => status_of_findings(*kept),
            Answer::ReportRefused { .. } => Status::ReportRefused,
        }
    }
}

// The status of a survey: whether each rule holds of each run.
fn status_of_survey(survey: &Survey) -> Status
    ensures status { result ≡ status_of_survey survey.now }
    ensures answered { IsAnswered result }
{
    if survey.has_failure() {
        Status::ExpectFailed
    } else {
        Status::Complete
    }
}

// The status of a report that is judged: whether its events keep each law.
fn status_of_findings(kept: bool) -> Status
    ensures status { result ≡ status_of_findings kept }
    ensures answered { IsAnswered result }
{
    if kept {
        Status::Complete
    } else {
        Status::AuditFailed
    }
}

// The status of a run with this verdict, which followed a prefix up to an entry that is not legal, if there is one.
fn status_by(illegal: Option<u32>, verdict: Verdict) -> Status
    ensures status { result ≡ status_by illegal (status_of_verdict verdict) }
    ensures answered { IsAnswered result }
{
    match illegal {
        None => Status::of_verdict(verdict),
        Some(_) => Status::ScheduleRefused,
    }
}
