//! The answers: a refusal, a run, a script, the table of cancellation points, a run of a generated script, a tally of runs, a judgement,
//! or an audit.

ghost use Rattle.std.specs.Prelude.{◌≡◌};
ghost use Rattle.pct_command.specs.Answer.{status_of_answer, status_of_audit, status_of_judgement, status_of_refusal};
ghost use Rattle.pct_command.specs.Status.{IsAnswered};

use crate::status::Status;
use pct_engine::Engine;
use pct_judgement::{Judgement, failed_count};
use pct_model::{ParseWhy, ScheduleWhy, Script};
use pct_report_audit::ReportAudit;
use pct_tallies::Tally;

/// Why an input is refused.
#[derive(Clone, Copy, Debug, PartialEq, Eq)]
pub enum Refusal {
    /// The words are not accepted.
    Words,
    /// The input has more than 16,777,216 bytes.
    Input,
    /// The text of the script has a fault: the first one, and the number of its line, counted from 1.
    Script { line: u32, why: ParseWhy },
    /// The text of the schedule has a fault: the first one, and the number of its line, counted from 1.
    Schedule { line: u32, why: ScheduleWhy },
    /// An entry of the schedule is not legal: the number of the first one, counted from 1.
    Entry { entry_number: u32 },
}

/// What is written.
#[derive(Drop)]
pub(crate) enum Answer {
    /// One line that names the reason.
    Refused(Refusal),
    /// The report of the run.
    Ran(Engine),
    /// The canonical text of the script.
    Checked(Script),
    /// The table of cancellation points.
    Points,
    /// The summary of the run of the script that is generated from a number.
    Demonstrated { number: u32, engine: Engine },
    /// What is counted of the runs of the script under the seeds from 1 on.
    Sampled { seeds: u32, tally: Tally },
    /// Which rules hold of the events in a report.
    Judged(Judgement),
    /// Whether the events in a report keep the laws.
    Audited(ReportAudit),
}

/// Why there is no answer to an input.
#[derive(Clone, Copy)]
pub(crate) enum Unanswered {
    /// A read failed.
    ReadFault,
    /// Memory ran out.
    NoMemory,
}

impl Refusal {
    /// The status of the refusal.
    pub fn status(&self) -> Status
        ensures status { result ≡ status_of_refusal self.now }
        ensures answered { IsAnswered result }
    {
        match self {
            Refusal::Words => Status::Usage,
            Refusal::Input => Status::TooLong,
            Refusal::Script { .. } => Status::ScriptRefused,
            Refusal::Schedule { .. } | Refusal::Entry { .. } => Status::ScheduleRefused,
        }
    }
}

impl Answer {
    /// The status of the answer, if it is written whole.
    pub(crate) fn status(&self) -> Status
        ensures status { result ≡ status_of_answer self.now }
        ensures answered { IsAnswered result }
    {
        match self {
            Answer::Refused(refusal) => refusal.status(),
            Answer::Ran(engine) => Status::of_verdict(engine.verdict()),
            Answer::Checked(_)
            | Answer::Points
            | Answer::Demonstrated { .. }
            | Answer::Sampled { .. } => Status::Complete,
            Answer::Judged(judgement) => status_of_judgement(judgement),
            Answer::Audited(audit) => status_of_audit(*audit),
        }
    }
}

// The status of a judgement.
fn status_of_judgement(judgement: &Judgement) -> Status
    ensures status { result ≡ status_of_judgement judgement.now }
    ensures answered { IsAnswered result }
{
    match judgement {
        Judgement::Answered(answers) => if failed_count(answers.as_slice()) == 0 {
            Status::Complete
        } else {
            Status::ExpectFailed
        },
        Judgement::ExpectRefused { .. } => Status::ExpectRefused,
        Judgement::ReportRefused { .. } => Status::ReportRefused,
    }
}

// The status of an audit.
fn status_of_audit(audit: ReportAudit) -> Status
    ensures status { result ≡ status_of_audit audit }
    ensures answered { IsAnswered result }
{
    match audit {
        ReportAudit::Passed { .. } => Status::Complete,
        ReportAudit::Failed(_) => Status::AuditFailed,
        ReportAudit::Refused { .. } => Status::ReportRefused,
    }
}
