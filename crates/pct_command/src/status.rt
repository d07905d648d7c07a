//! How the program ends.

ghost use Rattle.std.specs.Prelude.{◌≡◌};
ghost use Rattle.pct_command.specs.Answer.{status_of_verdict};
ghost use Rattle.pct_command.specs.Status.{IsAnswered, code_of};

use pct_model::Verdict;

/// How the program ends. Its exit status is the code.
#[derive(Clone, Copy, Debug, PartialEq, Eq)]
pub enum Status {
    /// 0: the run is complete.
    Complete,
    /// 1: no thread can take a step.
    Deadlock,
    /// 2: the run used up its budget.
    Budget,
    /// 3: the run was stopped.
    Undefined,
    /// 4: the replayed run can go on.
    Open,
    /// 5: the words are not accepted.
    Usage,
    /// 6: the script is refused.
    ScriptRefused,
    /// 7: the schedule is refused.
    ScheduleRefused,
    /// 8: the input has more than 16,777,216 bytes.
    TooLong,
    /// 9: the input could not be read.
    ReadFault,
    /// 10: the output could not be written.
    WriteFault,
    /// 11: memory ran out.
    NoMemory,
    /// 12: the events in a report do not keep the laws.
    AuditFailed,
    /// 13: a report is refused.
    ReportRefused,
    /// 14: a rule does not hold.
    ExpectFailed,
    /// 15: an expectation is refused.
    ExpectRefused,
    /// 16: a tally is refused.
    TallyRefused,
}

impl Status {
    /// The status of a run with this verdict.
    pub fn of_verdict(verdict: Verdict) -> Status
        ensures status { result ≡ status_of_verdict verdict }
        ensures answered { IsAnswered result }
    {
        match verdict {
            Verdict::Complete => Status::Complete,
            Verdict::Deadlock => Status::Deadlock,
            Verdict::Budget => Status::Budget,
            Verdict::Undefined(_) => Status::Undefined,
            Verdict::Open => Status::Open,
        }
    }

    /// The exit status of the program.
    pub fn code(&self) -> u8
        ensures { result ≡ code_of self.now }
    {
        match self {
            Status::Complete => 0,
            Status::Deadlock => 1,
            Status::Budget => 2,
            Status::Undefined => 3,
            Status::Open => 4,
            Status::Usage => 5,
            Status::ScriptRefused => 6,
            Status::ScheduleRefused => 7,
            Status::TooLong => 8,
            Status::ReadFault => 9,
            Status::WriteFault => 10,
            Status::NoMemory => 11,
            Status::AuditFailed => 12,
            Status::ReportRefused => 13,
            Status::ExpectFailed => 14,
            Status::ExpectRefused => 15,
            Status::TallyRefused => 16,
        }
    }
}
