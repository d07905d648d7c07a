//! The reasons to refuse a text.

ghost use Rattle.std.specs.Prelude.{◌≡◌};
ghost use Rattle.pct_model.specs.Outcome.{name_of_fault, name_of_schedule_fault};

use crate::keyword::Keyword;

/// Why a script is refused, in the order of the checks.
#[derive(Clone, Copy, Debug, PartialEq, Eq)]
pub enum ParseWhy {
    NotAscii,
    UnknownWord,
    WordCount,
    BadNumber,
    BadName,
    Misplaced,
    StrayEnd,
    PopUnmatched,
    Unclosed,
    TooMany,
    NameTwice,
    UnknownName,
    ReturnInPush,
    NotPlain,
    NoMain,
}

impl ParseWhy {
    /// The word that is reported for this reason.
    pub fn name(self) -> Keyword
        ensures { result ≡ name_of_fault self }
    {
        match self {
            ParseWhy::NotAscii => Keyword::NotAscii,
            ParseWhy::UnknownWord => Keyword::UnknownWord,
            ParseWhy::WordCount => Keyword::WordCount,
            ParseWhy::BadNumber => Keyword::BadNumber,
            ParseWhy::BadName => Keyword::BadName,
            ParseWhy::Misplaced => Keyword::Misplaced,
            ParseWhy::StrayEnd => Keyword::StrayEnd,
            ParseWhy::PopUnmatched => Keyword::PopUnmatched,
            ParseWhy::Unclosed => Keyword::Unclosed,
            ParseWhy::TooMany => Keyword::TooMany,
            ParseWhy::NameTwice => Keyword::NameTwice,
            ParseWhy::UnknownName => Keyword::UnknownName,
            ParseWhy::ReturnInPush => Keyword::ReturnInPush,
            ParseWhy::NotPlain => Keyword::NotPlain,
            ParseWhy::NoMain => Keyword::NoMain,
        }
    }
}

/// Why a schedule is refused.
#[derive(Clone, Copy, Debug, PartialEq, Eq)]
pub enum ScheduleWhy {
    BadHeader,
    BadEntry,
    TooMany,
    BadEnd,
    Trailing,
}

impl ScheduleWhy {
    /// The word that is reported for this reason.
    pub fn name(self) -> Keyword
        ensures { result ≡ name_of_schedule_fault self }
    {
        match self {
            ScheduleWhy::BadHeader => Keyword::BadHeader,
            ScheduleWhy::BadEntry => Keyword::BadEntry,
            ScheduleWhy::TooMany => Keyword::TooMany,
            ScheduleWhy::BadEnd => Keyword::BadEnd,
            ScheduleWhy::Trailing => Keyword::Trailing,
        }
    }
}
