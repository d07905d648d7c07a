//! The stops of a run, and its verdict.

ghost use Rattle.std.specs.Prelude.{◌≡◌};
ghost use Rattle.pct_model.specs.StopTexts.{class_of_stop, name_of_stop};

use crate::keyword::Keyword;

/// Why a run was stopped: POSIX leaves the behavior undefined, or this host treats it alike, leaves it out or limits it.
#[derive(Clone, Copy, Debug, PartialEq, Eq)]
pub enum Why {
    ForkChildCall,
    AsyncCall,
    EnableInHandler,
    ExitInEnding,
    ThreadId,
    JoinSelf,
    NotJoinable,
    JoinTwice,
    DetachJoined,
    KeyId,
    NotOwner,
    CondTwoMutexes,
    ExitTwice,
    ForkInEnding,
    StackFull,
    CleanupFull,
}

impl Why {
    /// `undefined` if POSIX leaves the behavior undefined, or this host treats it alike by its choice; `profile` if this host
    /// leaves it out or limits it.
    pub fn class(self) -> Keyword
        ensures { result ≡ class_of_stop self }
    {
        match self {
            Why::ForkChildCall | Why::ForkInEnding | Why::StackFull | Why::CleanupFull =>
                Keyword::Profile,
            _ => Keyword::Undefined,
        }
    }

    /// The word that is reported for this stop.
    pub fn name(self) -> Keyword
        ensures { result ≡ name_of_stop self }
    {
        match self {
            Why::ForkChildCall => Keyword::ForkChildCall,
            Why::AsyncCall => Keyword::AsyncCall,
            Why::EnableInHandler => Keyword::EnableInHandler,
            Why::ExitInEnding => Keyword::ExitInEnding,
            Why::ThreadId => Keyword::ThreadId,
            Why::JoinSelf => Keyword::JoinSelf,
            Why::NotJoinable => Keyword::NotJoinable,
            Why::JoinTwice => Keyword::JoinTwice,
            Why::DetachJoined => Keyword::DetachJoined,
            Why::KeyId => Keyword::KeyId,
            Why::NotOwner => Keyword::NotOwner,
            Why::CondTwoMutexes => Keyword::CondTwoMutexes,
            Why::ExitTwice => Keyword::ExitTwice,
            Why::ForkInEnding => Keyword::ForkInEnding,
            Why::StackFull => Keyword::StackFull,
            Why::CleanupFull => Keyword::CleanupFull,
        }
    }
}

/// The verdict of a run.
#[derive(Clone, Copy, Debug, PartialEq, Eq)]
pub enum Verdict {
    /// All processes have ended.
    Complete,
    /// No thread has an alternative.
    Deadlock,
    /// The run has as many steps as its budget allows.
    Budget,
    /// The run was stopped.
    Undefined(Why),
    /// The run can continue.
    Open,
}
