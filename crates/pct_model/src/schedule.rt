//! Schedules: the configuration of a run, and its steps in order.

ghost use Rattle.std.specs.Prelude.{◌≡◌};
ghost use Rattle.pct_model.specs.Formats.{format_number, has_timeouts};

use crate::limits::{DEFAULT_BUDGET, DEFAULT_PASSES, DEFAULT_SLOTS};

/// The format of a schedule and of a report. A script has texts of format 2 exactly if it has a statement that format 1 does not know.
#[derive(Clone, Copy, Debug, PartialEq, Eq)]
pub enum Format {
    One,
    /// With timed waits, and the choice `expire`.
    Two,
}

impl Format {
    /// The number of the format, as texts have it.
    pub fn number(self) -> u32
        ensures { result ≡ format_number self }
    {
        match self {
            Format::One => 1,
            Format::Two => 2,
        }
    }

    /// Whether the time of a wait may expire in a run with texts of this format.
    pub fn has_timeouts(self) -> bool
        ensures { result ≡ has_timeouts self }
    {
        match self {
            Format::One => false,
            Format::Two => true,
        }
    }
}

/// The configuration of a run.
#[derive(Clone, Copy, Debug, PartialEq, Eq)]
pub struct Config {
    /// The greatest number of steps: 1 to `MAX_BUDGET`.
    pub budget: u32,
    /// The greatest number of passes over the destructors of a thread that ends: `MIN_PASSES` to `MAX_PASSES`.
    pub passes: u32,
    /// The number of thread slots of a process: 1 to `MAX_SLOTS`.
    pub slots: u32,
    /// The format of the texts of the run. In format 1 no time expires.
    pub format: Format,
}

impl Config {
    /// The configuration of the command `run`, for a script with texts of format 1.
    pub const DEFAULT: Config = Config {
        budget: DEFAULT_BUDGET,
        passes: DEFAULT_PASSES,
        slots: DEFAULT_SLOTS,
        format: Format::One,
    };
}

/// A choice of the scheduler: what a thread does next, where POSIX allows more than one behavior.
#[derive(Clone, Copy, Debug, PartialEq, Eq)]
pub enum Alt {
    /// The thread executes its next statement, or completes the call in which it was suspended.
    Go,
    /// The thread acts on a cancellation request. A signal that it consumed goes to the thread with this id, if it is
    /// not 0.
    Act(u32),
    /// The thread creates the thread or the key with this number.
    New(u32),
    /// The thread signals a condition variable, and wakes the thread with this id.
    Pick(u32),
    /// The thread calls the destructor of this key.
    Dtor(u32),
    /// The time of the wait in which the thread is suspended expires.
    Expire,
}

/// An entry of a schedule, which is one step: the worker that makes it, the process, the thread, and the choice.
#[derive(Clone, Copy, Debug, PartialEq, Eq)]
pub struct Entry {
    pub worker: u32,
    pub pid: u32,
    pub tid: u32,
    pub alt: Alt,
}
