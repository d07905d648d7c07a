//! The errors of reading a schedule.

ghost use Rattle.std.specs.Prelude.{◌≡◌};
ghost use Rattle.pct_schedule.specs.declared.fault.ScheduleFault.TheVariants.{NoMemory};

use pct_model::ScheduleWhy;
use std::alloc::{AllocError, AllocFailed};
use thiserror::Error;

/// Why `read_schedule` or `read_prefix` returned no schedule.
#[derive(Debug, Drop, Error)]
pub enum ScheduleFault {
    /// The text is not a schedule, or not a prefix of one: its first fault, and the line of the fault, counted from 1.
    #[error("line {line}: {why:?}")]
    Refused { line: u32, why: ScheduleWhy },
    /// Memory ran out.
    #[error("memory ran out")]
    NoMemory,
}

impl From<AllocError> for ScheduleFault {
    ghost from_gives = { λ _ fault. fault ≡ NoMemory };

    fn from(_failed: AllocError) -> ScheduleFault {
        ScheduleFault::NoMemory
    }
}

impl<T: Drop> From<AllocFailed<T>> for ScheduleFault {
    ghost from_gives = { λ _ fault. fault ≡ NoMemory };

    fn from(_failed: AllocFailed<T>) -> ScheduleFault {
        ScheduleFault::NoMemory
    }
}
