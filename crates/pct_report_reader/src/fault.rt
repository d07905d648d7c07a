//! The errors of reading a report.

ghost use Rattle.std.specs.Prelude.{◌≡◌};
ghost use Rattle.pct_report_reader.specs.declared.fault.ReportFault.TheVariants.{NoMemory};

use pct_io::NoMemory;
use std::alloc::{AllocError, AllocFailed};
use thiserror::Error;

/// Why a report is refused, in the order of its parts.
#[derive(Clone, Copy, Debug, PartialEq, Eq)]
pub enum ReportWhy {
    /// The first line is missing or is not `report 1` or `report 2`.
    BadHeader,
    /// A line before the verdict is no event.
    BadEvent,
    /// The line is no verdict, or there is none.
    BadVerdict,
    /// The lines after the verdict are no schedule of the report's format.
    BadSchedule,
}

/// Why `read_report` returned no report.
#[derive(Debug, Drop, Error)]
pub enum ReportFault {
    /// The text is refused: the line of its first fault, counted from 1, and the reason.
    #[error("line {line}: {why:?}")]
    Refused { line: u32, why: ReportWhy },
    /// Memory ran out.
    #[error("memory ran out")]
    NoMemory,
}

impl From<AllocError> for ReportFault {
    ghost from_gives = { λ _ fault. fault ≡ NoMemory };

    fn from(_failed: AllocError) -> ReportFault {
        ReportFault::NoMemory
    }
}

impl<T: Drop> From<AllocFailed<T>> for ReportFault {
    ghost from_gives = { λ _ fault. fault ≡ NoMemory };

    fn from(_failed: AllocFailed<T>) -> ReportFault {
        ReportFault::NoMemory
    }
}

impl From<NoMemory> for ReportFault {
    ghost from_gives = { λ _ fault. fault ≡ NoMemory };

    fn from(_failed: NoMemory) -> ReportFault {
        ReportFault::NoMemory
    }
}
