//! The error of `parse` of pct_script.

ghost use Rattle.std.specs.Prelude.{◌≡◌};
ghost use Rattle.pct_script_lines.specs.declared.fault.ParseFault.TheVariants.{NoMemory};

use pct_model::ParseWhy;
use std::alloc::{AllocError, AllocFailed};
use thiserror::Error;

/// Why a text was not parsed to a script.
#[derive(Debug, Drop, Error)]
pub enum ParseFault {
    /// The text spells no script. `why` is its first fault, and `line` the number of the line, counted from 1.
    #[error("line {line}: {why:?}")]
    Refused { line: u32, why: ParseWhy },
    /// An allocation failed.
    #[error("memory ran out")]
    NoMemory,
}

impl From<AllocError> for ParseFault {
    ghost from_gives = { λ _ fault. fault ≡ NoMemory };

    fn from(_failed: AllocError) -> ParseFault {
        ParseFault::NoMemory
    }
}

impl<T: Drop> From<AllocFailed<T>> for ParseFault {
    ghost from_gives = { λ _ fault. fault ≡ NoMemory };

    fn from(_failed: AllocFailed<T>) -> ParseFault {
        ParseFault::NoMemory
    }
}
