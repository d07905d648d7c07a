//! The errors of reading expectations.

ghost use Rattle.std.specs.Prelude.{◌≡◌};
ghost use Rattle.pct_expect.specs.declared.fault.ExpectFault.TheVariants.{NoMemory};
ghost use Rattle.pct_expect.specs.Faults.{why_text};

use std::alloc::{AllocError, AllocFailed};
use thiserror::Error;

/// Why a text of expectations is refused, in the order of the checks.
#[derive(Clone, Copy, Debug, PartialEq, Eq)]
pub enum ExpectWhy {
    /// The line is no rule.
    BadLine,
    /// The rule is the 65th one.
    TooMany,
    /// There is no rule.
    NoRule,
}

impl ExpectWhy {
    /// The word for the reason.
    #[tactic(auto, unfolding(crate::specs::Faults::why_text))]
    pub fn text(self) -> &'static [u8]
        ensures { result.now ≡ why_text self }
    {
        match self {
            ExpectWhy::BadLine => b"bad_line",
            ExpectWhy::TooMany => b"too_many",
            ExpectWhy::NoRule => b"no_rule",
        }
    }
}

/// Why `read_expect` returned no expectations.
#[derive(Debug, Drop, Error)]
pub enum ExpectFault {
    /// The text is refused: the line, counted from 1, and the reason.
    #[error("line {line}: {why:?}")]
    Refused { line: u32, why: ExpectWhy },
    /// Memory ran out.
    #[error("memory ran out")]
    NoMemory,
}

impl From<AllocError> for ExpectFault {
    ghost from_gives = { λ _ fault. fault ≡ NoMemory };

    fn from(_failed: AllocError) -> ExpectFault {
        ExpectFault::NoMemory
    }
}

impl<T: Drop> From<AllocFailed<T>> for ExpectFault {
    ghost from_gives = { λ _ fault. fault ≡ NoMemory };

    fn from(_failed: AllocFailed<T>) -> ExpectFault {
        ExpectFault::NoMemory
    }
}
