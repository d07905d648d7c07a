//! Why tallies are refused.

ghost use Rattle.std.specs.Prelude.{◌≡◌};
ghost use Rattle.pct_tallies.specs.Faults.{why_text};
ghost use Rattle.pct_tallies.specs.declared.fault.TallyFault.TheVariants.{NoMemory as Exhausted};

use pct_io::NoMemory;
use std::alloc::{AllocError, AllocFailed};

/// Why tallies are refused.
#[derive(Clone, Copy, Debug, PartialEq, Eq)]
pub enum TallyWhy {
    /// The line is none that a tally has there, or it is missing.
    BadLine,
    /// There is no tally.
    NoTally,
    /// The tally that begins at the line is of another script than the first one.
    OtherScript,
    /// It is of other limits than the first one.
    OtherLimits,
    /// It has a seed that the one before it, in the order of their first seeds, has too.
    Overlap,
    /// Between the one before it, in this order, and it a seed is missing.
    Gap,
    /// With it a number of the sum has more than 64 bits.
    TooLarge,
}

impl TallyWhy {
    /// The word for the reason.
    #[tactic(auto, unfolding(crate::specs::Faults::why_text))]
    pub fn text(self) -> &'static [u8]
        ensures { result.now ≡ why_text self }
    {
        match self {
            TallyWhy::BadLine => b"bad_line",
            TallyWhy::NoTally => b"no_tally",
            TallyWhy::OtherScript => b"other_script",
            TallyWhy::OtherLimits => b"other_limits",
            TallyWhy::Overlap => b"overlap",
            TallyWhy::Gap => b"gap",
            TallyWhy::TooLarge => b"too_large",
        }
    }
}

/// Why there is no sum of the tallies in a text.
#[derive(Clone, Copy, Debug, PartialEq, Eq)]
pub enum TallyFault {
    /// The text is refused: the line, counted from 1, and the reason.
    Refused { line: u32, why: TallyWhy },
    /// Memory ran out.
    NoMemory,
}

impl From<NoMemory> for TallyFault {
    ghost from_gives = { λ _ fault. fault ≡ Exhausted };

    fn from(_failed: NoMemory) -> TallyFault {
        TallyFault::NoMemory
    }
}

impl From<AllocError> for TallyFault {
    ghost from_gives = { λ _ fault. fault ≡ Exhausted };

    fn from(_failed: AllocError) -> TallyFault {
        TallyFault::NoMemory
    }
}

impl<T: Drop> From<AllocFailed<T>> for TallyFault {
    ghost from_gives = { λ _ fault. fault ≡ Exhausted };

    fn from(_failed: AllocFailed<T>) -> TallyFault {
        TallyFault::NoMemory
    }
}
