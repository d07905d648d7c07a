//! The errors of replaying a schedule.

ghost use Rattle.std.specs.Prelude.{◌≡◌};
ghost use Rattle.pct_history.specs.declared.replay_fault.ReplayFault.TheVariants.{NoMemory as no_memory};

use pct_io::NoMemory;
use thiserror::Error;

/// Why `replay` returned no engine.
#[derive(Debug, Drop, Error)]
pub enum ReplayFault {
    /// An entry is not legal at its turn: the first one, counted from 1.
    #[error("entry {entry_number} is not legal")]
    NotLegal { entry_number: u32 },
    /// Memory ran out.
    #[error("memory ran out")]
    NoMemory,
}

impl From<NoMemory> for ReplayFault {
    ghost from_gives = { λ _ fault. fault ≡ no_memory };

    fn from(_failed: NoMemory) -> ReplayFault {
        ReplayFault::NoMemory
    }
}
