//! The options of the command `run`.

ghost use Rattle.std.specs.Prelude.{◌≡◌};
ghost use Rattle.pct_model.specs.RunOptions.{option_name, least_value, greatest_value};

use crate::limits::{MAX_BUDGET, MAX_PASSES, MAX_SLOTS, MAX_WORKER, MIN_PASSES};
use crate::schedule::Config;

/// An option of `run`.
#[derive(Clone, Copy)]
pub enum RunOption {
    /// `--budget`: the greatest number of steps.
    Budget,
    /// `--passes`: the greatest number of passes over the destructors of a thread that ends.
    Passes,
    /// `--slots`: the number of thread slots of a process.
    Slots,
    /// `--seed`: the seed of the choices.
    Seed,
    /// `--workers`: the number of workers.
    Workers,
    /// `--turns`: the most turns of a worker.
    Turns,
}

impl RunOption {
    /// The option's name, as it is written.
    pub fn name(self) -> &'static [u8]
        ensures { result.now ≡ option_name self }
    {
        match self {
            RunOption::Budget => b"--budget",
            RunOption::Passes => b"--passes",
            RunOption::Slots => b"--slots",
            RunOption::Seed => b"--seed",
            RunOption::Workers => b"--workers",
            RunOption::Turns => b"--turns",
        }
    }

    /// The least value that the option can have.
    pub fn least(self) -> u64
        ensures { result ≡ least_value self }
    {
        match self {
            RunOption::Budget | RunOption::Slots | RunOption::Workers | RunOption::Turns => 1,
            RunOption::Passes => MIN_PASSES as u64,
            RunOption::Seed => 0,
        }
    }

    /// The greatest value that the option can have.
    pub fn greatest(self) -> u64
        ensures { result ≡ greatest_value self }
    {
        match self {
            RunOption::Budget | RunOption::Turns => MAX_BUDGET as u64,
            RunOption::Passes => MAX_PASSES as u64,
            RunOption::Slots => MAX_SLOTS as u64,
            RunOption::Seed => u64::MAX,
            RunOption::Workers => MAX_WORKER as u64,
        }
    }
}

/// The numbers of a run.
#[derive(Clone, Copy, Debug, PartialEq, Eq)]
pub struct RunOptions {
    pub config: Config,
    /// The seed of the choices.
    pub seed: u64,
    /// The number of workers, 1 to 16.
    pub workers: u32,
    /// The most turns of a worker.
    pub turns: u32,
}
