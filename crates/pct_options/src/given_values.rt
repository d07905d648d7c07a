//! The values that options were given.

ghost use Rattle.std.specs.Prelude.{◌≡◌, ◌≤◌};
ghost use Rattle.pct_model.specs.RunOptions.{greatest_value};
ghost use Rattle.pct_options.specs.GivenValues.{none_given, numbers_with, with_value};

use pct_model::{
    Config, DEFAULT_BUDGET, DEFAULT_PASSES, DEFAULT_SEED, DEFAULT_SLOTS, DEFAULT_WORKERS, Format,
    RunOption, RunOptions,
};

/// The values that options were given, each at most once.
#[derive(Clone, Copy)]
pub(crate) struct GivenValues {
    budget: Option<u32>,
    passes: Option<u32>,
    slots: Option<u32>,
    seed: Option<u64>,
    workers: Option<u32>,
    turns: Option<u32>,
}

impl GivenValues {
    /// No option was given a value.
    pub(crate) fn none() -> GivenValues
        ensures { result ≡ none_given }
    {
        GivenValues {
            budget: None,
            passes: None,
            slots: None,
            seed: None,
            workers: None,
            turns: None,
        }
    }

    /// The values with one more. It is `None` if the option has one already.
    pub(crate) fn with(self, option: RunOption, value: u64) -> Option<GivenValues>
        requires { value ≤ greatest_value option }
        ensures { result ≡ with_value self option value }
    {
        let mut given = self;
        let had_one = match option {
            RunOption::Budget => given.budget.replace(value as u32).is_some(),
            RunOption::Passes => given.passes.replace(value as u32).is_some(),
            RunOption::Slots => given.slots.replace(value as u32).is_some(),
            RunOption::Seed => given.seed.replace(value).is_some(),
            RunOption::Workers => given.workers.replace(value as u32).is_some(),
            RunOption::Turns => given.turns.replace(value as u32).is_some(),
        };
        if had_one { None } else { Some(given) }
    }

    /// The numbers of a run with these values. An option without one has its default, which is the budget for the turns.
    pub(crate) fn numbers(self) -> RunOptions
        ensures { result ≡ numbers_with self }
    {
        let budget = self.budget.unwrap_or(DEFAULT_BUDGET);
        RunOptions {
            config: Config {
                budget,
                passes: self.passes.unwrap_or(DEFAULT_PASSES),
                slots: self.slots.unwrap_or(DEFAULT_SLOTS),
                format: Format::One,
            },
            seed: self.seed.unwrap_or(DEFAULT_SEED),
            workers: self.workers.unwrap_or(DEFAULT_WORKERS),
            turns: self.turns.unwrap_or(budget),
        }
    }
}
