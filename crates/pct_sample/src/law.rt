//! Which runs the seeds of a sample name, and that there is one tally of them; and sums of tallies.

ghost use Rattle.pct_sample.specs.OneTally.{TalliesAreOne};
ghost use Rattle.pct_sample.specs.Sums.{SumsAreTallies};
ghost use Rattle.pct_sample.specs.SeedWords.{SeedsAreOptions};

/// An empty function whose contract states a theorem: the words `run --seed S` ask for the run that a sample makes under the seed S, with the
/// default configuration, one worker, and a turn for each entry of the budget.
pub fn seeds_are_options()
    ensures { SeedsAreOptions }
{}

/// An empty function whose contract states a theorem: a script has one tally for each range of seeds. It does not depend on how the runs are
/// spread.
pub fn tallies_are_one()
    ensures { TalliesAreOne }
{}

/// An empty function whose contract states a theorem: the sum of the tallies of a script for two ranges of seeds, the second of which begins right
/// after the first, is its tally for the seeds of both.
pub fn sums_are_tallies()
    ensures { SumsAreTallies }
{}
