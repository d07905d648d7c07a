//! What is counted of the runs of many seeds.

ghost use Rattle.std.specs.Prelude.{◌≡◌, ◌≤◌, find, length, option_map, sum_by, IfOk};
ghost use Rattle.pct_model.specs.declared.limits.TheConstants.{MAX_SEEDS};
ghost use Rattle.pct_tallies.specs.Tallies.{all_stops, count_of, first_with, has_verdict, least_in, most_in, runs_with, stop_count, stops_among, tally_of};

use crate::count::{ALL_STOPS, Count, StopCount, Stops, is_met};
use crate::seed_run::SeedRun;
use pct_io::NoMemory;
use pct_model::{DEFAULT_BUDGET, Sequence, Verdict, Why};
use std::alloc::{AllocError, Global};

/// What is counted of runs.
#[derive(Drop)]
pub struct Tally {
    pub complete: Count,
    pub deadlock: Count,
    pub budget: Count,
    pub stops: Stops,
    /// The number of the events `joined` of all runs.
    pub joined: u64,
    /// The number of those events with the value of a canceled thread.
    pub canceled: u64,
    /// The least number of entries of a run.
    pub least: u32,
    /// The greatest number of entries of a run.
    pub most: u32,
}

impl Tally {
    /// The stops that ended a run, in the order of `Why`.
    pub fn stops(&self) -> &[StopCount]
        ensures { result.now ≡ self.now.stops }
    {
        self.stops.as_slice()
    }
}

/// The tally of at most 10,000 runs. `NoMemory` is returned if the stops do not fit into memory.
pub fn tally_of(alloc: Global, runs: &[SeedRun]) -> Result<Tally, NoMemory>
    requires { length runs.now ≤ MAX_SEEDS }
    ensures { IfOk result (λ tally. tally ≡ tally_of runs.now) }
{
    Ok(Tally {
        complete: count_of(Verdict::Complete, runs),
        deadlock: count_of(Verdict::Deadlock, runs),
        budget: count_of(Verdict::Budget, runs),
        stops: stops_in(alloc, runs)?,
        joined: joined_in(runs),
        canceled: canceled_in(runs),
        least: least_in(runs),
        most: most_in(runs),
    })
}

// The stops that ended a run.
#[tactic(auto, unfolding(crate::specs::Tallies::all_stops))]
fn stops_in(alloc: Global, runs: &[SeedRun]) -> Result<Stops, NoMemory>
    requires { length runs.now ≤ MAX_SEEDS }
    ensures { IfOk result (λ stops. stops ≡ stops_among runs.now all_stops) }
{
    Ok(Sequence::of(stops_among(alloc, ALL_STOPS.as_slice(), runs)?))
}

// Those of these stops that ended a run.
#[tactic(auto, unfolding(crate::specs::Tallies::stops_among))]
fn stops_among(alloc: Global, whys: &[Why], runs: &[SeedRun]) -> Result<Vec<StopCount>, AllocError>
    requires { length runs.now ≤ MAX_SEEDS }
    ensures { IfOk result (λ stops. stops.items ≡ stops_among runs.now whys.now) }
{
    whys.iter()
        .map(|why| stop_count(*why, runs))
        .filter(|stop| is_met(stop))
        .collect(alloc)
}

// The runs that a stop ended.
fn stop_count(why: Why, runs: &[SeedRun]) -> StopCount
    requires { length runs.now ≤ MAX_SEEDS }
    ensures { result ≡ stop_count runs.now why }
{
    StopCount {
        why,
        count: count_of(Verdict::Undefined(why), runs),
    }
}

// The runs with a verdict.
fn count_of(verdict: Verdict, runs: &[SeedRun]) -> Count
    requires { length runs.now ≤ MAX_SEEDS }
    ensures { result ≡ count_of verdict runs.now }
{
    Count {
        runs: runs_with(verdict, runs),
        first: first_with(verdict, runs),
    }
}

// The number of the runs with a verdict.
fn runs_with(verdict: Verdict, runs: &[SeedRun]) -> u64
    requires { length runs.now ≤ MAX_SEEDS }
    ensures { result ≡ runs_with verdict runs.now }
{
    runs.iter().filter(|run| has_verdict(run, verdict)).count() as u64
}

// The seed of the first of them, 0 if there is none.
fn first_with(verdict: Verdict, runs: &[SeedRun]) -> u64
    ensures { result ≡ first_with verdict runs.now }
{
    first_seed(verdict, runs).unwrap_or(0)
}

// The same, where there is one.
fn first_seed(verdict: Verdict, runs: &[SeedRun]) -> Option<u64>
    ensures { result ≡ option_map (λ run. run.seed) (find (has_verdict verdict) runs.now) }
{
    runs.iter()
        .find(|run| has_verdict(run, verdict))
        .map(|run| run.seed)
}

// Whether a run has a verdict.
#[tactic(auto, unfolding(crate::specs::Tallies::has_verdict))]
fn has_verdict(run: &SeedRun, verdict: Verdict) -> bool
    ensures { result ≡ has_verdict verdict run.now }
{
    run.verdict == verdict
}

fn joined_in(runs: &[SeedRun]) -> u64
    requires { length runs.now ≤ MAX_SEEDS }
    ensures { result ≡ sum_by (λ run. run.joined) runs.now }
{
    runs.iter().map(|run| u64::from(run.joined)).sum()
}

fn canceled_in(runs: &[SeedRun]) -> u64
    requires { length runs.now ≤ MAX_SEEDS }
    ensures { result ≡ sum_by (λ run. run.canceled) runs.now }
{
    runs.iter().map(|run| u64::from(run.canceled)).sum()
}

// The least number of entries, or the default budget if there are no runs.
fn least_in(runs: &[SeedRun]) -> u32
    ensures { result ≡ least_in runs.now }
{
    runs.iter()
        .fold(DEFAULT_BUDGET, |least, run| least.min(run.steps))
}

// The greatest number of entries.
fn most_in(runs: &[SeedRun]) -> u32
    ensures { result ≡ most_in runs.now }
{
    runs.iter().fold(0, |most, run| most.max(run.steps))
}
