//! How many runs there are of a kind, and the first of their seeds.

ghost use Rattle.std.specs.Prelude.{◌≡◌, ◌+◌, ◌<◌, ◌^◌, find, option_map};
ghost use Rattle.pct_tallies.specs.Sums.{count_at, count_fits, is_stop, no_runs, sum_of_counts};
ghost use Rattle.pct_tallies.specs.Tallies.{is_met};

use pct_model::{Sequence, Why};

/// How many runs there are of a kind, and the seed of the first of them, 0 if there is none.
#[derive(Clone, Copy, Debug, PartialEq, Eq)]
pub struct Count {
    pub runs: u64,
    pub first: u64,
}

/// The runs that one stop ended.
#[derive(Clone, Copy, Debug, PartialEq, Eq)]
pub struct StopCount {
    pub why: Why,
    pub count: Count,
}

/// The stops that ended a run, each once, in the order of `Why`.
pub type Stops = Sequence<StopCount>;

/// All stops, in their order.
pub(crate) static ALL_STOPS: [Why; 16] = [
    Why::ForkChildCall,
    Why::AsyncCall,
    Why::EnableInHandler,
    Why::ExitInEnding,
    Why::ThreadId,
    Why::JoinSelf,
    Why::NotJoinable,
    Why::JoinTwice,
    Why::DetachJoined,
    Why::KeyId,
    Why::NotOwner,
    Why::CondTwoMutexes,
    Why::ExitTwice,
    Why::ForkInEnding,
    Why::StackFull,
    Why::CleanupFull,
];

/// The count of no runs.
pub(crate) const NO_RUNS: Count = Count { runs: 0, first: 0 };

/// Whether a stop ended a run.
pub(crate) fn is_met(stop: &StopCount) -> bool
    ensures { result ≡ is_met stop.now }
{
    stop.count.runs != 0
}

/// The runs that a stop ended, of those that are listed.
#[tactic(auto, unfolding(crate::specs::Sums::count_at))]
pub(crate) fn count_at(why: Why, stops: &[StopCount]) -> Count
    ensures { result ≡ count_at why stops.now }
{
    found_count(why, stops).unwrap_or(NO_RUNS)
}

// The same, if the stop is listed.
fn found_count(why: Why, stops: &[StopCount]) -> Option<Count>
    ensures { result ≡ option_map (λ stop. stop.count) (find (is_stop why) stops.now) }
{
    stops
        .iter()
        .find(|stop| is_stop(why, stop))
        .map(|stop| stop.count)
}

// Whether runs are those that this stop ended.
#[tactic(auto, unfolding(crate::specs::Sums::is_stop))]
fn is_stop(why: Why, stop: &StopCount) -> bool
    ensures { result ≡ is_stop why stop.now }
{
    stop.why == why
}

/// Whether the number of the runs of two counts has at most 64 bits.
pub(crate) fn count_fits(earlier: Count, later: Count) -> bool
    ensures { result ≡ count_fits earlier later }
{
    earlier.runs.checked_add(later.runs).is_some()
}

/// The runs of two counts, of which those of `earlier` have the smaller seeds.
pub(crate) fn sum_of_counts(earlier: Count, later: Count) -> Count
    requires { earlier.runs + later.runs < 2 ^ 64 }
    ensures { result ≡ sum_of_counts earlier later }
{
    Count {
        runs: earlier.runs + later.runs,
        first: if earlier.runs == 0 {
            later.first
        } else {
            earlier.first
        },
    }
}
