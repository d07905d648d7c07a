//! The sum of two tallies.

ghost use Rattle.std.specs.Prelude.{◌≡◌, IfOk, IsTrue};
ghost use Rattle.std.specs.List.{list_all};
ghost use Rattle.pct_tallies.specs.Sums.{fits, number_fits, stop_fits, stop_sum, stops_fit, sum_of, sums_among};
ghost use Rattle.pct_tallies.specs.Tallies.{all_stops};

use crate::count::{ALL_STOPS, StopCount, Stops, count_at, count_fits, is_met, sum_of_counts};
use crate::tally::Tally;
use pct_io::NoMemory;
use pct_model::{Sequence, Why};
use std::alloc::{AllocError, Global};

/// Whether each number of the sum of two tallies has at most 64 bits.
pub fn fits(earlier: &Tally, later: &Tally) -> bool
    ensures { result ≡ fits earlier.now later.now }
{
    count_fits(earlier.complete, later.complete)
        && count_fits(earlier.deadlock, later.deadlock)
        && count_fits(earlier.budget, later.budget)
        && stops_fit(earlier.stops(), later.stops())
        && number_fits(earlier.joined, later.joined)
        && number_fits(earlier.canceled, later.canceled)
}

/// The tally of the runs of two tallies, of which those of `earlier` have the smaller seeds. `NoMemory` is returned if the stops do not fit into
/// memory.
pub fn sum_of(alloc: Global, earlier: &Tally, later: &Tally) -> Result<Tally, NoMemory>
    requires { IsTrue (fits earlier.now later.now) }
    ensures { IfOk result (λ tally. tally ≡ sum_of earlier.now later.now) }
{
    Ok(Tally {
        complete: sum_of_counts(earlier.complete, later.complete),
        deadlock: sum_of_counts(earlier.deadlock, later.deadlock),
        budget: sum_of_counts(earlier.budget, later.budget),
        stops: sum_of_stops(alloc, earlier.stops(), later.stops())?,
        joined: earlier.joined + later.joined,
        canceled: earlier.canceled + later.canceled,
        least: earlier.least.min(later.least),
        most: earlier.most.max(later.most),
    })
}

// Whether the sum of two numbers has at most 64 bits.
fn number_fits(earlier: u64, later: u64) -> bool
    ensures { result ≡ number_fits earlier later }
{
    earlier.checked_add(later).is_some()
}

// Whether the number of the runs that a stop ended has at most 64 bits, for each stop.
#[tactic(auto, unfolding(crate::specs::Tallies::all_stops))]
fn stops_fit(earlier: &[StopCount], later: &[StopCount]) -> bool
    ensures { result ≡ stops_fit earlier.now later.now }
{
    each_fits(ALL_STOPS.as_slice(), earlier, later)
}

// The same, for each of these stops.
fn each_fits(whys: &[Why], earlier: &[StopCount], later: &[StopCount]) -> bool
    ensures { result ≡ list_all (stop_fits earlier.now later.now) whys.now }
{
    whys.iter().all(|why| stop_fits(*why, earlier, later))
}

// The same, for one.
fn stop_fits(why: Why, earlier: &[StopCount], later: &[StopCount]) -> bool
    ensures { result ≡ stop_fits earlier.now later.now why }
{
    count_fits(count_at(why, earlier), count_at(why, later))
}

// The stops that ended a run of one of two tallies.
#[tactic(auto, unfolding(crate::specs::Tallies::all_stops))]
fn sum_of_stops(
    alloc: Global,
    earlier: &[StopCount],
    later: &[StopCount],
) -> Result<Stops, NoMemory>
    requires { IsTrue (stops_fit earlier.now later.now) }
    ensures { IfOk result (λ stops. stops ≡ sums_among earlier.now later.now all_stops) }
{
    Ok(Sequence::of(sums_among(alloc, ALL_STOPS.as_slice(), earlier, later)?))
}

// Those of these stops that ended one.
#[tactic(auto, unfolding(crate::specs::Sums::sums_among))]
fn sums_among(
    alloc: Global,
    whys: &[Why],
    earlier: &[StopCount],
    later: &[StopCount],
) -> Result<Vec<StopCount>, AllocError>
    requires { IsTrue (stops_fit earlier.now later.now) }
    ensures { IfOk result (λ stops. stops.items ≡ sums_among earlier.now later.now whys.now) }
{
    whys.iter()
        .map(|why| stop_sum(*why, earlier, later))
        .filter(|stop| is_met(stop))
        .collect(alloc)
}

// The runs of two tallies that a stop ended.
fn stop_sum(why: Why, earlier: &[StopCount], later: &[StopCount]) -> StopCount
    requires { IsTrue (stops_fit earlier.now later.now) }
    ensures { result ≡ stop_sum earlier.now later.now why }
{
    StopCount {
        why,
        count: sum_of_counts(count_at(why, earlier), count_at(why, later)),
    }
}
