//! The sum of the tallies of ranges.

ghost use Rattle.std.specs.Prelude.{◌≡◌, List, IfOk};
ghost use Rattle.pct_tallies.specs.Faults.{Gives, GivesTotal};
ghost use Rattle.pct_tallies.specs.Totals.{AreOrdered, IsTotalOf, fault_after, fault_of_subjects, first_subject_fault, next_sum, subject_fault, total_from, total_in_order};

use crate::fault::{TallyFault, TallyWhy};
use crate::range_tally::{PlacedTally, RangeTally, Subject};
use crate::seeds::Seeds;
use crate::sum::{fits, sum_of};
use crate::tally::Tally;
use pct_model::Sequence;
use std::alloc::{AllocError, Global};

/// The tally of the seeds of all these ranges, which may stand in any order. All have to be of one script and of one configuration. In the order of
/// their first seeds each has to begin right after the one before it.
///
/// The first of these that holds is refused:
///
/// - there is no tally;
/// - a tally is of another script or of other limits than the first one; the first such tally is named by its line;
/// - a tally has a seed of the one before it, or there is a seed between them, or with it a number of the sum has more than 64 bits; the first such
///   tally, in the order of their first seeds, is named by its line.
pub fn total_of(alloc: Global, tallies: Vec<PlacedTally>) -> Result<RangeTally, TallyFault>
    ensures { GivesTotal (IsTotalOf tallies.items) result }
{
    if let Some((line, why)) = fault_of_subjects(tallies.as_slice()) {
        return Err(refused(line, why));
    }
    total_of_alike(alloc, tallies)
}

// The same, of tallies of one script and of one configuration.
fn total_of_alike(alloc: Global, tallies: Vec<PlacedTally>) -> Result<RangeTally, TallyFault>
    ensures { GivesTotal (λ total. (ordered : List PlacedTally) × AreOrdered tallies.items ordered × (total_in_order ordered ≡ total)) result }
{
    let mut tallies = tallies;
    tallies.sort_by_key(
        |placed: &PlacedTally| -> u64
            ensures { result ≡ placed.now.range.seeds.first }
        { placed.range.seeds.first },
    )?;
    total_in_order(alloc, tallies.as_slice())
}

// The same, of tallies in the order of their first seeds.
fn total_in_order(alloc: Global, tallies: &[PlacedTally]) -> Result<RangeTally, TallyFault>
    ensures { Gives (λ total. total) result (total_in_order tallies.now) }
{
    match tallies.split_first() {
        Some((first, rest)) => {
            let total = copy_of(alloc, &first.range)?;
            total_from(alloc, total, rest)
        }
        None => Err(refused(1, TallyWhy::NoTally)),
    }
}

// An equal tally of a range.
fn copy_of(alloc: Global, range: &RangeTally) -> Result<RangeTally, AllocError>
    ensures { IfOk result (λ copy. copy ≡ range.now) }
{
    let stops = Sequence::of(range.tally.stops().to_vec(alloc)?);
    Ok(RangeTally {
        seeds: range.seeds,
        subject: range.subject,
        tally: Tally {
            complete: range.tally.complete,
            deadlock: range.tally.deadlock,
            budget: range.tally.budget,
            stops,
            joined: range.tally.joined,
            canceled: range.tally.canceled,
            least: range.tally.least,
            most: range.tally.most,
        },
    })
}

// The tally of the seeds of a range and of those after it, in order.
fn total_from(
    alloc: Global,
    first: RangeTally,
    rest: &[PlacedTally],
) -> Result<RangeTally, TallyFault>
    ensures { Gives (λ total. total) result (total_from first rest.now) }
{
    let mut total = first;
    for next in rest {
        total = with_next(alloc, &total, next)?;
    }
    Ok(total)
}

// The line and the reason of the first tally that is of another script or of other limits than the first one.
fn fault_of_subjects(tallies: &[PlacedTally]) -> Option<(u32, TallyWhy)>
    ensures { result ≡ fault_of_subjects tallies.now }
{
    let (first, rest) = tallies.split_first()?;
    first_subject_fault(first.range.subject, rest)
}

// Those of the first of these tallies that is of another subject than this one.
fn first_subject_fault(subject: Subject, tallies: &[PlacedTally]) -> Option<(u32, TallyWhy)>
    ensures { result ≡ first_subject_fault subject tallies.now }
{
    for placed in tallies {
        if let Some(why) = subject_fault(subject, placed.range.subject) {
            return Some((placed.line, why));
        }
    }
    None
}

// Why a tally is refused that is of another subject than this one.
fn subject_fault(subject: Subject, other: Subject) -> Option<TallyWhy>
    ensures { result ≡ subject_fault subject other }
{
    if other.digest != subject.digest {
        Some(TallyWhy::OtherScript)
    } else if other.limits != subject.limits {
        Some(TallyWhy::OtherLimits)
    } else {
        None
    }
}

// The tally of the seeds of two ranges, the second of which begins right after the first.
fn with_next(
    alloc: Global,
    total: &RangeTally,
    next: &PlacedTally,
) -> Result<RangeTally, TallyFault>
    ensures { Gives (λ sum. sum) result (next_sum total.now next.now) }
{
    if let Some(why) = fault_between(total, next) {
        return Err(refused(next.line, why));
    }
    let seeds = Seeds {
        first: total.seeds.first,
        last: next.range.seeds.last,
    };
    let tally = sum_of(alloc, &total.tally, &next.range.tally)?;
    Ok(RangeTally {
        seeds,
        subject: total.subject,
        tally,
    })
}

// Why a range cannot be added to the one before it.
fn fault_between(total: &RangeTally, next: &PlacedTally) -> Option<TallyWhy>
    ensures { result ≡ fault_after total.now next.now }
{
    if next.range.seeds.first <= total.seeds.last {
        Some(TallyWhy::Overlap)
    } else if next.range.seeds.first - total.seeds.last > 1 {
        Some(TallyWhy::Gap)
    } else if !fits(&total.tally, &next.range.tally) {
        Some(TallyWhy::TooLarge)
    } else {
        None
    }
}

fn refused(line: u32, why: TallyWhy) -> TallyFault
    ensures { result ≡ TallyFault.Refused line why }
{
    TallyFault::Refused { line, why }
}
