//! Reading tallies, one after the other.

ghost use Rattle.std.specs.Prelude.{◌≡◌, ◌+◌, ◌<◌, ◌≤◌, ◌^◌, length, option_map, IfOk, IfSome, MatchOption, Err as NoTallies, ◌∷◌, []};
ghost use Rattle.pct_model.specs.declared.limits.TheConstants.{MAX_INPUT};
ghost use Rattle.pct_model.specs.declared.keyword.Keyword.TheVariants as keyword;
ghost use Rattle.pct_tallies.specs.declared.fault.TallyFault.TheVariants.{NoMemory as Exhausted};
ghost use Rattle.pct_tallies.specs.Faults.{Gives, GivesAlways};
ghost use Rattle.pct_tallies.specs.LinesLeft.{Fits, IsAfter, IsNextLine, IsNotBefore, left_of, with_left};
ghost use Rattle.pct_tallies.specs.Readings.{count_for, counts_from, digest_of, given, limits_of, lines_in, next_by, number_for, range_from, seeds_of, small_number_for, stop_from, stops_from, subject_from, tallies_in};
ghost use Rattle.pct_tallies.specs.Tallies.{all_stops};

use crate::count::{ALL_STOPS, Count, StopCount, Stops};
use crate::fault::{TallyFault, TallyWhy};
use crate::line::{
    count_for, digest_of, limits_of, number_for, seeds_of, small_number_for, stop_count_for,
};
use crate::range_tally::{Limits, PlacedTally, RangeTally, Subject};
use crate::seeds::Seeds;
use crate::tally::Tally;
use pct_model::{Keyword, Sequence, Why};
use pct_text::{first_line, strip_cr};
use std::alloc::{AllocError, Global};

// The lines that are left: the number of the first of them, and their text.
#[derive(Clone, Copy)]
struct Lines<'a> {
    number: u32,
    text: &'a [u8],
}

/// The tallies in a text of nothing but tallies, in the order of the text, each with the number of its first line. A refusal names the first line
/// that is none of a tally; in an empty text, line 1. The bytes of a line are those that `write_range_tally` writes, and there may be a CR before
/// its LF. `NoMemory` comes only with a text that is not empty.
pub fn read_tallies(alloc: Global, text: &[u8]) -> Result<Vec<PlacedTally>, TallyFault>
    requires { length text.now ≤ MAX_INPUT }
    ensures read { Gives (λ tallies. tallies.items) result (tallies_in text.now) }
    ensures memory { result ≡ NoTallies Exhausted → 0 < length text.now }
{
    let mut tallies = Vec::new(alloc);
    let mut lines = Lines { number: 1, text };
    while !lines.text.is_empty() {
        let (range, after) = read_range(alloc, lines)?;
        tallies.push(PlacedTally {
            line: lines.number,
            range,
        })?;
        lines = after;
    }
    if tallies.is_empty() {
        Err(TallyFault::Refused {
            line: 1,
            why: TallyWhy::NoTally,
        })
    } else {
        Ok(tallies)
    }
}

// The tally of a range, and the lines after it.
fn read_range(alloc: Global, lines: Lines<'_>) -> Result<(RangeTally, Lines<'_>), TallyFault>
    requires { Fits lines }
    ensures read { Gives (λ read. (read.0, left_of read.1)) result (range_from (left_of lines.entry)) }
    ensures after { IfOk result (λ read. IsAfter lines.entry read.1) }
{
    let (seeds, after) = read_seeds(lines)?;
    let (subject, after) = read_subject(after)?;
    let (tally, after) = read_counts(alloc, seeds, after)?;
    let range = RangeTally {
        seeds,
        subject,
        tally,
    };
    Ok((range, after))
}

// What is run.
fn read_subject(lines: Lines<'_>) -> Result<(Subject, Lines<'_>), TallyFault>
    requires { Fits lines }
    ensures read { GivesAlways (λ read. (read.0, left_of read.1)) result (subject_from (left_of lines.entry)) }
    ensures after { IfOk result (λ read. IsAfter lines.entry read.1) }
{
    let (digest, after) = read_digest(lines)?;
    let (limits, after) = read_limits(after)?;
    Ok((Subject { digest, limits }, after))
}

// What is counted, of runs under these seeds.
fn read_counts(
    alloc: Global,
    seeds: Seeds,
    lines: Lines<'_>,
) -> Result<(Tally, Lines<'_>), TallyFault>
    requires { Fits lines }
    ensures read { Gives (λ read. (read.0, left_of read.1)) result (counts_from seeds (left_of lines.entry)) }
    ensures after { IfOk result (λ read. IsAfter lines.entry read.1) }
{
    let (complete, after) = read_count(Keyword::Complete, seeds, lines)?;
    let (deadlock, after) = read_count(Keyword::Deadlock, seeds, after)?;
    let (budget, after) = read_count(Keyword::Budget, seeds, after)?;
    let (stops, after) = read_stops(alloc, seeds, after)?;
    let (joined, after) = read_number(Keyword::Joined, after)?;
    let (canceled, after) = read_number(Keyword::Canceled, after)?;
    let (least, after) = read_small_number(Keyword::Least, after)?;
    let (most, after) = read_small_number(Keyword::Most, after)?;
    let tally = Tally {
        complete,
        deadlock,
        budget,
        stops,
        joined,
        canceled,
        least,
        most,
    };
    Ok((tally, after))
}

// The stops: of each the line, if it is the next one.
#[tactic(auto, unfolding(crate::specs::Tallies::all_stops))]
fn read_stops(
    alloc: Global,
    seeds: Seeds,
    lines: Lines<'_>,
) -> Result<(Stops, Lines<'_>), AllocError>
    requires { Fits lines }
    ensures read { IfOk result (λ read. (read.0, left_of read.1) ≡ stops_from all_stops seeds (left_of lines.entry)) }
    ensures after { IfOk result (λ read. IsNotBefore lines.entry read.1) }
{
    let (stops, after) = read_stops_among(alloc, ALL_STOPS.as_slice(), seeds, lines)?;
    Ok((Sequence::of(stops), after))
}

// The same, of these stops.
fn read_stops_among<'a>(
    alloc: Global,
    whys: &[Why],
    seeds: Seeds,
    lines: Lines<'a>,
) -> Result<(Vec<StopCount>, Lines<'a>), AllocError>
    requires { Fits lines }
    ensures read { IfOk result (λ read. (read.0.items, left_of read.1) ≡ stops_from whys.now seeds (left_of lines.entry)) }
    ensures after { IfOk result (λ read. IsNotBefore lines.entry read.1) }
{
    let mut stops = Vec::new(alloc);
    let mut after = lines;
    for why in whys {
        if let Some((count, rest)) = read_stop(*why, seeds, after) {
            stops.push(StopCount { why: *why, count })?;
            after = rest;
        }
    }
    Ok((stops, after))
}

// The count of a stop, if the next line is its line.
fn read_stop(why: Why, seeds: Seeds, lines: Lines<'_>) -> Option<(Count, Lines<'_>)>
    requires { Fits lines }
    ensures read { option_map (λ read. (read.0, left_of read.1)) result ≡ stop_from why seeds (left_of lines.entry) }
    ensures after { IfSome result (λ read. IsAfter lines.entry read.1) }
{
    match next_line(lines) {
        Some((line, after)) => with_lines(stop_count_for(why, seeds, line), after),
        None => None,
    }
}

// A count that was found, and the lines after it.
fn with_lines<'a>(found: Option<Count>, after: Lines<'a>) -> Option<(Count, Lines<'a>)>
    ensures read { option_map (λ read. (read.0, left_of read.1)) result ≡ option_map (with_left after.entry) found }
    ensures after { IfSome result (λ read. read.1 ≡ after.entry) }
{
    match found {
        Some(count) => Some((count, after)),
        None => None,
    }
}

// The next line, without a CR at its end, and the lines after it.
fn next_line(lines: Lines<'_>) -> Option<(&[u8], Lines<'_>)>
    requires { Fits lines }
    ensures { MatchOption result ((left_of lines.entry).1 ≡ []) (λ next. IsNextLine lines.entry next.0.now next.1) }
{
    match first_line(lines.text) {
        Some((raw, text)) => {
            let after = Lines {
                number: lines.number + 1,
                text,
            };
            Some((strip_cr(raw), after))
        }
        None => None,
    }
}

// The value that the next line gives, and the lines after it.
fn read_seeds(lines: Lines<'_>) -> Result<(Seeds, Lines<'_>), TallyFault>
    requires { Fits lines }
    ensures read { GivesAlways (λ read. (read.0, left_of read.1)) result (next_by seeds_of (left_of lines.entry)) }
    ensures after { IfOk result (λ read. IsAfter lines.entry read.1) }
{
    match next_line(lines) {
        Some((line, after)) => value_at(seeds_of(line), lines, after),
        None => Err(bad_line(lines)),
    }
}

fn read_digest(lines: Lines<'_>) -> Result<([u8; 64], Lines<'_>), TallyFault>
    requires { Fits lines }
    ensures read { GivesAlways (λ read. (read.0, left_of read.1)) result (next_by digest_of (left_of lines.entry)) }
    ensures after { IfOk result (λ read. IsAfter lines.entry read.1) }
{
    match next_line(lines) {
        Some((line, after)) => value_at(digest_of(line), lines, after),
        None => Err(bad_line(lines)),
    }
}

fn read_limits(lines: Lines<'_>) -> Result<(Limits, Lines<'_>), TallyFault>
    requires { Fits lines }
    ensures read { GivesAlways (λ read. (read.0, left_of read.1)) result (next_by limits_of (left_of lines.entry)) }
    ensures after { IfOk result (λ read. IsAfter lines.entry read.1) }
{
    match next_line(lines) {
        Some((line, after)) => value_at(limits_of(line), lines, after),
        None => Err(bad_line(lines)),
    }
}

fn read_count(
    word: Keyword,
    seeds: Seeds,
    lines: Lines<'_>,
) -> Result<(Count, Lines<'_>), TallyFault>
    requires { Fits lines }
    ensures read { GivesAlways (λ read. (read.0, left_of read.1)) result (next_by (count_for word seeds) (left_of lines.entry)) }
    ensures after { IfOk result (λ read. IsAfter lines.entry read.1) }
{
    match next_line(lines) {
        Some((line, after)) => value_at(count_for(word, seeds, line), lines, after),
        None => Err(bad_line(lines)),
    }
}

fn read_number(word: Keyword, lines: Lines<'_>) -> Result<(u64, Lines<'_>), TallyFault>
    requires { Fits lines }
    ensures read { GivesAlways (λ read. (read.0, left_of read.1)) result (next_by (number_for word) (left_of lines.entry)) }
    ensures after { IfOk result (λ read. IsAfter lines.entry read.1) }
{
    match next_line(lines) {
        Some((line, after)) => value_at(number_for(word, line), lines, after),
        None => Err(bad_line(lines)),
    }
}

fn read_small_number(word: Keyword, lines: Lines<'_>) -> Result<(u32, Lines<'_>), TallyFault>
    requires { Fits lines }
    ensures read { GivesAlways (λ read. (read.0, left_of read.1)) result (next_by (small_number_for word) (left_of lines.entry)) }
    ensures after { IfOk result (λ read. IsAfter lines.entry read.1) }
{
    match next_line(lines) {
        Some((line, after)) => value_at(small_number_for(word, line), lines, after),
        None => Err(bad_line(lines)),
    }
}

// What was found in the first of the lines, and the lines after it. If nothing was found, the line is refused.
fn value_at<'a, T: Drop>(
    found: Option<T>,
    lines: Lines<'a>,
    after: Lines<'a>,
) -> Result<(T, Lines<'a>), TallyFault>
    requires { after.number ≡ lines.number + 1 }
    ensures read { GivesAlways (λ read. (read.0, left_of read.1)) result (given lines.entry.number found (lines_in after.entry.text.now)) }
    ensures after { IfOk result (λ read. read.1 ≡ after.entry) }
{
    match found {
        Some(value) => Ok((value, after)),
        None => Err(bad_line(lines)),
    }
}

// The first of the lines is none that a tally has there, or it is missing.
fn bad_line(lines: Lines) -> TallyFault
    ensures { result ≡ TallyFault.Refused lines.entry.number TallyWhy.BadLine }
{
    TallyFault::Refused {
        line: lines.number,
        why: TallyWhy::BadLine,
    }
}
