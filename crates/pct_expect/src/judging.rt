//! Which rules hold of the events in a text.

ghost use Rattle.std.specs.Prelude.{◌≡◌, ◌<◌, ◌^◌, All, IfOk, length};
ghost use Rattle.pct_expect.specs.declared.rule.RuleKind.TheVariants.{After, Before, Count, Never, Thread};
ghost use Rattle.pct_expect.specs.Answers.{AreAnswers, IsAnswer};
ghost use Rattle.pct_expect.specs.Events.{IsWithin, events_in};
ghost use Rattle.pct_expect.specs.Searches.{IsFailure};

use crate::matching::{Asked, Events};
use crate::rule::{Expects, Rule, RuleKind};
use crate::span::Span;
use crate::threads::ThreadSet;
use crate::verdict::{Judged, Verdicts};
use pct_io::NoMemory;
use pct_model::Sequence;
use std::alloc::Global;

/// Which rules hold of the events in a text: one answer for each rule, in order. The lines are parts of the text, fewer than 2^32, and each
/// spells an event: its words. The events are numbered from 1, in the order of the lines.
///
/// A rule that does not hold is answered with a number: in a rule of kind `Count` how many events match; in a rule of kind `Never` the number
/// of the first event that matches; else the number of the first event without the earlier or later one that the rule asks for it.
///
/// An error means that memory ran out.
pub fn judge(
    alloc: Global,
    text: &[u8],
    lines: &[Span],
    expects: &Expects,
) -> Result<Verdicts, NoMemory>
    requires within { All (IsWithin text.now) lines.now }
    requires few { length lines.now < 2 ^ 32 }
    ensures { IfOk result (AreAnswers (events_in text.now lines.now) expects.now) }
{
    let events = Events::of(alloc, text, lines)?;
    let mut verdicts = Vec::new(alloc);
    for rule in expects.as_slice() {
        verdicts.push(judged(alloc, &events, rule)?)?;
    }
    Ok(Sequence::of(verdicts))
}

// The answer to a rule.
fn judged(alloc: Global, events: &Events<'_>, rule: &Rule) -> Result<Judged, NoMemory>
    requires { length events.now < 2 ^ 32 }
    ensures { IfOk result (IsAnswer events.now rule.now) }
{
    match failure(alloc, events, rule)? {
        Some(number) => Ok(Judged {
            line: rule.line,
            holds: false,
            number,
        }),
        None => Ok(Judged {
            line: rule.line,
            holds: true,
            number: 0,
        }),
    }
}

// The number that is reported of a rule, or `None` if it holds.
fn failure(alloc: Global, events: &Events<'_>, rule: &Rule) -> Result<Option<u32>, NoMemory>
    requires { length events.now < 2 ^ 32 }
    ensures { IfOk result (IsFailure rule.now.kind rule.now events.now) }
{
    match rule.kind {
        RuleKind::Never => Ok(first_match(events, rule)),
        RuleKind::Count => Ok(other_count(events, rule)),
        RuleKind::Before => Ok(first_without_earlier(events, rule)),
        RuleKind::After => Ok(first_without_later(events, rule)),
        RuleKind::Thread => first_without_later_in_thread(alloc, events, rule),
    }
}

// The searches, one for each kind. Each stays a function of its own in the program, so that its loop keeps its values in registers.

// Of a rule of kind `Never`.
#[inline(never)]
fn first_match(events: &Events<'_>, rule: &Rule) -> Option<u32>
    requires { length events.now < 2 ^ 32 }
    ensures { IsFailure Never rule.now events.now result }
{
    let first = Asked::of(&rule.first);
    for index in 0..events.len() {
        if first.is_match(events, index) {
            return Some(index as u32 + 1);
        }
    }
    None
}

// Of a rule of kind `Count`.
#[inline(never)]
fn other_count(events: &Events<'_>, rule: &Rule) -> Option<u32>
    requires { length events.now < 2 ^ 32 }
    ensures { IsFailure Count rule.now events.now result }
{
    let first = Asked::of(&rule.first);
    let mut count = 0;
    for index in 0..events.len() {
        if first.is_match(events, index) {
            count += 1;
        }
    }
    if count == rule.number {
        None
    } else {
        Some(count)
    }
}

// Of a rule of kind `Before`. After the first event that matches the first pattern, the rule cannot fail.
#[inline(never)]
fn first_without_earlier(events: &Events<'_>, rule: &Rule) -> Option<u32>
    requires { length events.now < 2 ^ 32 }
    ensures { IsFailure Before rule.now events.now result }
{
    let first = Asked::of(&rule.first);
    let second = Asked::of(&rule.second);
    for index in 0..events.len() {
        if second.is_match(events, index) {
            return Some(index as u32 + 1);
        }
        if first.is_match(events, index) {
            return None;
        }
    }
    None
}

// Of a rule of kind `After`. Before the last event that matches the second pattern, the rule cannot fail.
#[inline(never)]
fn first_without_later(events: &Events<'_>, rule: &Rule) -> Option<u32>
    requires { length events.now < 2 ^ 32 }
    ensures { IsFailure After rule.now events.now result }
{
    let first = Asked::of(&rule.first);
    let second = Asked::of(&rule.second);
    let mut found = None;
    for index in (0..events.len()).rev() {
        if first.is_match(events, index) {
            found = Some(index as u32 + 1);
        }
        if second.is_match(events, index) {
            return found;
        }
    }
    found
}

// Of a rule of kind `Thread`.
#[inline(never)]
fn first_without_later_in_thread(
    alloc: Global,
    events: &Events<'_>,
    rule: &Rule,
) -> Result<Option<u32>, NoMemory>
    requires { length events.now < 2 ^ 32 }
    ensures { IfOk result (IsFailure Thread rule.now events.now) }
{
    let first = Asked::of(&rule.first);
    let second = Asked::of(&rule.second);
    let mut found = None;
    let mut followed = ThreadSet::new(alloc);
    for index in (0..events.len()).rev() {
        if first.is_match(events, index) && !followed.contains(events.thread(index)) {
            found = Some(index as u32 + 1);
        }
        if second.is_match(events, index) {
            followed.insert(events.thread(index))?;
        }
    }
    Ok(found)
}
