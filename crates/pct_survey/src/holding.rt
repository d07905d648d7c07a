//! Which rules hold of the events of a run.

ghost use Rattle.std.specs.Prelude.{◌≡◌, IfOk, count_by, map};
ghost use Rattle.std.specs.Bool.{Decides};
ghost use Rattle.pct_expect.specs.declared.rule.RuleKind.TheVariants.{After, Before, Thread};
ghost use Rattle.pct_expect.specs.Answers.{Holds, HoldsAs};
ghost use Rattle.pct_expect.specs.Events.{matches};
ghost use Rattle.pct_model.specs.Report.{event_line};
ghost use Rattle.pct_survey.specs.JudgedRuns.{AreHeld};

use crate::matching::is_match;
use crate::threads::ThreadSet;
use pct_expect::{Rule, RuleKind, Word};
use pct_io::NoMemory;
use pct_model::{Event, Script};
use std::alloc::Global;

/// Whether each of the rules holds of the events of a run of a script, in order. `NoMemory` is returned if memory runs out.
pub(crate) fn rules_held(
    alloc: Global,
    script: &Script,
    events: &[Event],
    rules: &[Rule],
) -> Result<Vec<bool>, NoMemory>
    ensures { IfOk result (λ held. AreHeld (map (event_line script.now) events.now) rules.now held.items) }
{
    let mut held = Vec::new(alloc);
    for rule in rules {
        held.push(is_held(alloc, script, events, rule)?)?;
    }
    Ok(held)
}

// Whether a rule holds.
fn is_held(alloc: Global, script: &Script, events: &[Event], rule: &Rule) -> Result<bool, NoMemory>
    ensures { IfOk result (λ held. Decides held (Holds rule.now (map (event_line script.now) events.now))) }
{
    match rule.kind {
        RuleKind::Never => Ok(count_matches(script, events, rule.first.as_slice()) == 0),
        RuleKind::Count => {
            let count = count_matches(script, events, rule.first.as_slice());
            Ok(count == rule.number as usize)
        }
        RuleKind::Before => Ok(before_held(script, events, rule)),
        RuleKind::After => Ok(after_held(script, events, rule)),
        RuleKind::Thread => thread_held(alloc, script, events, rule),
    }
}

// How many events a pattern matches.
fn count_matches(script: &Script, events: &[Event], pattern: &[Word]) -> usize
    ensures { result ≡ count_by (λ event. matches pattern.now (event_line script.now event)) events.now }
{
    let mut count = 0;
    for event in events {
        if is_match(script, event, pattern) {
            count += 1;
        }
    }
    count
}

// Of a rule of kind `Before`: of the events that match a pattern the first does not match the second.
fn before_held(script: &Script, events: &[Event], rule: &Rule) -> bool
    ensures { Decides result (HoldsAs Before rule.now (map (event_line script.now) events.now)) }
{
    for index in 0..events.len() {
        let event = &events[index];
        if is_match(script, event, rule.second.as_slice()) {
            return false;
        }
        if is_match(script, event, rule.first.as_slice()) {
            return true;
        }
    }
    true
}

// Of a rule of kind `After`: of the events that match a pattern the last does not match the first.
fn after_held(script: &Script, events: &[Event], rule: &Rule) -> bool
    ensures { Decides result (HoldsAs After rule.now (map (event_line script.now) events.now)) }
{
    for index in (0..events.len()).rev() {
        let event = &events[index];
        if is_match(script, event, rule.first.as_slice()) {
            return false;
        }
        if is_match(script, event, rule.second.as_slice()) {
            return true;
        }
    }
    true
}

// Of a rule of kind `Thread`.
fn thread_held(
    alloc: Global,
    script: &Script,
    events: &[Event],
    rule: &Rule,
) -> Result<bool, NoMemory>
    ensures { IfOk result (λ held. Decides held (HoldsAs Thread rule.now (map (event_line script.now) events.now))) }
{
    let mut followed = ThreadSet::new(alloc);
    for index in (0..events.len()).rev() {
        let event = &events[index];
        if is_match(script, event, rule.first.as_slice())
            && !followed.contains(event.pid, event.tid)
        {
            return Ok(false);
        }
        if is_match(script, event, rule.second.as_slice()) {
            followed.insert(event.pid, event.tid)?;
        }
    }
    Ok(true)
}
