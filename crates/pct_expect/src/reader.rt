//! Reading expectations: first the lines are checked, then the rules are stored.

ghost use Rattle.std.specs.Prelude.{◌≡◌, ◌≤◌, Err, IfOk, IsOk, length, option_map, slice_get};
ghost use Rattle.pct_model.specs.declared.limits.TheConstants.{MAX_INPUT};
ghost use Rattle.pct_model.specs.LineParsing.{spelled_lines};
ghost use Rattle.pct_expect.specs.declared.fault.ExpectFault.TheVariants.{NoMemory};
ghost use Rattle.pct_expect.specs.declared.fault.ExpectWhy.TheVariants.{BadLine};
ghost use Rattle.pct_expect.specs.Gives.{Gives};
ghost use Rattle.pct_expect.specs.Reading.{bad_line, expects_in, fault_in, rules_in};

use crate::fault::{ExpectFault, ExpectWhy};
use crate::parsing::{parts_of, rule_from};
use crate::rule::{Expects, Rule};
use crate::spelled_lines::SpelledLines;
use pct_model::Sequence;
use std::alloc::{AllocError, Global};

/// The most rules of a text.
const MAX_RULES: usize = 64;

/// The rules of a text of at most 16,777,216 bytes, in order.
///
/// A line that has no word, or whose first word begins with `#`, is skipped. Each other line has bytes from 33 to 126 and blanks (tab, CR and
/// space) alone, and is a rule: `never PATTERN`, `count NUMBER PATTERN`, or `before`, `after` or `thread` with two patterns and a word `/`
/// between them. A pattern is 2 to 6 words, none of them `/`. A number is 1 to 10 digits with a value of at most 4294967295.
///
/// `Refused` names the first line that is no rule (`BadLine`); if there is none, the line of the 65th rule (`TooMany`); and line 1 of a text
/// without a rule (`NoRule`). `NoMemory` comes only with a text that is not refused.
pub fn read_expect(alloc: Global, text: &[u8]) -> Result<Expects, ExpectFault>
    requires { length text.now ≤ MAX_INPUT }
    ensures read { Gives result (expects_in text.now) }
    ensures memory { result ≡ Err NoMemory → IsOk (expects_in text.now) }
{
    if let Some((line, why)) = fault_in(text) {
        return Err(ExpectFault::Refused { line, why });
    }
    let rules = rules_in(alloc, SpelledLines::of(text))?;
    Ok(Sequence::of(rules))
}

// The first fault of a text.
fn fault_in(text: &[u8]) -> Option<(u32, ExpectWhy)>
    requires { length text.now ≤ MAX_INPUT }
    ensures { result ≡ fault_in (spelled_lines text.now) }
{
    if let Some(line) = bad_line(SpelledLines::of(text)) {
        return Some((line, ExpectWhy::BadLine));
    }
    if let Some(line) = line_after(MAX_RULES, SpelledLines::of(text)) {
        return Some((line, ExpectWhy::TooMany));
    }
    match line_after(0, SpelledLines::of(text)) {
        Some(_) => None,
        None => Some((1, ExpectWhy::NoRule)),
    }
}

// The number of the first line that is no rule.
fn bad_line(spelled: SpelledLines) -> Option<u32>
    ensures { option_map (λ n. (n, BadLine)) result ≡ bad_line spelled.entry }
{
    let mut lines = spelled;
    while let Some((number, line)) = lines.next() {
        if parts_of(line).is_none() {
            return Some(number);
        }
    }
    None
}

// The number of the line that comes after so many lines.
fn line_after(count: usize, spelled: SpelledLines) -> Option<u32>
    ensures { result ≡ option_map (λ l. l.0) (slice_get spelled.entry count) }
{
    let mut lines = spelled;
    let mut left = count;
    while let Some((number, _)) = lines.next() {
        if left == 0 {
            return Some(number);
        }
        left -= 1;
    }
    None
}

// The rules of the lines.
fn rules_in(alloc: Global, spelled: SpelledLines) -> Result<Vec<Rule>, AllocError>
    ensures { IfOk result (λ rules. rules.items ≡ rules_in spelled.entry) }
{
    let mut lines = spelled;
    let mut rules = Vec::new(alloc);
    while let Some((number, line)) = lines.next() {
        if let Some(parts) = parts_of(line) {
            rules.push(rule_from(alloc, number, parts)?)?;
        }
    }
    Ok(rules)
}
