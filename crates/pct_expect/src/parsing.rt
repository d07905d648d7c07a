//! Which rule a line spells.

ghost use Rattle.std.specs.Prelude.{◌≡◌, ℕ, IfOk, option_map, ◌∷◌};
ghost use Rattle.pct_model.specs.LineParsing.{words_in};
ghost use Rattle.pct_expect.specs.Parts.{before_slash, rule_from, size_and_rest};
ghost use Rattle.pct_expect.specs.Rules.{is_pattern, is_size, is_slash, counted, one_pattern, rule_in, rule_of, sides, two_patterns};

use crate::rule::{Pattern, Rule, RuleKind, Word};
use pct_model::Sequence;
use pct_text::{are_allowed, next_word, numeral};
use std::alloc::{AllocError, Global};

/// The least number of words of a pattern, and the greatest.
const MIN_WORDS: usize = 2;

const MAX_WORDS: usize = 6;

/// The parts of a rule's line. A pattern is the bytes that begin with it: its words end at a `/` or at the end of the bytes.
#[derive(Clone, Copy)]
pub(crate) struct Parts<'a> {
    kind: RuleKind,
    number: u32,
    first: &'a [u8],
    second: &'a [u8],
}

fn is_slash(word: &[u8]) -> bool
    ensures { result ≡ is_slash word.now }
{
    word == b"/".as_slice()
}

// Whether so many words may be a pattern.
fn is_size(count: usize) -> bool
    ensures { result ≡ is_size count }
{
    MIN_WORDS <= count && count <= MAX_WORDS
}

// Whether all words of the bytes are one pattern.
fn is_pattern(bytes: &[u8]) -> bool
    ensures { result ≡ is_pattern (words_in bytes.now) }
{
    let mut count = 0;
    let mut rest = bytes;
    while let Some((word, after)) = next_word(rest) {
        if is_slash(word) {
            return false;
        }
        count += 1;
        rest = after;
    }
    is_size(count)
}

// The number of words before the first `/`, and the bytes after it.
fn split_at_slash(bytes: &[u8]) -> Option<(usize, &[u8])>
    ensures { option_map (λ parts. (parts.0, words_in parts.1.now)) result
        ≡ option_map size_and_rest (sides (words_in bytes.now)) }
{
    let mut count = 0;
    let mut rest = bytes;
    while let Some((word, after)) = next_word(rest) {
        if is_slash(word) {
            return Some((count, after));
        }
        count += 1;
        rest = after;
    }
    None
}

// A rule with one pattern.
fn one_pattern(kind: RuleKind, number: u32, bytes: &[u8]) -> Option<Parts<'_>>
    ensures { (n : ℕ) → option_map (rule_from n) result ≡ one_pattern n kind number (words_in bytes.now) }
{
    if is_pattern(bytes) {
        Some(Parts {
            kind,
            number,
            first: bytes,
            second: &[],
        })
    } else {
        None
    }
}

// A rule with a number and a pattern.
fn counted(bytes: &[u8]) -> Option<Parts<'_>>
    ensures { (n : ℕ) → option_map (rule_from n) result ≡ counted n (words_in bytes.now) }
{
    let (word, rest) = next_word(bytes)?;
    one_pattern(RuleKind::Count, numeral(word)?, rest)
}

// A rule with two patterns.
fn two_patterns(kind: RuleKind, bytes: &[u8]) -> Option<Parts<'_>>
    ensures { (n : ℕ) → option_map (rule_from n) result ≡ two_patterns n kind (words_in bytes.now) }
{
    let (count, second) = split_at_slash(bytes)?;
    if is_size(count) && is_pattern(second) {
        Some(Parts {
            kind,
            number: 0,
            first: bytes,
            second,
        })
    } else {
        None
    }
}

// The parts of a rule whose line has this first word, and these bytes after it.
#[tactic(auto, unfolding(crate::specs::Rules::rule_of))]
fn parts_after<'a>(word: &[u8], rest: &'a [u8]) -> Option<Parts<'a>>
    ensures { (n : ℕ) → option_map (rule_from n) result ≡ rule_of n (word.now ∷ words_in rest.now) }
{
    if word == b"never".as_slice() {
        one_pattern(RuleKind::Never, 0, rest)
    } else if word == b"count".as_slice() {
        counted(rest)
    } else if word == b"before".as_slice() {
        two_patterns(RuleKind::Before, rest)
    } else if word == b"after".as_slice() {
        two_patterns(RuleKind::After, rest)
    } else if word == b"thread".as_slice() {
        two_patterns(RuleKind::Thread, rest)
    } else {
        None
    }
}

/// The parts of a line that is a rule. It allocates no memory.
pub(crate) fn parts_of(line: &[u8]) -> Option<Parts<'_>>
    ensures { (n : ℕ) → option_map (rule_from n) result ≡ rule_in n line.now }
{
    if !are_allowed(line) {
        return None;
    }
    let (word, rest) = next_word(line)?;
    parts_after(word, rest)
}

/// The rule of line `number` with these parts.
pub(crate) fn rule_from(alloc: Global, number: u32, parts: Parts<'_>) -> Result<Rule, AllocError>
    ensures { IfOk result (λ rule. rule ≡ rule_from number parts.entry) }
{
    Ok(Rule {
        line: number,
        kind: parts.kind,
        number: parts.number,
        first: pattern_of(alloc, parts.first)?,
        second: pattern_of(alloc, parts.second)?,
    })
}

// The pattern that the bytes begin with.
fn pattern_of(alloc: Global, bytes: &[u8]) -> Result<Pattern, AllocError>
    ensures { IfOk result (λ pattern. pattern ≡ before_slash (words_in bytes.now)) }
{
    let mut words = Vec::new(alloc);
    let mut rest = bytes;
    while let Some((word, after)) = next_word(rest) {
        if is_slash(word) {
            return Ok(Sequence::of(words));
        }
        words.push(copy_of(alloc, word)?)?;
        rest = after;
    }
    Ok(Sequence::of(words))
}

// A copy of a word.
fn copy_of(alloc: Global, word: &[u8]) -> Result<Word, AllocError>
    ensures { IfOk result (λ copy. copy ≡ word.now) }
{
    Ok(Sequence::of(word.to_vec(alloc)?))
}
