//! The lines of the tally of a range.

ghost use Rattle.std.specs.Prelude.{◌≡◌, if◌then◌else◌, option_map, Some as Digits, None as NoDigits};
ghost use Rattle.std.specs.List.{list_all};
ghost use Rattle.pct_tallies.specs.CountTexts.{has_leading_zero, value_of};
ghost use Rattle.pct_tallies.specs.Readings.{after_word, count_for, count_of, digest_of, first_in, is_digest, is_hex, limits_of, number_for, seeds_of, small_number_for, stop_count_for, written_count};

use crate::count::{Count, NO_RUNS};
use crate::range_tally::Limits;
use crate::seeds::Seeds;
use pct_model::{Keyword, Why};
use pct_options::read_seed;
use pct_text::{number_of, split_once};
use std::str;

/// The digits of the digest of a script.
const DIGITS: usize = 64;

// The number of 64 bits whose decimal text is exactly this word, so without leading zeros.
#[tactic(auto, using(crate::proofs::CountTexts::count_as_read))]
fn count_of(word: &[u8]) -> Option<u64>
    ensures { result ≡ count_of word.now }
{
    if has_leading_zero(word) {
        None
    } else {
        value_of(word)
    }
}

// Whether a word begins with the digit 0, and has more bytes.
fn has_leading_zero(word: &[u8]) -> bool
    ensures { result ≡ has_leading_zero word.now }
{
    match word {
        [first, _, ..] => *first == b'0',
        _ => false,
    }
}

// The number that 1 to 20 digits write, if it has at most 64 bits.
fn value_of(word: &[u8]) -> Option<u64>
    ensures { result ≡ value_of word.now }
{
    match str::from_utf8(word) {
        Ok(text) => read_seed(text),
        Err(_) => None,
    }
}

// What comes after a word and a space at the beginning of a line.
#[tactic(auto, unfolding(crate::specs::Readings::after_word))]
fn after_word<'a>(word: &[u8], line: &'a [u8]) -> Option<&'a [u8]>
    ensures { option_map (λ rest. rest.now) result ≡ after_word word.now line.now }
{
    let (first, rest) = split_once(line, b' ')?;
    if first == word { Some(rest) } else { None }
}

/// The number of a line `WORD N`.
#[tactic(auto, unfolding(crate::specs::Readings::number_for))]
pub(crate) fn number_for(word: Keyword, line: &[u8]) -> Option<u64>
    ensures { result ≡ number_for word line.now }
{
    count_of(after_word(word.text(), line)?)
}

/// The same, if it has at most 32 bits.
#[tactic(auto, unfolding(crate::specs::Readings::small_number_for))]
pub(crate) fn small_number_for(word: Keyword, line: &[u8]) -> Option<u32>
    ensures { result ≡ small_number_for word line.now }
{
    number_of(after_word(word.text(), line)?)
}

/// The seeds of a line `tally FIRST LAST`, if they are a range.
#[tactic(auto, unfolding(crate::specs::Readings::seeds_of))]
pub(crate) fn seeds_of(line: &[u8]) -> Option<Seeds>
    ensures { result ≡ seeds_of line.now }
{
    let (first, last) = split_once(after_word(b"tally", line)?, b' ')?;
    let seeds = Seeds {
        first: count_of(first)?,
        last: count_of(last)?,
    };
    if seeds.is_range() { Some(seeds) } else { None }
}

/// The digits of a line `script HEX`, if they are the 64 lower-case digits of a digest.
#[tactic(auto, unfolding(crate::specs::Readings::digest_of))]
pub(crate) fn digest_of(line: &[u8]) -> Option<[u8; 64]>
    ensures { result ≡ digest_of line.now }
{
    digits_in(after_word(Keyword::Script.text(), line)?)
}

// The digits in a word, if they are those of a digest.
fn digits_in(word: &[u8]) -> Option<[u8; 64]>
    ensures { result ≡ (if is_digest word.now then Digits word.now else NoDigits) }
{
    if is_digest(word) {
        let mut digits = [0; DIGITS];
        digits.copy_from_slice(word);
        Some(digits)
    } else {
        None
    }
}

// Whether a word is 64 lower-case hexadecimal digits.
fn is_digest(word: &[u8]) -> bool
    ensures { result ≡ is_digest word.now }
{
    word.len() == DIGITS && are_hex(word)
}

fn are_hex(word: &[u8]) -> bool
    ensures { result ≡ list_all is_hex word.now }
{
    word.iter().all(|digit| is_hex(*digit))
}

// Whether a byte is a lower-case hexadecimal digit.
fn is_hex(byte: u8) -> bool
    ensures { result ≡ is_hex byte }
{
    b'0' <= byte && byte <= b'9' || b'a' <= byte && byte <= b'f'
}

/// The limits of a line `limits BUDGET PASSES SLOTS`.
#[tactic(auto, unfolding(crate::specs::Readings::limits_of))]
pub(crate) fn limits_of(line: &[u8]) -> Option<Limits>
    ensures { result ≡ limits_of line.now }
{
    let (budget, rest) = split_once(after_word(b"limits", line)?, b' ')?;
    let (passes, slots) = split_once(rest, b' ')?;
    Some(Limits {
        budget: number_of(budget)?,
        passes: number_of(passes)?,
        slots: number_of(slots)?,
    })
}

/// The count of a line `WORD 0` or `WORD N first S`, if S is one of these seeds.
#[tactic(auto, unfolding(crate::specs::Readings::count_for))]
pub(crate) fn count_for(word: Keyword, seeds: Seeds, line: &[u8]) -> Option<Count>
    ensures { result ≡ count_for word seeds line.now }
{
    written_count(seeds, after_word(word.text(), line)?)
}

// The count that a text `0` or `N first S` writes.
#[tactic(auto, unfolding(crate::specs::Readings::written_count))]
fn written_count(seeds: Seeds, text: &[u8]) -> Option<Count>
    ensures { result ≡ written_count seeds text.now }
{
    if text == b"0".as_slice() {
        Some(NO_RUNS)
    } else {
        first_in(seeds, text)
    }
}

/// The count of a line `CLASS NAME N first S` of a stop, if S is one of these seeds.
#[tactic(auto, unfolding(crate::specs::Readings::stop_count_for))]
pub(crate) fn stop_count_for(why: Why, seeds: Seeds, line: &[u8]) -> Option<Count>
    ensures { result ≡ stop_count_for why seeds line.now }
{
    let rest = after_word(why.class().text(), line)?;
    first_in(seeds, after_word(why.name().text(), rest)?)
}

// The count that a text `N first S` writes, where N is not 0.
#[tactic(auto, unfolding(crate::specs::Readings::first_in))]
fn first_in(seeds: Seeds, text: &[u8]) -> Option<Count>
    ensures { result ≡ first_in seeds text.now }
{
    let (runs, rest) = split_once(text, b' ')?;
    let count = Count {
        runs: count_of(runs)?,
        first: count_of(after_word(Keyword::First.text(), rest)?)?,
    };
    if count.runs != 0 && seeds.contains(count.first) {
        Some(count)
    } else {
        None
    }
}
