//! The lines of a schedule: its header, its entries and its last line.

ghost use Rattle.std.specs.Prelude.{◌≡◌, ◌∷◌, bytes_eq, IfSome};
ghost use Rattle.pct_model.specs.declared.keyword.Keyword.TheVariants as keyword;
ghost use Rattle.pct_model.specs.Keywords.{keyword_text};
ghost use Rattle.pct_model.specs.Lines.{words_of, number_of};
ghost use Rattle.pct_model.specs.Run.{is_config};
ghost use Rattle.pct_model.specs.Schedule.{begins, format_with, config_of, header_of, numbered_choice, choice_of, entry_of, entry_in, is_number, is_end};
ghost use Rattle.pct_schedule.specs.FirstEntry.{AreFirstNumbers, IsFirstEntry};

use pct_model::{
    Alt, Config, Entry, Format, Keyword, MAX_BUDGET, MAX_PASSES, MAX_SLOTS, MAX_WORKER, MIN_PASSES,
};
use pct_text::{is_digit, number_of, split_number, split_once};

/// Whether a line begins with the keyword and a space.
#[inline(always)]
pub fn begins_with(line: &[u8], keyword: Keyword) -> bool
    ensures { result ≡ begins (keyword_text keyword) line.now }
{
    let word = keyword.text();
    line.starts_with(word) && line[word.len()..].starts_with(b" ")
}

// The format with this number.
fn format_with(word: &[u8]) -> Option<Format>
    ensures { result ≡ format_with word.now }
{
    if word == b"1".as_slice() {
        Some(Format::One)
    } else if word == b"2".as_slice() {
        Some(Format::Two)
    } else {
        None
    }
}

// The configuration of a format and three numbers, if it is within the limits.
fn config_of(format: &[u8], budget: &[u8], passes: &[u8], slots: &[u8]) -> Option<Config>
    ensures { result ≡ config_of (format_with format.now) (number_of budget.now) (number_of passes.now) (number_of slots.now) }
{
    let config = Config {
        format: format_with(format)?,
        budget: number_of(budget)?,
        passes: number_of(passes)?,
        slots: number_of(slots)?,
    };
    if is_config(config) {
        Some(config)
    } else {
        None
    }
}

// Whether a run may go under these numbers.
fn is_config(config: Config) -> bool
    ensures { result ≡ is_config config }
{
    1 <= config.budget
        && config.budget <= MAX_BUDGET
        && MIN_PASSES <= config.passes
        && config.passes <= MAX_PASSES
        && 1 <= config.slots
        && config.slots <= MAX_SLOTS
}

/// The configuration in a header, `schedule FORMAT BUDGET PASSES SLOTS`, if it is within the limits.
#[tactic(auto, using(crate::proofs::BySplits::header_by_splits), unfolding(crate::proofs::Splits::header_in))]
pub fn header_of(line: &[u8]) -> Option<Config>
    ensures { result ≡ header_of line.now }
{
    let (title, words) = split_once(line, b' ')?;
    let (format, words) = split_once(words, b' ')?;
    let (budget, words) = split_once(words, b' ')?;
    let (passes, slots) = split_once(words, b' ')?;
    if title == Keyword::Schedule.text() {
        config_of(format, budget, passes, slots)
    } else {
        None
    }
}

// The alternative of a keyword that takes a number.
fn numbered_choice(kind: &[u8], number: u32) -> Option<Alt>
    ensures { result ≡ numbered_choice kind.now number }
{
    if kind == Keyword::Act.text() {
        Some(Alt::Act(number))
    } else if kind == Keyword::New.text() {
        Some(Alt::New(number))
    } else if kind == Keyword::Pick.text() {
        Some(Alt::Pick(number))
    } else if kind == Keyword::Dtor.text() {
        Some(Alt::Dtor(number))
    } else {
        None
    }
}

// Whether the words are `go`, the choice of nearly every entry.
#[tactic(auto, unfolding(pct_model::specs::Keywords::keyword_text))]
#[inline(always)]
fn is_go(words: &[u8]) -> bool
    ensures { result ≡ bytes_eq words.now (keyword_text keyword.Go) }
{
    match words {
        [first, second] => *first == b'g' && *second == b'o',
        _ => false,
    }
}

// An alternative: `go`, `expire`, or a keyword and a number.
#[tactic(auto, using(crate::proofs::BySplits::choice_by_splits), unfolding(crate::proofs::Splits::choice_in))]
fn choice_of(words: &[u8]) -> Option<Alt>
    ensures { result ≡ choice_of (words_of words.now) }
{
    if is_go(words) {
        return Some(Alt::Go);
    }
    if words == Keyword::Expire.text() {
        return Some(Alt::Expire);
    }
    let (kind, number) = split_once(words, b' ')?;
    numbered_choice(kind, number_of(number)?)
}

/// The entry of a line: worker, process, thread and alternative.
#[tactic(auto, using(crate::proofs::BySplits::entry_by_splits, crate::proofs::BySplits::choice_by_splits), unfolding(crate::proofs::Splits::entry_in_line))]
pub fn entry_of(line: &[u8]) -> Option<Entry>
    ensures { result ≡ entry_of line.now }
{
    let (worker, words) = split_number(line)?;
    let (pid, words) = split_number(words)?;
    let (tid, words) = split_number(words)?;
    let alt = choice_of(words)?;
    if worker <= MAX_WORKER {
        Some(Entry {
            worker,
            pid,
            tid,
            alt,
        })
    } else {
        None
    }
}

/// The entry in the first line of a text and the text after that line, where the entry has the choice `go`, as nearly
/// every entry has, and is written as `write_schedule` writes it. Where it is `None`, `entry_in` reads the line.
#[inline(always)]
pub fn split_go(text: &[u8]) -> Option<(Entry, &[u8])>
    ensures { IfSome result (λ parts. IsFirstEntry text.now parts.0 parts.1.now) }
{
    let (worker, pid, words) = split_two(text)?;
    let (tid, words) = split_number(words)?;
    let after = after_go(words)?;
    if worker <= MAX_WORKER {
        let entry = Entry {
            worker,
            pid,
            tid,
            alt: Alt::Go,
        };
        Some((entry, after))
    } else {
        None
    }
}

// The two numbers before the first two spaces, and the text after them. Nearly always both have one digit.
#[inline(always)]
fn split_two(text: &[u8]) -> Option<(u32, u32, &[u8])>
    ensures { IfSome result (λ parts. AreFirstNumbers text.now parts.0 parts.1 parts.2.now) }
{
    if let Some((first, second, after)) = two_bytes(text)
        && is_digit(first)
        && is_digit(second)
    {
        return Some((u32::from(first - b'0'), u32::from(second - b'0'), after));
    }
    let (first, words) = split_number(text)?;
    let (second, words) = split_number(words)?;
    Some((first, second, words))
}

// Two bytes, each with a space after it, and the text after them.
#[inline(always)]
fn two_bytes(text: &[u8]) -> Option<(u8, u8, &[u8])>
    ensures { IfSome result (λ parts. text.now ≡ parts.0 ∷ 32 ∷ parts.1 ∷ 32 ∷ parts.2.now) }
{
    match text {
        [first, b' ', second, b' ', after @ ..] => Some((*first, *second, after)),
        _ => None,
    }
}

// The text after the word `go` and an LF.
#[inline(always)]
fn after_go(text: &[u8]) -> Option<&[u8]>
    ensures { IfSome result (λ after. text.now ≡ 103 ∷ 111 ∷ 10 ∷ after.now) }
{
    match text {
        [b'g', b'o', b'\n', after @ ..] => Some(after),
        _ => None,
    }
}

/// The entry of a line, if a schedule of this format may have it.
pub fn entry_in(format: Format, line: &[u8]) -> Option<Entry>
    ensures { result ≡ entry_in format line.now }
{
    let entry = entry_of(line)?;
    if entry.alt == Alt::Expire && !format.has_timeouts() {
        None
    } else {
        Some(entry)
    }
}

/// Whether a line is `end N` with this N.
#[tactic(auto, using(crate::proofs::BySplits::end_by_splits), unfolding(crate::proofs::Splits::end_in))]
pub fn is_end(count: usize, line: &[u8]) -> bool
    ensures { result ≡ is_end count line.now }
{
    match split_once(line, b' ') {
        Some((title, number)) => title == Keyword::End.text() && is_number(count, number),
        None => false,
    }
}

// Whether a word is the number in decimal.
fn is_number(count: usize, word: &[u8]) -> bool
    ensures { result ≡ is_number count (number_of word.now) }
{
    match number_of(word) {
        Some(number) => number as usize == count,
        None => false,
    }
}
