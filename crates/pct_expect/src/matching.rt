//! Which events a pattern matches. Each event has a key, by which most patterns are refused.

ghost use Rattle.std.specs.Prelude.{◌≡◌, ◌<◌, All, IfOk, false, length, slice_get};
ghost use Rattle.std.specs.Option.{option_map_or};
ghost use Rattle.pct_model.specs.LineParsing.{words_in};
ghost use Rattle.pct_expect.specs.Events.{IsWithin, events_in, matches, part_at, thread_at, word_matches};
ghost use Rattle.pct_expect.specs.Keys.{event_key, key_of};

use crate::rule::{Pattern, Word};
use crate::span::Span;
use pct_io::NoMemory;
use pct_text::next_word;
use std::alloc::Global;
use std::marker::Model;

/// The events that the lines of a text spell. Contracts see the list of the events.
#[derive(Drop)]
pub(crate) struct Events<'a> {
    text: &'a [u8],
    lines: &'a [Span],
    /// The key of each event.
    keys: Vec<u32>,
}

impl<'a> Model for Events<'a> {
    ghost use Rattle.std.specs.Prelude.{◌≡◌, ℕ, All, List};
    ghost use Rattle.pct_expect.specs.Events.{IsWithin, events_in};
    ghost use Rattle.pct_expect.specs.Keys.{keys_in};

    ghost Value = { List (List (List ℕ)) };

    ghost view = { λ events. events_in events.text.now events.lines.now };

    ghost invariant = { λ events. All (IsWithin events.text.now) events.lines.now
        × (events.keys.items ≡ keys_in events.text.now events.lines.now) };
}

impl<'a> Events<'a> {
    /// The events of a text.
    pub(crate) fn of(
        alloc: Global,
        text: &'a [u8],
        lines: &'a [Span],
    ) -> Result<Events<'a>, NoMemory>
        requires { All (IsWithin text.now) lines.now }
        ensures { IfOk result (λ events. events ≡ events_in text.now lines.now) }
    {
        let mut keys = Vec::new(alloc);
        for span in lines {
            keys.push(event_key(part_at(text, *span)))?;
        }
        Ok(Events { text, lines, keys })
    }

    /// How many events there are.
    pub(crate) fn len(&self) -> usize
        ensures { result ≡ length self.now }
    {
        self.lines.len()
    }

    /// The thread of an event: its first word.
    pub(crate) fn thread(&self, index: usize) -> &'a [u8]
        requires { index < length self.now }
        ensures { result.now ≡ thread_at self.now index }
    {
        match next_word(part_at(self.text, self.lines[index])) {
            Some((word, _)) => word,
            None => &[],
        }
    }
}

/// A pattern that is asked of many events. Contracts see its words.
#[derive(Drop)]
pub(crate) struct Asked<'a> {
    words: &'a [Word],
    /// The key of the events that it matches, if they have one key.
    key: Option<u32>,
}

impl<'a> Model for Asked<'a> {
    ghost use Rattle.std.specs.Prelude.{◌≡◌, ℕ, List};
    ghost use Rattle.pct_expect.specs.Keys.{asked_key};

    ghost Value = { List (List ℕ) };

    ghost view = { λ asked. asked.words.now };

    ghost invariant = { λ asked. asked.key ≡ asked_key asked.words.now };
}

impl<'a> Asked<'a> {
    /// A pattern.
    #[tactic(auto, unfolding(crate::specs::Keys::asked_key))]
    pub(crate) fn of(pattern: &'a Pattern) -> Asked<'a>
        ensures { result ≡ pattern.now }
    {
        let words = pattern.as_slice();
        match words.get(1) {
            Some(word) if word.as_slice() != b"*".as_slice() => Asked {
                words,
                key: Some(key_of(word.as_slice())),
            },
            _ => Asked { words, key: None },
        }
    }

    /// Whether it matches an event.
    #[inline(always)]
    pub(crate) fn is_match(&self, events: &Events<'_>, index: usize) -> bool
        requires { index < length events.now }
        ensures { result ≡ option_map_or (matches self.now) (slice_get events.now index) false }
    {
        match self.key {
            Some(key) if key != events.keys[index] => false,
            _ => matches(self.words, part_at(events.text, events.lines[index])),
        }
    }
}

// The part of a text.
fn part_at(text: &[u8], span: Span) -> &[u8]
    requires { IsWithin text.now span }
    ensures { result.now ≡ part_at text.now span }
{
    &text[span.start as usize..span.end as usize]
}

// The key of a word.
#[tactic(auto, unfolding(crate::specs::Keys::key_of))]
fn key_of(word: &[u8]) -> u32
    ensures { result ≡ key_of word.now }
{
    match (word.first(), word.last()) {
        (Some(first), Some(last)) => {
            (word.len() % 256) as u32 * 65536 + u32::from(*first) * 256 + u32::from(*last)
        }
        _ => 0,
    }
}

// The key of the event that a line spells: of its second word.
#[tactic(auto, unfolding(crate::specs::Keys::event_key))]
fn event_key(line: &[u8]) -> u32
    ensures { result ≡ event_key (words_in line.now) }
{
    let Some((_, rest)) = next_word(line) else {
        return 0;
    };
    match next_word(rest) {
        Some((word, _)) => key_of(word),
        None => 0,
    }
}

// Whether a pattern matches an event, whose line is given.
fn matches(pattern: &[Word], line: &[u8]) -> bool
    ensures { result ≡ matches pattern.now (words_in line.now) }
{
    let mut left = pattern;
    let mut rest = line;
    while let Some((word, after)) = next_word(rest) {
        match left.split_first() {
            Some((asked, others)) if word_matches(asked.as_slice(), word) => {
                left = others;
                rest = after;
            }
            _ => return false,
        }
    }
    left.is_empty()
}

// Whether a word of a pattern matches a word.
fn word_matches(asked: &[u8], word: &[u8]) -> bool
    ensures { result ≡ word_matches asked.now word.now }
{
    asked == b"*".as_slice() || asked == word
}
