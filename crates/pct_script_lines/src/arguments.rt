//! The tokens of a line: its words, parsed by the argument kind of their position.

ghost use Rattle.std.specs.Prelude.{◌≡◌, ◌<◌, ◌≤◌, true, false, length, codes, IfOk};
ghost use Rattle.std.specs.Option.{option_or};
ghost use Rattle.pct_model.specs.LineKinds.{syntax_of};
ghost use Rattle.pct_model.specs.Names.{is_name};
ghost use Rattle.pct_model.specs.LineParsing.{name, number, initial_count, hyphen, flag, token_at, tokens_at, words_in};

use crate::identifier::is_name;
use pct_model::{ArgumentKind, LineKind, MAX_COUNT, Name, Sequence, Token, Tokens};
use pct_text::{next_word, numeral};
use std::alloc::{AllocError, Global};

#[tactic(auto, using(crate::proofs::NameLengths::name_is_short, crate::proofs::NameLengths::name_is_some))]
fn name(word: &[u8]) -> Option<Token>
    ensures { result ≡ name word.now }
{
    if is_name(word) {
        Some(Token::Name(Name::of(word)))
    } else {
        None
    }
}

fn number(word: &[u8]) -> Option<Token>
    ensures { result ≡ number word.now }
{
    Some(Token::Number(numeral(word)?))
}

fn initial_count(word: &[u8]) -> Option<Token>
    ensures { result ≡ initial_count word.now }
{
    let value = numeral(word)?;
    if value <= MAX_COUNT {
        Some(Token::Number(value))
    } else {
        None
    }
}

// Parses a number or a name.
fn operand(word: &[u8]) -> Option<Token>
    ensures { result ≡ option_or (number word.now) (name word.now) }
{
    match number(word) {
        Some(parsed) => Some(parsed),
        None => name(word),
    }
}

// Parses `-` or a name.
fn optional(word: &[u8]) -> Option<Token>
    ensures { result ≡ option_or (hyphen word.now) (name word.now) }
{
    if word == b"-".as_slice() {
        Some(Token::Nothing)
    } else {
        name(word)
    }
}

// Parses one of two fixed words.
fn either(word: &[u8], this: &[u8], other: &[u8]) -> Option<Token>
    ensures { result ≡ option_or (flag this.now true word.now) (flag other.now false word.now) }
{
    if word == this {
        Some(Token::Flag(true))
    } else if word == other {
        Some(Token::Flag(false))
    } else {
        None
    }
}

fn detached(word: &[u8]) -> Option<Token>
    ensures { result ≡ flag (codes "detached") true word.now }
{
    if word == b"detached".as_slice() {
        Some(Token::Flag(true))
    } else {
        None
    }
}

/// Parses a word by its argument kind. The result is `None` if the word does not fit it.
#[tactic(auto, unfolding(pct_model::specs::LineParsing::token_at))]
pub(crate) fn token_at(argument_kind: ArgumentKind, word: &[u8]) -> Option<Token>
    ensures { result ≡ token_at argument_kind word.now }
{
    match argument_kind {
        ArgumentKind::Declared
        | ArgumentKind::Local
        | ArgumentKind::Variable
        | ArgumentKind::Item(_)
        | ArgumentKind::PlainFunction => name(word),
        ArgumentKind::Count => initial_count(word),
        ArgumentKind::Operand => operand(word),
        ArgumentKind::Dest | ArgumentKind::OptionalFunction | ArgumentKind::OptionalPlainFunction =>
            optional(word),
        ArgumentKind::State => either(word, b"enable", b"disable"),
        ArgumentKind::Mode => either(word, b"asynchronous", b"deferred"),
        ArgumentKind::Detached => detached(word),
    }
}

/// Parses the words after the first one of a line of this kind, where `words` is their number. The result is `None` if
/// a word does not fit its argument kind, or if there are more or fewer words than argument kinds.
pub(crate) fn tokens_at(
    alloc: Global,
    line_kind: LineKind,
    words: usize,
    bytes: &[u8],
) -> Result<Option<Tokens>, AllocError>
    ensures { IfOk result (λ parsed. parsed ≡ tokens_at ((syntax_of line_kind).argument_kinds words) (words_in bytes.now)) }
{
    let mut parsed = Vec::with_capacity(alloc, words)?;
    let mut at = 0;
    let mut rest = bytes;
    while let Some((word, after)) = next_word(rest) {
        let Some(argument_kind) = line_kind.argument_kind(words, at) else {
            return Ok(None);
        };
        let Some(first) = token_at(argument_kind, word) else {
            return Ok(None);
        };
        parsed.push(first)?;
        at += 1;
        rest = after;
    }
    match line_kind.argument_kind(words, at) {
        Some(_) => Ok(None),
        None => Ok(Some(Sequence::of(parsed))),
    }
}
