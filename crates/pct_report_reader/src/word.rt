//! The words of a line.

ghost use Rattle.std.specs.Prelude.{◌≡◌, ◌∷◌, bytes_eq, find, true};
ghost use Rattle.std.specs.List.{list_all};
ghost use Rattle.pct_model.specs.EventTexts.{caller_name};
ghost use Rattle.pct_model.specs.Keywords.{keyword_text};
ghost use Rattle.pct_model.specs.LineKinds.{is_no_point, syntax_of};
ghost use Rattle.pct_model.specs.Lines.{number_of, words_of};
ghost use Rattle.pct_model.specs.Names.{is_letter, is_name, is_name_byte};
ghost use Rattle.pct_report_reader.specs.Forms.{words_left};
ghost use Rattle.pct_report_reader.specs.Texts.{callers, has_name, is_caller, is_positive, is_stop, is_word, stops};

use crate::text::WordKind;
use pct_cancel::point_of;
use pct_model::{Caller, Keyword, LineKind, MAX_NAME, Why};
use pct_text::{is_digit, number_of, split_once};

static CALLERS: [Caller; 8] = [
    Caller::Create,
    Caller::KeyCreate,
    Caller::AtFork,
    Caller::Fork,
    Caller::WaitPid,
    Caller::AtExit,
    Caller::CondTimedWait,
    Caller::SemTimedWait,
];

static STOPS: [Why; 16] = [
    Why::ForkChildCall,
    Why::AsyncCall,
    Why::EnableInHandler,
    Why::ExitInEnding,
    Why::ThreadId,
    Why::JoinSelf,
    Why::NotJoinable,
    Why::JoinTwice,
    Why::DetachJoined,
    Why::KeyId,
    Why::NotOwner,
    Why::CondTwoMutexes,
    Why::ExitTwice,
    Why::ForkInEnding,
    Why::StackFull,
    Why::CleanupFull,
];

/// The first word of the bytes, and the bytes after the space that ends it, if there is one.
#[inline(always)]
pub fn first_word(bytes: &[u8]) -> (&[u8], Option<&[u8]>)
    ensures { words_of bytes.now ≡ result.0.now ∷ words_left result.1 }
{
    match split_once(bytes, b' ') {
        Some((word, after)) => (word, Some(after)),
        None => (bytes, None),
    }
}

/// Whether a word is of this kind.
#[tactic(auto, unfolding(crate::specs::Texts::is_word))]
pub(crate) fn is_word(kind: WordKind, word: &[u8]) -> bool
    ensures { result ≡ is_word kind word.now }
{
    match kind {
        WordKind::Number => number_of(word).is_some(),
        WordKind::Positive => is_positive(word),
        WordKind::Name(_) => is_name(word),
        WordKind::Point => point_of(word).is_some(),
        WordKind::Call => is_caller(word),
        WordKind::Word(one) => one.text() == word,
        WordKind::Either(one, other) => one.text() == word || other.text() == word,
        WordKind::Stop(class) => is_stop(class, word),
    }
}

/// Whether a word is a number that is not 0.
pub(crate) fn is_positive(word: &[u8]) -> bool
    ensures { result ≡ is_positive (number_of word.now) }
{
    match number_of(word) {
        Some(number) => 0 < number,
        None => false,
    }
}

fn is_letter(byte: u8) -> bool
    ensures { result ≡ is_letter byte }
{
    b'A' <= byte && byte <= b'Z' || b'a' <= byte && byte <= b'z'
}

fn is_name_byte(byte: u8) -> bool
    ensures { result ≡ is_name_byte byte }
{
    is_letter(byte) || is_digit(byte) || byte == b'_'
}

fn are_name_bytes(bytes: &[u8]) -> bool
    ensures { result ≡ list_all is_name_byte bytes.now }
{
    bytes.iter().all(|byte| is_name_byte(*byte))
}

// Whether a word is a name: 1 to 31 letters, digits or `_`, the first of them not a digit.
#[tactic(auto, unfolding(pct_model::specs::Names::is_name))]
fn is_name(word: &[u8]) -> bool
    ensures { result ≡ is_name word.now }
{
    match word {
        [] => false,
        [first, ..] => !is_digit(*first) && word.len() <= MAX_NAME && are_name_bytes(word),
    }
}

// Whether a word is the name of a call whose failure is an event.
fn is_caller(word: &[u8]) -> bool
    ensures { result ≡ is_caller word.now }
{
    caller_of(word).is_some()
}

/// The call with this name. It is `None` exactly if the word is not the name of a call whose failure is an event.
pub fn caller_of(word: &[u8]) -> Option<Caller>
    ensures { result ≡ find (λ call. bytes_eq (caller_name call) word.now) callers }
{
    caller_among(&CALLERS, word)
}

// The first of these calls with this name.
fn caller_among(calls: &[Caller], word: &[u8]) -> Option<Caller>
    ensures { result ≡ find (λ call. bytes_eq (caller_name call) word.now) calls.now }
{
    calls
        .iter()
        .copied()
        .find(|call| caller_name(*call) == word)
}

// The name of a call.
fn caller_name(call: Caller) -> &'static [u8]
    ensures { result.now ≡ caller_name call }
{
    match call {
        Caller::Create => keyword_of(LineKind::Create),
        Caller::KeyCreate => keyword_of(LineKind::KeyCreate),
        Caller::AtFork => keyword_of(LineKind::AtFork),
        Caller::Fork => keyword_of(LineKind::Fork),
        Caller::WaitPid => keyword_of(LineKind::WaitPid),
        Caller::AtExit => keyword_of(LineKind::AtExit),
        Caller::CondTimedWait => keyword_of(LineKind::CondTimedWait),
        Caller::SemTimedWait => keyword_of(LineKind::SemTimedWait),
    }
}

// The keyword of a kind of line that has one of its own.
fn keyword_of(kind: LineKind) -> &'static [u8]
    requires { is_no_point kind ≡ true }
    ensures { result.now ≡ (syntax_of kind).keyword }
{
    kind.keyword().unwrap()
}

// Whether a word is the name of a stop of this class.
fn is_stop(class: Keyword, word: &[u8]) -> bool
    ensures { result ≡ is_stop class word.now }
{
    stop_of(class, word).is_some()
}

/// The stop with this class and this name, if there is one.
pub fn stop_of(class: Keyword, name: &[u8]) -> Option<Why>
    ensures { result ≡ find (has_name class name.now) stops }
{
    stop_among(&STOPS, class, name)
}

// The first of these stops that has this class and this name.
fn stop_among(stops: &[Why], class: Keyword, name: &[u8]) -> Option<Why>
    ensures { result ≡ find (has_name class name.now) stops.now }
{
    stops
        .iter()
        .copied()
        .find(|stop| has_name(*stop, class, name))
}

// Whether a stop has this class and this name.
fn has_name(stop: Why, class: Keyword, name: &[u8]) -> bool
    ensures { result ≡ has_name class name.now stop }
{
    stop.class().text() == class.text() && stop.name().text() == name
}
