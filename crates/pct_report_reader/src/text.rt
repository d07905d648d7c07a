//! The texts of events and of verdicts: the tables of their forms.

ghost use Rattle.std.specs.Prelude.{◌≡◌, ◌∷◌, map};
ghost use Rattle.std.specs.List.{list_any};
ghost use Rattle.pct_model.specs.Lines.{words_of};
ghost use Rattle.pct_report_reader.specs.Forms.{as_form, words_left};
ghost use Rattle.pct_report_reader.specs.Texts.{are_words, event_forms, has_form, verdict_forms};

use crate::word::{first_word, is_word};
use pct_model::{Keyword, SymbolKind};

/// What a word of a text may be.
#[derive(Clone, Copy)]
pub enum WordKind {
    /// A number.
    Number,
    /// A number that is not 0.
    Positive,
    /// The name of a function, mutex, condition variable, semaphore or once control.
    Name(SymbolKind),
    /// The name of a cancellation point.
    Point,
    /// The name of a call whose failure is an event.
    Call,
    /// A fixed word.
    Word(Keyword),
    /// One of two fixed words.
    Either(Keyword, Keyword),
    /// The name of a stop of this class.
    Stop(Keyword),
}

/// The form of a text: its first word, and what each word after it may be.
pub type Row = (Keyword, &'static [WordKind]);

const NUMBER: WordKind = WordKind::Number;

const FUNCTION: WordKind = WordKind::Name(SymbolKind::Function);

const MUTEX: WordKind = WordKind::Name(SymbolKind::Mutex);

const COND: WordKind = WordKind::Name(SymbolKind::Cond);

const SEM: WordKind = WordKind::Name(SymbolKind::Sem);

const ONCE: WordKind = WordKind::Name(SymbolKind::Once);

static EVENTS: [Row; 42] = [
    (Keyword::Emit, &[NUMBER]),
    (
        Keyword::Create,
        &[
            WordKind::Positive,
            WordKind::Either(Keyword::Joinable, Keyword::Detached),
        ],
    ),
    (Keyword::Answer, &[WordKind::Call, NUMBER]),
    (Keyword::Push, &[FUNCTION, NUMBER]),
    (
        Keyword::Pop,
        &[
            FUNCTION,
            NUMBER,
            WordKind::Either(Keyword::Run, Keyword::Drop),
        ],
    ),
    (Keyword::Request, &[NUMBER]),
    (Keyword::Detach, &[NUMBER]),
    (
        Keyword::State,
        &[WordKind::Either(Keyword::Enable, Keyword::Disable)],
    ),
    (
        Keyword::Type,
        &[WordKind::Either(Keyword::Asynchronous, Keyword::Deferred)],
    ),
    (Keyword::Call, &[WordKind::Point]),
    (Keyword::Done, &[WordKind::Point]),
    (Keyword::Joined, &[NUMBER, NUMBER]),
    (Keyword::Ending, &[WordKind::Word(Keyword::Exit), NUMBER]),
    (Keyword::Ending, &[WordKind::Word(Keyword::Canceled)]),
    (
        Keyword::Ending,
        &[WordKind::Word(Keyword::Canceled), COND, MUTEX],
    ),
    (Keyword::Handler, &[FUNCTION, NUMBER]),
    (Keyword::Pass, &[NUMBER]),
    (Keyword::Dtor, &[NUMBER, NUMBER, FUNCTION, NUMBER]),
    (Keyword::Leftover, &[NUMBER]),
    (Keyword::Ended, &[NUMBER]),
    (Keyword::Key, &[NUMBER]),
    (Keyword::KeyDelete, &[NUMBER]),
    (Keyword::Acquire, &[MUTEX]),
    (Keyword::Release, &[MUTEX]),
    (Keyword::Signal, &[COND, NUMBER]),
    (Keyword::Broadcast, &[COND, NUMBER]),
    (Keyword::CancelWait, &[COND]),
    (Keyword::Expire, &[COND]),
    (Keyword::HandOn, &[COND, NUMBER]),
    (Keyword::Take, &[SEM]),
    (Keyword::Post, &[SEM]),
    (
        Keyword::Once,
        &[ONCE, WordKind::Either(Keyword::Call, Keyword::Done)],
    ),
    (Keyword::Fork, &[WordKind::Positive]),
    (Keyword::Prepare, &[FUNCTION]),
    (Keyword::Parent, &[FUNCTION]),
    (Keyword::Child, &[FUNCTION]),
    (Keyword::Exit, &[NUMBER]),
    (Keyword::AtExit, &[FUNCTION]),
    (Keyword::ProcessEnd, &[NUMBER]),
    (Keyword::Reap, &[NUMBER, NUMBER]),
    (Keyword::Undefined, &[WordKind::Stop(Keyword::Undefined)]),
    (Keyword::Profile, &[WordKind::Stop(Keyword::Profile)]),
];

static VERDICTS: [Row; 6] = [
    (Keyword::Complete, &[]),
    (Keyword::Deadlock, &[]),
    (Keyword::Budget, &[]),
    (Keyword::Open, &[]),
    (Keyword::Undefined, &[WordKind::Stop(Keyword::Undefined)]),
    (Keyword::Profile, &[WordKind::Stop(Keyword::Profile)]),
];

/// The forms of events.
#[tactic(auto, unfolding(crate::specs::Texts::event_forms))]
pub fn events() -> &'static [Row]
    ensures { map as_form result.now ≡ event_forms }
{
    &EVENTS
}

/// The forms of verdicts.
#[tactic(auto, unfolding(crate::specs::Texts::verdict_forms))]
pub(crate) fn verdicts() -> &'static [Row]
    ensures { map as_form result.now ≡ verdict_forms }
{
    &VERDICTS
}

/// Whether the words are of one of the forms.
pub(crate) fn is_among(forms: &[(Keyword, &[WordKind])], words: Option<&[u8]>) -> bool
    ensures { result ≡ list_any (has_form (words_left words.entry)) (map as_form forms.now) }
{
    match words {
        Some(bytes) => are_among(forms, bytes),
        None => false,
    }
}

// Whether the words of the bytes are of one of the forms.
fn are_among(forms: &[(Keyword, &[WordKind])], bytes: &[u8]) -> bool
    ensures { result ≡ list_any (λ row. has_form (words_of bytes.now) (as_form row)) forms.now }
{
    let (first, rest) = first_word(bytes);
    forms.iter().any(|row| has_form(*row, first, rest))
}

/// Whether a first word and the words after it are of the form.
pub fn has_form(row: (Keyword, &[WordKind]), first: &[u8], rest: Option<&[u8]>) -> bool
    ensures { result ≡ has_form (first.now ∷ words_left rest.entry) (as_form row.entry) }
{
    row.0.text() == first && are_words(row.1, rest)
}

// Whether the words are of these kinds, one word for each kind.
fn are_words(kinds: &[WordKind], words: Option<&[u8]>) -> bool
    ensures { result ≡ are_words kinds.now (words_left words.entry) }
{
    let mut left = kinds;
    let mut rest = words;
    while let Some((kind, others)) = left.split_first() {
        let Some(bytes) = rest else {
            return false;
        };
        let (word, after) = first_word(bytes);
        if !is_word(*kind, word) {
            return false;
        }
        left = others;
        rest = after;
    }
    rest.is_none()
}
