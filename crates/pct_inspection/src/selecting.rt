//! The words of a selection, which says what `lanes` and `picture` leave out.

ghost use Rattle.std.specs.Prelude.{◌≡◌, map, option_map, string_bytes};
ghost use Rattle.pct_inspection.specs.Selections.{are_threads, is_thread, option_named, selection_asked, steps_of, with_events, with_value, with_word};
ghost use Rattle.pct_model.specs.Lines.{split_once};
ghost use Rattle.pct_inspection.specs.SelectionValues.{begun_value, selection_value};

use pct_lanes::Selection;
use pct_text::{number_of, split_once};

// The most threads that a selection names.
const MAX_THREADS: u32 = 64;

/// An option of a selection.
#[derive(Clone, Copy)]
pub(crate) enum SelectionOption {
    Steps,
    Threads,
}

/// A selection of which some words are read.
#[derive(Clone, Copy)]
struct Begun<'a> {
    selection: Selection<'a>,
    // The option whose value is the next word, if there is one.
    option: Option<SelectionOption>,
}

/// The selection that words ask for: `--events`, and the options `--steps FROM-TO` and `--threads P.T,P.T..`, each also as one word
/// `--steps=FROM-TO`, in any order, and each at most once. It is `None` with any other words. It allocates no memory.
#[tactic(auto, unfolding(crate::specs::Selections::selection_asked))]
pub(crate) fn read_selection(words: &[String]) -> Option<Selection<'_>>
    ensures { option_map selection_value result ≡ selection_asked (map string_bytes words.now) }
{
    let mut begun = Begun {
        selection: Selection::ALL,
        option: None,
    };
    for word in words {
        begun = with_word(begun, word.as_bytes())?;
    }
    match begun.option {
        None => Some(begun.selection),
        Some(_) => None,
    }
}

// The selection with one more word.
#[tactic(auto, unfolding(crate::specs::Selections::with_word))]
fn with_word<'a>(begun: Begun<'a>, word: &'a [u8]) -> Option<Begun<'a>>
    ensures { option_map begun_value result ≡ with_word (begun_value begun.entry) word.now }
{
    let selection = begun.selection;
    if let Some(option) = begun.option {
        return with_value(selection, option, word);
    }
    if word == b"--events".as_slice() {
        return with_events(selection);
    }
    match split_once(word, b'=') {
        Some((name, value)) => with_value(selection, option_named(name)?, value),
        None => Some(Begun {
            selection,
            option: Some(option_named(word)?),
        }),
    }
}

// The selection without steps that have no event.
fn with_events(selection: Selection<'_>) -> Option<Begun<'_>>
    ensures { option_map begun_value result ≡ with_events (selection_value selection.entry) }
{
    if selection.events {
        None
    } else {
        Some(Begun {
            selection: Selection {
                events: true,
                ..selection
            },
            option: None,
        })
    }
}

// The selection with the value of an option.
#[tactic(auto, unfolding(crate::specs::Selections::with_value))]
fn with_value<'a>(
    selection: Selection<'a>,
    option: SelectionOption,
    value: &'a [u8],
) -> Option<Begun<'a>>
    ensures { option_map begun_value result ≡ with_value (selection_value selection.entry) option value.now }
{
    let mut selection = selection;
    match option {
        SelectionOption::Steps => {
            let steps = steps_of(value)?;
            if selection.steps.is_some() {
                return None;
            }
            selection.steps = Some(steps);
        }
        SelectionOption::Threads => {
            if selection.threads.is_some() || !are_threads(value) {
                return None;
            }
            selection.threads = Some(value);
        }
    }
    Some(Begun {
        selection,
        option: None,
    })
}

// The option with this name.
#[tactic(auto, unfolding(crate::specs::Selections::option_named))]
fn option_named(name: &[u8]) -> Option<SelectionOption>
    ensures { result ≡ option_named name.now }
{
    if name == b"--steps".as_slice() {
        Some(SelectionOption::Steps)
    } else if name == b"--threads".as_slice() {
        Some(SelectionOption::Threads)
    } else {
        None
    }
}

// The numbers of the first and of the last step, which a text FROM-TO writes.
#[tactic(auto, unfolding(crate::specs::Selections::steps_of))]
fn steps_of(text: &[u8]) -> Option<(u32, u32)>
    ensures { result ≡ steps_of text.now }
{
    let (from, to) = split_once(text, b'-')?;
    let from = number_of(from)?;
    let to = number_of(to)?;
    if 1 <= from && from <= to {
        Some((from, to))
    } else {
        None
    }
}

// Whether a text names 1 to 64 threads, separated by commas.
fn are_threads(text: &[u8]) -> bool
    ensures { result ≡ are_threads 64 text.now }
{
    let mut rest = text;
    for _ in 0..MAX_THREADS {
        match split_once(rest, b',') {
            None => return is_thread(rest),
            Some((first, after)) => {
                if !is_thread(first) {
                    return false;
                }
                rest = after;
            }
        }
    }
    false
}

// Whether a text names a thread, P.T.
#[tactic(auto, unfolding(crate::specs::Selections::is_thread))]
fn is_thread(text: &[u8]) -> bool
    ensures { result ≡ is_thread text.now }
{
    match split_once(text, b'.') {
        Some((process, thread)) => number_of(process).is_some() && number_of(thread).is_some(),
        None => false,
    }
}
