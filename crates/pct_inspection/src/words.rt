//! The words after the program's name.

ghost use Rattle.std.specs.Prelude.{◌≡◌, map, string_bytes};
ghost use Rattle.std.specs.List.{list_any};
ghost use Rattle.pct_inspection.specs.Words.{asked_alone, config_asked, continuation_asked, has_leading_zero, inspection_asked, is_of_one_run, is_tallied};
ghost use Rattle.pct_inspection.specs.Words.{seed_count, seeds_asked, survey_asked, tally_asked, view_asked, view_named};

use crate::selecting::read_selection;
use pct_lanes::Selection;
use pct_model::Config;
use pct_options::{read_options, read_seed};
use pct_survey::MAX_SURVEYED;
use pct_tallies::{MAX_TALLIED, Seeds};
use pct_text::numeral;

/// A form in which the steps of a run are shown.
#[derive(Clone, Copy)]
pub enum Form {
    /// A line for each step, with the statement that it takes.
    Trace,
    /// A column for each thread, and a row for each step.
    Lanes,
    /// The same as a picture.
    Picture,
}

/// A view of a run.
#[derive(Clone, Copy)]
pub enum View {
    /// Where each thread is, what it waits for, and its legal entries.
    Choices,
    /// The values of variables, mutexes, semaphores, keys and once controls, and what is registered.
    States,
    /// The steps.
    Steps(Form),
}

/// What the words ask for.
#[derive(Clone, Copy)]
pub enum Inspection {
    /// Go on with a run as this seed chooses, and write the report.
    Continue(u64),
    /// Write a view of a run.
    Show(View),
    /// Run the script under each seed of a range, and write what is counted of the runs.
    Tally(Seeds),
    /// Write the sum of tallies.
    Sum,
    /// Run the script under each seed from 1 to this number, with this configuration, and write what is counted of the rules of an expectation.
    Survey { seeds: u32, config: Config },
    /// Judge the events of a report by each law that is about events alone, and write what is found.
    Judge,
}

/// What the words ask for: `trace`, `choices`, `states`, `sum` or `judge` alone; `lanes` or `picture` and a selection; `continue` and a seed, which is
/// 1 to 20 digits; `survey`, a number of seeds from 1 to 100,000 without leading zeros, and options of `run` but `--seed`, `--workers` and
/// `--turns`; or `tally` and two seeds, which are not 0, of which the second is not less than the first, and which are less than 1,000,000
/// apart. It is `None` with all other words. It allocates no memory.
#[tactic(auto, unfolding(crate::specs::Words::inspection_asked))]
pub fn read_inspection(words: &[String]) -> Option<Inspection>
    ensures { result ≡ inspection_asked (map string_bytes words.now) }
{
    let (command, rest) = words.split_first()?;
    if command.as_bytes() == b"continue".as_slice() {
        continuation_asked(rest)
    } else if command.as_bytes() == b"tally".as_slice() {
        tally_asked(rest)
    } else if command.as_bytes() == b"sum".as_slice() {
        asked_alone(rest, Inspection::Sum)
    } else if command.as_bytes() == b"survey".as_slice() {
        survey_asked(rest)
    } else if command.as_bytes() == b"judge".as_slice() {
        asked_alone(rest, Inspection::Judge)
    } else {
        view_asked(rest, view_named(command.as_bytes())?)
    }
}

// To continue with the seed that is the only word.
fn continuation_asked(words: &[String]) -> Option<Inspection>
    ensures { result ≡ continuation_asked (map string_bytes words.now) }
{
    match words {
        [seed] => Some(Inspection::Continue(read_seed(seed.as_str())?)),
        _ => None,
    }
}

// The tally of the range of the two seeds that are the only words.
fn tally_asked(words: &[String]) -> Option<Inspection>
    ensures { result ≡ tally_asked (map string_bytes words.now) }
{
    match words {
        [first, last] => Some(Inspection::Tally(seeds_asked(first.as_str(), last.as_str())?)),
        _ => None,
    }
}

// The range from one seed to another, if a tally is made for it.
#[tactic(auto, unfolding(crate::specs::Words::seeds_asked))]
fn seeds_asked(first: &str, last: &str) -> Option<Seeds>
    ensures { result ≡ seeds_asked first.now last.now }
{
    let seeds = Seeds {
        first: read_seed(first)?,
        last: read_seed(last)?,
    };
    if is_tallied(seeds) { Some(seeds) } else { None }
}

// Whether a tally is made for a range.
fn is_tallied(seeds: Seeds) -> bool
    ensures { result ≡ is_tallied seeds }
{
    seeds.is_range() && seeds.last - seeds.first < MAX_TALLIED
}

// What a command asks for that takes no more words, if there are none.
fn asked_alone(words: &[String], asked: Inspection) -> Option<Inspection>
    ensures { result ≡ asked_alone (map string_bytes words.now) asked }
{
    if words.is_empty() { Some(asked) } else { None }
}

// The survey of as many seeds as the first word says, with the configuration that the options after it give.
#[tactic(auto, unfolding(crate::specs::Words::survey_asked))]
fn survey_asked(words: &[String]) -> Option<Inspection>
    ensures { result ≡ survey_asked (map string_bytes words.now) }
{
    let (count, options) = words.split_first()?;
    let seeds = seed_count(count.as_bytes())?;
    let config = config_asked(options)?;
    Some(Inspection::Survey { seeds, config })
}

// The number of seeds that a word gives, if it is one from 1 to 100,000 without leading zeros.
#[tactic(auto, unfolding(crate::specs::Words::seed_count))]
fn seed_count(word: &[u8]) -> Option<u32>
    ensures { result ≡ seed_count word.now }
{
    let count = numeral(word)?;
    if !has_leading_zero(word) && 1 <= count && count <= MAX_SURVEYED {
        Some(count)
    } else {
        None
    }
}

// Whether the first byte is the digit 0.
fn has_leading_zero(word: &[u8]) -> bool
    ensures { result ≡ has_leading_zero word.now }
{
    match word {
        [first, ..] => *first == b'0',
        _ => false,
    }
}

// The configuration that options of `run` give, if none of them is the seed, the workers or the turns.
fn config_asked(options: &[String]) -> Option<Config>
    ensures { result ≡ config_asked (map string_bytes options.now) }
{
    if are_of_one_run(options) {
        None
    } else {
        Some(read_options(options)?.config)
    }
}

// Whether one of the words begins as an option that a survey does not have.
fn are_of_one_run(words: &[String]) -> bool
    ensures { result ≡ list_any (λ word. is_of_one_run (string_bytes word)) words.now }
{
    words.iter().any(|word| is_of_one_run(word.as_bytes()))
}

// Whether a word begins as an option that a survey does not have.
fn is_of_one_run(word: &[u8]) -> bool
    ensures { result ≡ is_of_one_run word.now }
{
    word.starts_with(b"--seed".as_slice())
        || word.starts_with(b"--workers".as_slice())
        || word.starts_with(b"--turns".as_slice())
}

// A view, if the words after its name are accepted.
fn view_asked(words: &[String], view: View) -> Option<Inspection>
    ensures { result ≡ view_asked (map string_bytes words.now) view }
{
    let accepted = match view {
        View::Steps(Form::Lanes) | View::Steps(Form::Picture) => read_selection(words).is_some(),
        View::Steps(Form::Trace) | View::Choices | View::States => words.is_empty(),
    };
    if accepted {
        Some(Inspection::Show(view))
    } else {
        None
    }
}

/// The selection that the words after the first one ask for. If they ask for none nothing is left out.
pub(crate) fn selection_in(words: &[String]) -> Selection<'_> {
    match words.split_first() {
        Some((_, rest)) => read_selection(rest).unwrap_or(Selection::ALL),
        None => Selection::ALL,
    }
}

// The view with this name.
#[tactic(auto, unfolding(crate::specs::Words::view_named))]
fn view_named(name: &[u8]) -> Option<View>
    ensures { result ≡ view_named name.now }
{
    if name == b"trace".as_slice() {
        Some(View::Steps(Form::Trace))
    } else if name == b"choices".as_slice() {
        Some(View::Choices)
    } else if name == b"states".as_slice() {
        Some(View::States)
    } else if name == b"lanes".as_slice() {
        Some(View::Steps(Form::Lanes))
    } else if name == b"picture".as_slice() {
        Some(View::Steps(Form::Picture))
    } else {
        None
    }
}
