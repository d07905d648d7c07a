//! The words of options.

ghost use Rattle.std.specs.Prelude.{◌≡◌, None as Nothing, IfSome, map, option_and_then, option_map, string_bytes};
ghost use Rattle.pct_model.specs.RunOptions.{HasWorkers, given_after, options_of};
ghost use Rattle.pct_options.specs.FirstOption.{first_option, split_name};
ghost use Rattle.pct_options.specs.GivenValues.{with_option};

use crate::given_values::GivenValues;
use crate::option_text::{option_named, value_of};
use pct_model::RunOptions;

/// The numbers of the run that the words after `run` ask for: `--budget N`, `--passes N`, `--slots N`, `--seed N`, `--workers N` and
/// `--turns N`, each also as one word `--budget=N`, in any order, and each at most once. Without `--turns` the turns are the budget. It is
/// `None` with any other words, and with a value that its option cannot have.
pub fn read_options(words: &[String]) -> Option<RunOptions>
    ensures value { result ≡ option_and_then options_of (given_after Nothing (map string_bytes words.now)) }
    ensures workers { IfSome result (λ options. HasWorkers options) }
{
    let mut given = GivenValues::none();
    let mut rest = words;
    while !rest.is_empty() {
        let (name, text, after) = first_option(rest)?;
        given = with_option(given, name, text)?;
        rest = after;
    }
    Some(given.numbers())
}

// The first option of some words: its name, the text of its value, and the words after it.
#[tactic(auto, unfolding(crate::specs::FirstOption::first_option))]
fn first_option(words: &[String]) -> Option<(&str, &str, &[String])>
    ensures { option_map (λ parts. (record { name = parts.0.now; value = parts.1.now }, map string_bytes parts.2.now)) result
        ≡ first_option (map string_bytes words.now) }
{
    let (word, rest) = words.split_first()?;
    match split_name(word.as_str()) {
        Some((name, text)) => Some((name, text, rest)),
        None => {
            let (text, rest) = rest.split_first()?;
            Some((word.as_str(), text.as_str(), rest))
        }
    }
}

// The name and the text of the value in a word with both.
fn split_name(word: &str) -> Option<(&str, &str)>
    ensures { option_map (λ parts. (parts.0.now, parts.1.now)) result ≡ split_name word.now }
{
    word.split_once('=')
}

// The values with that of an option which a text gives.
#[tactic(auto, unfolding(crate::specs::GivenValues::with_option))]
fn with_option(given: GivenValues, name: &str, text: &str) -> Option<GivenValues>
    ensures { result ≡ with_option given (record { name = name.now; value = text.now }) }
{
    let option = option_named(name)?;
    let value = value_of(option, text)?;
    given.with(option, value)
}
