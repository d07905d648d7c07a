//! The values of the words of an event.

ghost use Rattle.std.specs.Prelude.{◌≡◌, ◌<◌, Some, true};
ghost use Rattle.pct_model.specs.Lines.{number_of};
ghost use Rattle.pct_name_numbers.specs.EventReading.{not_zero};
ghost use Rattle.pct_report_reader.specs.Texts.{is_positive};
ghost use Rattle.pct_event_reader.specs.Values.{caller_in, flag_in, number_in, stop_in, value_at};

use pct_model::{Caller, Why};
use pct_text::number_of;

/// The value of a word of an event.
#[derive(Clone, Copy, Default)]
pub(crate) enum Value {
    /// A number, or the index of a name or of a cancellation point.
    Number(u32),
    /// Whether the word is the first of two fixed words.
    Flag(bool),
    Call(Caller),
    Stop(Why),
    /// A fixed word.
    #[default]
    Word,
}

/// The number of a word that is a number and not 0.
#[tactic(auto, using(crate::proofs::Positive::is_not_zero, crate::proofs::Positive::is_some_number, crate::proofs::Positive::is_above_zero))]
pub(crate) fn positive(word: &[u8]) -> u32
    requires { is_positive (number_of word.now) ≡ true }
    ensures value { not_zero word.now ≡ Some result }
    ensures above_zero { 0 < result }
{
    number_of(word).unwrap()
}

// The value with an index.
fn value_at(values: &[Value], index: usize) -> Value
    ensures { result ≡ value_at values.now index }
{
    match values.get(index) {
        Some(value) => *value,
        None => Value::Word,
    }
}

/// The number at an index, 0 if there is none.
#[tactic(auto, unfolding(crate::specs::Values::number_in))]
pub(crate) fn number(values: &[Value], index: usize) -> u32
    ensures { result ≡ number_in (value_at values.now index) }
{
    match value_at(values, index) {
        Value::Number(number) => number,
        _ => 0,
    }
}

/// The flag at an index, false if there is none.
#[tactic(auto, unfolding(crate::specs::Values::flag_in))]
pub(crate) fn flag(values: &[Value], index: usize) -> bool
    ensures { result ≡ flag_in (value_at values.now index) }
{
    match value_at(values, index) {
        Value::Flag(is_set) => is_set,
        _ => false,
    }
}

/// The call at an index, pthread_create if there is none.
#[tactic(auto, unfolding(crate::specs::Values::caller_in))]
pub(crate) fn caller(values: &[Value], index: usize) -> Caller
    ensures { result ≡ caller_in (value_at values.now index) }
{
    match value_at(values, index) {
        Value::Call(call) => call,
        _ => Caller::Create,
    }
}

/// The stop at an index, that of an unknown thread id if there is none.
#[tactic(auto, unfolding(crate::specs::Values::stop_in))]
pub(crate) fn stop(values: &[Value], index: usize) -> Why
    ensures { result ≡ stop_in (value_at values.now index) }
{
    match value_at(values, index) {
        Value::Stop(why) => why,
        _ => Why::ThreadId,
    }
}
