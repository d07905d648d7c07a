//! Rules over the events of a run.

use pct_model::Sequence;

/// What a rule asks of the events.
#[derive(Clone, Copy)]
pub enum RuleKind {
    /// No event matches the first pattern.
    Never,
    /// As many events as the number match the first pattern.
    Count,
    /// Each event that matches the second pattern has an earlier one that matches the first.
    Before,
    /// Each event that matches the first pattern has a later one that matches the second.
    After,
    /// Each event that matches the first pattern has a later one of the same thread that matches the second.
    Thread,
}

/// A word: its bytes.
pub type Word = Sequence<u8>;
/// A pattern: its words, of which `*` matches every word.
pub type Pattern = Sequence<Word>;
/// The rules of a text, in order.
pub type Expects = Sequence<Rule>;

/// A rule.
#[derive(Drop)]
pub struct Rule {
    /// The number of its line, counted from 1.
    pub line: u32,
    pub kind: RuleKind,
    /// How many events must match, in a rule of kind `Count`; else 0.
    pub number: u32,
    pub first: Pattern,
    /// The second pattern. It is empty in a rule of kind `Never` or `Count`.
    pub second: Pattern,
}
