//! Answers to rules.

use pct_model::Sequence;

/// The answer to a rule.
#[derive(Clone, Copy, Debug, PartialEq, Eq)]
pub struct Judged {
    /// The line of the rule, counted from 1.
    pub line: u32,
    /// Whether the rule holds.
    pub holds: bool,
    /// Of a rule that does not hold: the number of the first event at which it fails, counted from 1, or, in a rule of kind `Count`, how many
    /// events match. It is 0 of a rule that holds.
    pub number: u32,
}

/// The answers, one for each rule, in order.
pub type Verdicts = Sequence<Judged>;
