//! The theorem on the answers to rules.

ghost use Rattle.pct_expect.specs.AnswerLaws.{AnswersAreOne};

/// An empty function whose contract states the theorem: rules have at most one list of answers for a list of events. So the rules and the
/// events determine what `judge` returns, unless memory runs out.
pub fn answers_are_one()
    ensures { AnswersAreOne }
{}
