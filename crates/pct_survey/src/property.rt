//! Properties of judged runs.

ghost use Rattle.std.specs.Prelude.{◌≡◌};
ghost use Rattle.pct_survey.specs.Surveys.{has, is_held};

use crate::judging::JudgedRun;
use pct_model::Verdict;

/// What a run is counted for.
#[derive(Clone, Copy)]
pub enum Property {
    /// The rule with this index holds. The first rule has the index 0.
    Holds(usize),
    /// It does not hold.
    Fails(usize),
    /// The run ends with this verdict.
    Ends(Verdict),
}

impl Property {
    /// Whether a run has the property.
    #[tactic(auto, unfolding(crate::specs::Surveys::has))]
    pub(crate) fn is_of(self, run: &JudgedRun) -> bool
        ensures { result ≡ has self run.now }
    {
        match self {
            Property::Holds(index) => is_held(run, index),
            Property::Fails(index) => !is_held(run, index),
            Property::Ends(verdict) => run.verdict == verdict,
        }
    }
}

// Whether the rule with an index holds of a run.
fn is_held(run: &JudgedRun, index: usize) -> bool
    ensures { result ≡ is_held index run.now }
{
    match run.held.as_slice().get(index) {
        Some(held) => *held,
        None => false,
    }
}
