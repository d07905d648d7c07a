//! The outcome of an input is unique, and so is the answer to it; what a sample shows of single runs; and that reports of runs pass `audit`.

ghost use Rattle.pct_command.specs.Command.{AnswersAreOne, OutcomesAreOne};
ghost use Rattle.pct_command.specs.FirstSeeds.{FirstSeedsReproduce};
ghost use Rattle.pct_command.specs.PassedAudits.{ReportsPassAudit};

/// An empty function whose contract states a theorem: words, an input and a schedule have at most one outcome, which is a
/// status and a text.
pub fn outcomes_are_one()
    ensures { OutcomesAreOne }
{}

/// An empty function whose contract states a theorem: words that do not ask for more than one worker and an input have at most one
/// answer of `command`, which is a status and a text. `run` with one worker has the schedule of its seed, and the other commands do
/// not depend on one.
pub fn answers_are_one()
    ensures { AnswersAreOne }
{}

/// An empty function whose contract states a theorem: where the answer of `sample` to an input counts runs with a verdict, each answer of
/// `run --seed S` to this input, for the first of their seeds, has the status of this verdict.
pub fn first_seeds_reproduce()
    ensures { FirstSeedsReproduce }
{}

/// An empty function whose contract states a theorem: `audit` of the report of a run of `run` or `replay`, if it has at most 16,777,216 bytes,
/// answers that its events keep the laws, and how many there are.
pub fn reports_pass_audit()
    ensures { ReportsPassAudit }
{}
