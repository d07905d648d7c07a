//! The survey of the rules of an expectation over many seeds: `survey`.

ghost use Rattle.std.specs.Prelude.{◌≡◌, ◌≤◌, ℕ, List, length};
ghost use Rattle.pct_model.specs.declared.limits.TheConstants.{MAX_INPUT};
ghost use Rattle.pct_inspection.specs.declared.words.Inspection.TheVariants as inspection;
ghost use Rattle.pct_inspection.specs.Answer.{Answered, AsksFor, HasParts};
ghost use Rattle.pct_inspection.specs.SurveyOutcomes.{IsSurveyed};

use crate::answer::Answer;
use crate::resources::Resources;
use pct_expect::{ExpectFault, read_expect};
use pct_io::NoMemory;
use pct_model::{Config, Script, format_of};
use pct_survey::{Subject, survey};
use std::thread::Threads;

/// The answer of `survey`, with a number of seeds and the configuration of the runs, to a script and the text of an expectation.
pub(crate) fn survey_script<R: Threads + Sync>(
    resources: &Resources<'_, R>,
    asked: (u32, Config),
    script: &Script,
    expectation: &[u8],
) -> Result<Answer, NoMemory>
    requires accepted { IsSurveyed asked.0 asked.1 }
    requires fits { length expectation.now ≤ MAX_INPUT }
    ensures { (words : List (List ℕ)) (input : List ℕ) → AsksFor words (inspection.Survey asked.0 asked.1) → HasParts input script.now expectation.now → Answered words input result }
{
    match read_expect(resources.alloc, expectation) {
        Ok(rules) => {
            let (seeds, config) = asked;
            let subject = Subject {
                script,
                config: Config {
                    format: format_of(script),
                    ..config
                },
                rules: &rules,
            };
            let counted = survey(resources.rt, resources.alloc, &subject, seeds)?;
            Ok(Answer::Surveyed(counted))
        }
        Err(ExpectFault::Refused { line, why }) => Ok(Answer::ExpectRefused { line, why }),
        Err(ExpectFault::NoMemory) => Err(NoMemory),
    }
}
