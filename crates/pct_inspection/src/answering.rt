//! The answer to an input.

ghost use Rattle.std.specs.Prelude.{◌≡◌, ◌<◌, ◌≤◌, ℕ, List, length, IsErr};
ghost use Rattle.pct_model.specs.declared.limits.TheConstants.{MAX_INPUT};
ghost use Rattle.pct_inspection.specs.Answer.{Answered, AsksFor, HasParts};
ghost use Rattle.pct_inspection.specs.TallyOutcomes.{IsAccepted, IsOfScript, parts_for};

use crate::answer::Answer;
use crate::continuing::continue_script;
use crate::judging::judge_input;
use crate::resources::Resources;
use crate::showing::{Parts, show_script};
use crate::surveying::survey_script;
use crate::tallying::{sum_tallies, tally_script};
use crate::words::Inspection;
use pct_command::Refusal;
use pct_history::split_replay;
use pct_io::NoMemory;
use pct_lanes::Selection;
use pct_script::parse;
use pct_script_lines::ParseFault;
use std::thread::Threads;

/// The answer to an input. `NoMemory` comes only with an input that is not empty.
pub(crate) fn answer_input<R: Threads + Sync>(
    resources: &Resources<'_, R>,
    asked: Inspection,
    selection: Selection,
    input: &[u8],
) -> Result<Answer, NoMemory>
    requires fits { length input.now ≤ MAX_INPUT }
    requires accepted { IsAccepted asked }
    ensures answer { (words : List (List ℕ)) → AsksFor words asked → Answered words input.now result }
    ensures memory { IsErr result → 0 < length input.now }
{
    match asked {
        Inspection::Sum => sum_tallies(resources.alloc, input),
        Inspection::Judge => judge_input(resources.alloc, input),
        _ => answer_script(resources, asked, selection, input),
    }
}

// The answer to an input with a script.
fn answer_script<R: Threads + Sync>(
    resources: &Resources<'_, R>,
    asked: Inspection,
    selection: Selection,
    input: &[u8],
) -> Result<Answer, NoMemory>
    requires fits { length input.now ≤ MAX_INPUT }
    requires accepted { IsAccepted asked }
    requires script { IsOfScript asked }
    ensures answer { (words : List (List ℕ)) → AsksFor words asked → Answered words input.now result }
    ensures memory { IsErr result → 0 < length input.now }
{
    let alloc = resources.alloc;
    let (end, start) = parts_of(asked, input);
    let text = &input[..end];
    match parse(alloc, text) {
        Ok(script) => match asked {
            Inspection::Continue(seed) => continue_script(alloc, seed, script, &input[start..]),
            Inspection::Show(view) => {
                let parts = Parts {
                    text,
                    prefix: &input[start..],
                };
                show_script(alloc, view, selection, script, parts)
            }
            Inspection::Tally(seeds) => tally_script(resources, seeds, &script),
            Inspection::Survey { seeds, config } => {
                survey_script(resources, (seeds, config), &script, &input[start..])
            }
            Inspection::Sum | Inspection::Judge => unreachable!(),
        },
        Err(ParseFault::Refused { line, why }) => {
            Ok(Answer::Refused(Refusal::Script { line, why }))
        }
        Err(ParseFault::NoMemory) => Err(NoMemory),
    }
}

// The end of the script's part of an input, and the start of the part after it. With `tally` all is the script.
fn parts_of(asked: Inspection, input: &[u8]) -> (usize, usize)
    ensures parts { result ≡ parts_for asked input.now }
    ensures within { (result.0 ≤ length input.now) × (result.1 ≤ length input.now) }
{
    match asked {
        Inspection::Tally(_) => (input.len(), input.len()),
        _ => split_replay(input),
    }
}
