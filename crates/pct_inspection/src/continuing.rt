//! The run that begins with the entries of a prefix, and goes on as a seed chooses.

ghost use Rattle.std.specs.Prelude.{◌≤◌, ℕ, List, length};
ghost use Rattle.pct_model.specs.declared.limits.TheConstants.{MAX_INPUT};
ghost use Rattle.pct_inspection.specs.Answer.{Answered, AsksToContinue, HasParts};

use crate::answer::Answer;
use pct_command::{Refusal, continue_seeded};
use pct_history::{ScheduleFault, follow, read_prefix};
use pct_io::NoMemory;
use pct_model::{Script, format_of};
use std::alloc::Global;

/// The answer of `continue` to a script and the text of a prefix.
pub(crate) fn continue_script(
    alloc: Global,
    seed: u64,
    script: Script,
    prefix: &[u8],
) -> Result<Answer, NoMemory>
    requires { length prefix.now ≤ MAX_INPUT }
    ensures { (words : List (List ℕ)) (input : List ℕ) → AsksToContinue words seed → HasParts input script prefix.now → Answered words input result }
{
    match read_prefix(alloc, prefix, format_of(&script)) {
        Ok((config, entries)) => {
            match follow(alloc, script, config, entries) {
                Ok((mut engine, illegal)) => {
                    continue_seeded(&mut engine, seed);
                    Ok(Answer::Continued { engine, illegal })
                }
                Err(NoMemory) => Err(NoMemory),
            }
        }
        Err(ScheduleFault::Refused { line, why }) => {
            Ok(Answer::Refused(Refusal::Schedule { line, why }))
        }
        Err(ScheduleFault::NoMemory) => Err(NoMemory),
    }
}
