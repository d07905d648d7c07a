//! The command `demo`: runs a generated script.

ghost use Rattle.std.specs.Prelude.{◌≡◌, ℕ, List, Some as Asked};
ghost use Rattle.pct_model.specs.Demo.{demo_number};
ghost use Rattle.pct_command.specs.Answer.{Answered, IsDemonstrated};

use crate::answers::Answer;
use pct_demo::run_counted;
use pct_io::NoMemory;
use pct_model::Config;
use pct_vectors::generate;
use std::alloc::Global;

/// The answer of `demo` to a number.
pub(crate) fn demonstrate(alloc: Global, number: u32) -> Result<Answer, NoMemory>
    ensures answer { (words : List (List ℕ)) (input : List ℕ) → demo_number words ≡ Asked number → Answered words input result }
    ensures demo { IsDemonstrated result }
{
    let script = generate(alloc, number)?;
    let engine = run_counted(alloc, script, Config::DEFAULT)?;
    Ok(Answer::Demonstrated { number, engine })
}
