//! The command `sample`: runs a script under many seeds.

ghost use Rattle.std.specs.Prelude.{◌≡◌, ◌≤◌, ℕ, List, Some as Asked};
ghost use Rattle.pct_model.specs.declared.limits.TheConstants.{MAX_SEEDS};
ghost use Rattle.pct_model.specs.Sample.{sample_number};
ghost use Rattle.pct_command.specs.Answer.{Answered, HasScript};

use crate::answers::Answer;
use pct_io::{Gate, NoMemory};
use pct_model::Script;
use pct_sample::sample;
use pct_tallies::Seeds;
use pct_workers::Runtime;
use std::thread::Threads;

/// The answer of `sample` with this number of seeds to a script. No gate is called.
pub(crate) fn sample_script<R: Threads + Sync, G: Gate>(
    runtime: &Runtime<'_, R, G>,
    script: &Script,
    seeds: u32,
) -> Result<Answer, NoMemory>
    requires { (1 ≤ seeds) × (seeds ≤ MAX_SEEDS) }
    ensures { (words : List (List ℕ)) (input : List ℕ) → sample_number words ≡ Asked seeds → HasScript words input script.now → Answered words input result }
{
    let tally = sample(
        runtime.rt,
        runtime.alloc,
        script,
        Seeds::up_to(u64::from(seeds)),
    )?;
    Ok(Answer::Sampled { seeds, tally })
}
