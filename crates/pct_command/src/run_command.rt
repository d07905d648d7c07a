//! The command `run`: runs a script.

ghost use Rattle.std.specs.Prelude.{◌≡◌, ℕ, List, Some as Asked, IsTrue};
ghost use Rattle.pct_model.specs.Run.{is_config};
ghost use Rattle.pct_model.specs.RunOptions.{HasWorkers, run_options};
ghost use Rattle.pct_command.specs.Answer.{Answered, HasScript};

use crate::answers::Answer;
use pct_audit_laws::reports_of_runs_pass;
use pct_engine::Engine;
use pct_io::{Gate, NoMemory};
use pct_model::{Config, RunOptions, Script, format_of};
use pct_workers::{Runtime, run_shared};
use std::thread::Threads;

/// The answer of `run` with these options to a script. The call of `reports_of_runs_pass` does nothing: its contract is a theorem.
pub(crate) fn run_script<R: Threads + Sync, G: Gate>(
    runtime: &Runtime<'_, R, G>,
    options: RunOptions,
    script: Script,
) -> Result<Answer, NoMemory>
    requires config { IsTrue (is_config options.config) }
    requires workers { HasWorkers options }
    ensures { (words : List (List ℕ)) (input : List ℕ) → run_options words ≡ Asked options → HasScript words input script → Answered words input result }
{
    let options = RunOptions {
        config: Config {
            format: format_of(&script),
            ..options.config
        },
        ..options
    };
    let engine = Engine::open(runtime.alloc, script, options.config)?;
    let ran = run_shared(runtime, engine, options)?;
    reports_of_runs_pass();
    Ok(Answer::Ran(ran))
}
