//! The runs of a script under seeds, and which rules hold of each.

ghost use Rattle.std.specs.Prelude.{◌≡◌, IfOk, IsTrue};
ghost use Rattle.std.specs.List.{AllZip};
ghost use Rattle.pct_model.specs.Run.{is_config};
ghost use Rattle.pct_survey.specs.JudgedRuns.{IsJudgedRun};

use crate::holding::rules_held;
use pct_engine::Engine;
use pct_expect::{Expects, Rule};
use pct_io::NoMemory;
use pct_model::{Config, Script, Sequence, Verdict};
use pct_sample::run_again;
use pct_script_lines::copy_script;
use std::alloc::Global;

/// What is run under each seed, and the rules that are asked of its runs.
#[derive(Clone, Copy)]
pub struct Subject<'a> {
    pub script: &'a Script,
    pub config: Config,
    pub rules: &'a Expects,
}

/// What is kept of a run.
#[derive(Drop)]
pub struct JudgedRun {
    pub seed: u64,
    pub verdict: Verdict,
    /// Whether each rule holds, in order.
    pub held: Sequence<bool>,
}

/// The runs of a script under these seeds, in order, judged by the rules. The run of a seed S is the one that `run --seed S` makes with this
/// configuration and one worker. One engine makes them all, so the script is copied once.
///
/// `NoMemory` is returned if memory runs out.
pub(crate) fn judged_part(
    alloc: Global,
    subject: &Subject,
    seeds: &[u64],
) -> Result<Vec<JudgedRun>, NoMemory>
    requires { IsTrue (is_config subject.now.config) }
    ensures { IfOk result (λ runs. AllZip (IsJudgedRun subject.now.script.now subject.now.config subject.now.rules.now) seeds.now runs.items) }
{
    let script = copy_script(alloc, subject.script)?;
    let mut engine = Engine::open(alloc, script, subject.config)?;
    let mut runs = Vec::new(alloc);
    for seed in seeds {
        runs.push(judged_run(alloc, &mut engine, subject.rules.as_slice(), *seed)?)?;
    }
    Ok(runs)
}

// Makes the run of the engine's script under a seed, and judges it.
fn judged_run(
    alloc: Global,
    engine: &mut Engine,
    rules: &[Rule],
    seed: u64,
) -> Result<JudgedRun, NoMemory>
    ensures same { engine.new ≡ record engine.old { history = engine.new.history } }
    ensures run { IfOk result (IsJudgedRun engine.old.script engine.old.config rules.now seed) }
{
    run_again(engine, seed);
    let held = rules_held(alloc, engine.script(), engine.events(), rules)?;
    Ok(JudgedRun {
        seed,
        verdict: engine.verdict(),
        held: Sequence::of(held),
    })
}
