//! The run of a script under a seed.

ghost use Rattle.std.specs.Prelude.{◌≡◌, ◌*◌, ◌≤◌, length, count_by, IfOk};
ghost use Rattle.pct_model.specs.declared.limits.TheConstants.{MAX_BUDGET};
ghost use Rattle.pct_model.specs.Run.{Run};
ghost use Rattle.pct_engine.specs.EngineStates.{IsRunOf};
ghost use Rattle.pct_sample.specs.SeededRuns.{IsSeededRun};
ghost use Rattle.pct_sample.specs.SeedRuns.{IsRunOfSeed, IsSummaryOf, config_of, is_canceled, is_joined};

use pct_engine::Engine;
use pct_io::NoMemory;
use pct_model::{Config, Event, PTHREAD_CANCELED, Script, What, format_of};
use pct_scheduled_run::{continue_run, stream_of};
use pct_script_lines::copy_script;
use pct_tallies::SeedRun;
use std::alloc::Global;

// The worker that makes every step.
const WORKER: u32 = 1;

/// The engine of the runs that `run --seed` makes of a script without other options. The script is copied.
///
/// `NoMemory` is returned if the copy or a run does not fit into memory.
pub(crate) fn open_default(alloc: Global, script: &Script) -> Result<Engine, NoMemory>
    ensures { IfOk result (λ engine. (engine.script ≡ script.now) × (engine.config ≡ config_of script.now)) }
{
    let config = Config {
        format: format_of(script),
        ..Config::DEFAULT
    };
    Engine::open(alloc, copy_script(alloc, script)?, config)
}

/// Makes the run that one worker makes of the engine's script under a seed, with the engine's configuration. What the engine ran before is
/// forgotten.
pub fn run_again(engine: &mut Engine, seed: u64)
    ensures same { engine.new ≡ record engine.old { history = engine.new.history } }
    ensures run { IsSeededRun engine.old.script engine.old.config seed engine.new }
{
    engine.restart();
    continue_run(engine, WORKER, &mut stream_of(seed, WORKER));
}

/// Makes the run of a seed with an engine of `open_default`, and counts what is in it.
pub(crate) fn run_seed(engine: &mut Engine, seed: u64) -> SeedRun
    requires { engine.old.config ≡ config_of engine.old.script }
    ensures same { engine.new ≡ record engine.old { history = engine.new.history } }
    ensures run { IsRunOfSeed engine.old.script seed result }
{
    run_again(engine, seed);
    summary_of(engine, seed)
}

// What is counted of the run of an engine, which is that of a seed.
fn summary_of(engine: &Engine, seed: u64) -> SeedRun
    requires { engine.now.config.budget ≤ MAX_BUDGET }
    ensures seed { result.seed ≡ seed }
    ensures counted { (after : Run) → IsRunOf engine.now after → IsSummaryOf engine.now.script engine.now.config engine.now.history after result }
{
    let steps = engine.history().len() as u32;
    let (joined, canceled) = count_joins(engine.events());
    SeedRun {
        seed,
        verdict: engine.verdict(),
        steps,
        joined,
        canceled,
    }
}

// The number of the events `joined`, and of those with the value of a canceled thread.
fn count_joins(events: &[Event]) -> (u32, u32)
    requires { length events.now ≤ 3 * MAX_BUDGET }
    ensures joined { result.0 ≡ count_by is_joined events.now }
    ensures canceled { result.1 ≡ count_by is_canceled events.now }
{
    let mut joined = 0;
    let mut canceled = 0;
    for event in events {
        if let What::Joined(_, value) = event.what {
            joined += 1;
            if value == PTHREAD_CANCELED {
                canceled += 1;
            }
        }
    }
    (joined, canceled)
}
