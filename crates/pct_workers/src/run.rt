//! A whole run by workers.

ghost use Rattle.std.specs.Prelude.{◌≡◌, ◌<◌, ◌≤◌, ℕ, [], length, IfOk};
ghost use Rattle.pct_model.specs.declared.limits.TheConstants.{MAX_WORKER};
ghost use Rattle.pct_scheduled_run.specs.ScheduledRuns.{IsChosenAt, IsWholeRun};
ghost use Rattle.pct_scheduled_run.specs.Streams.{draws};
ghost use Rattle.pct_workers.specs.Schedules.{WorkersSchedule};

use crate::workers::run_workers;
use pct_engine::Engine;
use pct_io::{Gate, NoMemory};
use pct_model::RunOptions;
use pct_scheduled_run::{Scheduler, continue_run, stream_of};
use pct_shared::Shared;
use rand_pcg::Lcg64Xsh32;
use std::alloc::Global;
use std::thread::Threads;

// The number under which a run is finished, which no worker has.
const FINISHER: u32 = 0;

// The number of the worker of a run that has one worker.
const LONE_WORKER: u32 = 1;

/// What a run takes from its surroundings: threads, memory, and a gate that is called before each turn of a worker.
#[derive(Drop)]
pub struct Runtime<'a, R, G> {
    pub rt: &'a R,
    pub alloc: Global,
    pub gate: &'a G,
}

/// Makes the run of an engine without entries, until the verdict is not `Open`: the workers take their turns, and then the run is finished
/// under the number 0. Two or more workers take them on a shared host; one worker needs no host, and steps the engine itself. The options
/// give the number of workers, the most turns of each, and the seed.
///
/// `NoMemory` means that there is no memory for the host; the engine is dropped then.
pub fn run_shared<R: Threads + Sync, G: Gate>(
    runtime: &Runtime<'_, R, G>,
    engine: Engine,
    options: RunOptions,
) -> Result<Engine, NoMemory>
    requires { (engine.config ≡ options.config) × (engine.history ≡ []) × (0 < options.workers) × (options.workers ≤ MAX_WORKER) }
    ensures { IfOk result (λ made. (made.script ≡ engine.script) × (made.config ≡ engine.config) × WorkersSchedule engine.script options made.history) }
{
    if options.workers == LONE_WORKER {
        return Ok(run_alone(engine, options, runtime.gate));
    }
    let (shared, mut workers) = Shared::open(runtime.alloc, engine, options.workers, options.seed)?;
    run_workers(
        runtime.rt,
        &shared,
        workers.as_mut_slice(),
        options.turns,
        runtime.gate,
    );
    let mut made = shared.close(workers);
    continue_run(&mut made, FINISHER, &mut stream_of(options.seed, FINISHER));
    Ok(made)
}

// The run of one worker, which is then finished under the number 0.
fn run_alone<G: Gate>(mut engine: Engine, options: RunOptions, gate: &G) -> Engine
    requires { (engine.config ≡ options.config) × (engine.history ≡ []) × (options.workers ≡ 1) }
    ensures { (result.script ≡ engine.script) × (result.config ≡ engine.config) × WorkersSchedule engine.script options result.history }
{
    let mut picks = stream_of(options.seed, LONE_WORKER);
    work_alone(&mut engine, &mut picks, options.turns, gate);
    continue_run(
        &mut engine,
        FINISHER,
        &mut stream_of(options.seed, FINISHER),
    );
    engine
}

// Lets one worker step an engine without entries, at most `turns` times, and fewer only if the run cannot go on. Before each turn the gate
// is called, and two words of the worker's stream are drawn, by which it chooses its entry.
fn work_alone<G: Gate>(engine: &mut Engine, picks: &mut Lcg64Xsh32, turns: u32, gate: &G)
    requires { engine.old.history ≡ [] }
    ensures same { engine.new ≡ record engine.old { history = engine.new.history } }
    ensures chosen { (k : ℕ) → k < length engine.new.history → IsChosenAt (draws picks.old) 1 engine.old.script engine.old.config engine.new.history k k }
    ensures few { length engine.new.history ≤ turns }
    ensures whole { length engine.new.history < turns → IsWholeRun engine.old.script engine.old.config engine.new.history }
{
    let mut made = 0;
    while made < turns {
        made += 1;
        gate.at(LONE_WORKER, made);
        let (a, b) = picks.draw();
        if engine.advance(LONE_WORKER, a, b).is_none() {
            return;
        }
    }
}
