//! The run whose choices are made by the number of its entries.

ghost use Rattle.std.specs.Prelude.{IfOk, IsTrue};
ghost use Rattle.pct_model.specs.Run.{is_config};
ghost use Rattle.pct_demo.specs.CountedRuns.{IsCountedEngine, counts};

use pct_engine::Engine;
use pct_io::NoMemory;
use pct_model::{Config, Script};
use pct_scheduled_run::{Scheduler, continue_run};
use std::alloc::Global;

// The worker that makes every step.
const WORKER: u32 = 0;

/// Runs a script until the verdict is not `Open`. Worker 0 makes each step, and the number of the steps so far chooses both the thread
/// and what it does.
///
/// `NoMemory` is returned if the run does not fit into memory; all memory is taken before the first step.
pub fn run_counted(alloc: Global, script: Script, config: Config) -> Result<Engine, NoMemory>
    requires { IsTrue (is_config config) }
    ensures { IfOk result (λ engine. IsCountedEngine script config engine) }
{
    let mut engine = Engine::open(alloc, script, config)?;
    continue_run(&mut engine, WORKER, &mut Counter { made: 0 });
    Ok(engine)
}

// The scheduler whose two numbers are both the number of its draws so far.
#[derive(Drop)]
struct Counter {
    made: u32,
}

impl Scheduler for Counter {
    ghost draws = { λ c. counts c.made };

    fn draw(&mut self) -> (u32, u32) {
        let made = self.made;
        self.made = made.wrapping_add(1);
        (made, made)
    }
}
