//! The run whose choices are made by the words of a random generator.

ghost use Rattle.std.specs.Prelude.{◌≡◌};
ghost use Rattle.pct_command.specs.SeedSchedule.{SeedContinuation};

use pct_engine::Engine;
use pct_scheduled_run::{continue_run, stream_of};

// The worker that makes every step of a seeded run. Its number is that of its stream of words.
const WORKER: u32 = 1;

/// Goes on with a run until the verdict is not `Open`. Worker 1 makes each step: two words of its stream choose the entry, and
/// two new ones are drawn for the next. The stream begins anew, however many entries the run has.
pub fn continue_seeded(engine: &mut Engine, seed: u64)
    ensures same { engine.new ≡ record engine.old { history = engine.new.history } }
    ensures run { SeedContinuation engine.old.script engine.old.config seed engine.old.history engine.new.history }
{
    continue_run(engine, WORKER, &mut stream_of(seed, WORKER));
}
