//! A run that one worker steps to its end.

ghost use Rattle.std.specs.Prelude.{◌≡◌, ◌≤◌, ℕ, suc, [], ◌∷◌, ◌++◌, IfNone, IfSome};
ghost use Rattle.pct_model.specs.declared.limits.TheConstants.{MAX_WORKER};
ghost use Rattle.pct_model.specs.Run.{Run};
ghost use Rattle.pct_engine.specs.EngineStates.{IsRunOf, IsChoice};
ghost use Rattle.pct_scheduled_run.specs.ScheduledRuns.{IsContinuedBy};

use crate::scheduler::Scheduler;
use pct_engine::Engine;
use pct_model::Entry;

/// Goes on with a run until the verdict is not `Open`. A worker, at most `MAX_WORKER`, makes each step: the two numbers of a turn of the
/// scheduler choose the entry.
pub fn continue_run<S: Scheduler>(engine: &mut Engine, worker: u32, scheduler: &mut S)
    requires { worker ≤ MAX_WORKER }
    ensures same { engine.new ≡ record engine.old { history = engine.new.history } }
    ensures run { IsContinuedBy (S.draws scheduler.old) worker engine.old.script engine.old.config engine.old.history engine.new.history }
{
    while let Some(_) = advance(engine, worker, scheduler) {}
}

// Makes the step of the entry that the numbers of the next turn choose.
fn advance<S: Scheduler>(engine: &mut Engine, worker: u32, scheduler: &mut S) -> Option<Entry>
    requires { worker ≤ MAX_WORKER }
    ensures run { (after : Run) × IsRunOf engine.old after × IsChoice engine.old after worker (S.draws scheduler.old 0).0 (S.draws scheduler.old 0).1 result }
    ensures made { IfSome result (λ entry. engine.new ≡ record engine.old { history = engine.old.history ++ entry ∷ [] }) }
    ensures same { IfNone result (engine.new ≡ engine.old) }
    ensures rest { (turn : ℕ) → S.draws scheduler.new turn ≡ S.draws scheduler.old (suc turn) }
{
    let (a, b) = scheduler.draw();
    engine.advance(worker, a, b)
}
