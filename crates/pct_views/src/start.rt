//! Where a step begins.

ghost use Rattle.std.specs.Prelude.{◌≡◌, true, is_some, length, option_map, Some};
ghost use Rattle.pct_engine.specs.EngineStates.{IsRunOf};
ghost use Rattle.pct_engine_laws.specs.Seen.{seen};
ghost use Rattle.pct_engine_laws.specs.SeenSteps.{thread_with};
ghost use Rattle.pct_model.specs.Run.{Run};
ghost use Rattle.pct_model.specs.World.{Thread};
ghost use Rattle.pct_process.specs.ProcessViews.{thread_on_slot};
ghost use Rattle.pct_view_laws.specs.SeenViews.{start_seen};
ghost use Rattle.pct_view_laws.specs.TracedSteps.{position_in, start_in, start_of as start_of_thread};

use crate::records::record_on;
use pct_engine::Engine;
use pct_model::{Entry, MAX_PROCESSES};
use pct_process::ProcessState;
use pct_threads::FrameRef;
use pct_view_laws::{Position, StepStart};

/// Where the step of an entry begins, in the state of a run. `None` exactly if no thread with the id of the entry holds its slot in the process
/// with the id of the entry, or this process has ended.
pub fn start_of(engine: &Engine, entry: &Entry) -> Option<StepStart>
    ensures { (after : Run) → IsRunOf engine.now after → result ≡ start_in after.world entry.now }
{
    start_kept(engine, entry)
}

// The same, by what an engine keeps of the state.
fn start_kept(engine: &Engine, entry: &Entry) -> Option<StepStart>
    ensures { (after : Run) → IsRunOf engine.now after → result ≡ start_seen engine.now.config.slots (seen engine.now.config.slots after.world) entry.now }
{
    for index in 0..MAX_PROCESSES {
        let process = engine.process(index)?;
        if process.pid == entry.pid && !process.has_ended {
            return start_with(process.state, entry.tid);
        }
    }
    None
}

// Where the step of the thread with an id begins. `None` exactly if it does not hold its slot.
fn start_with(state: &ProcessState, tid: u32) -> Option<StepStart>
    ensures { result ≡ option_map start_of_thread (thread_with (length state.now.slots) tid state.now.slots) }
{
    let slot = state.slot_with(tid)?;
    Some(start_on(state, slot))
}

/// The status of the thread on a slot, and the position of its top frame.
pub(crate) fn start_on(state: &ProcessState, slot: u32) -> StepStart
    requires { is_some (thread_on_slot state.now.slots slot) ≡ true }
    ensures { (t : Thread) → thread_on_slot state.now.slots slot ≡ Some t → result ≡ start_of_thread t }
{
    StepStart {
        status: record_on(state, slot).status,
        position: position_in(state.threads.top_frame(slot)),
    }
}

// The position of a frame, if there is one.
fn position_in(top: Option<FrameRef>) -> Option<Position>
    ensures { result ≡ option_map position_in top.entry }
{
    match top {
        None => None,
        Some(frame) => Some(Position {
            func: frame.func(),
            pc: frame.pc(),
        }),
    }
}
