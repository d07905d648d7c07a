//! The values of a thread, as they are shown.

ghost use Rattle.std.specs.Prelude.{◌≡◌, ◌<◌, true, filter, is_some, length, Some};
ghost use Rattle.pct_model.specs.World.{Thread};
ghost use Rattle.pct_process.specs.ProcessViews.{slot_on, thread_on_slot};
ghost use Rattle.pct_view_laws.specs.Listed.{is_unended};
ghost use Rattle.pct_views.specs.ShownStates.{ShowsOneState, ShowsState};

use crate::start::start_on;
use crate::thread_view::unended_on;
use pct_keys::Keys;
use pct_process::ProcessState;
use pct_threads::Frames;
use pct_view_laws::Position;

/// The values of a thread that has not ended, as they are shown.
#[derive(Drop)]
pub struct ThreadState<'a> {
    /// Its id.
    pub tid: u32,
    /// The position of its top frame, if it has frames.
    pub position: Option<Position>,
    /// Its frames, the newest first.
    pub frames: Frames<'a>,
    /// The keys of its process, which have its thread-specific data on its slot.
    pub keys: &'a Keys,
    /// Its slot.
    pub slot: u32,
    /// Whether it is detached.
    pub detached: bool,
}

/// The values of the thread on a slot of a process. `None` exactly if no thread holds the slot, or its status is Ended.
pub fn state_on(state: &ProcessState, slot: u32) -> Option<ThreadState<'_>>
    requires { slot < length state.now.slots }
    ensures { ShowsOneState state.now.shared.keys (filter is_unended (slot_on state.now.slots slot).here) result }
{
    unended_on(state, slot)?;
    Some(state_of(state, slot))
}

// The values of the thread on a slot, which a thread holds.
fn state_of(state: &ProcessState, slot: u32) -> ThreadState<'_>
    requires inside { slot < length state.now.slots }
    requires held { is_some (thread_on_slot state.now.slots slot) ≡ true }
    ensures { (t : Thread) → thread_on_slot state.now.slots slot ≡ Some t → ShowsState state.now.shared.keys t result }
{
    ThreadState {
        tid: state.id_on(slot),
        position: start_on(state, slot).position,
        frames: state.threads.frames(slot),
        keys: &state.keys,
        slot,
        detached: state.threads.place(slot).detached,
    }
}
