//! A thread of a process, as it is shown.

ghost use Rattle.std.specs.Prelude.{◌≡◌, ◌<◌, [], ◌∷◌, true, length, filter, is_some, slice_get, IfNone, IfSome};
ghost use Rattle.pct_engine_laws.specs.Seen.{SeenProcess};
ghost use Rattle.pct_model.specs.OtherProcesses.{Family};
ghost use Rattle.pct_model.specs.ThreadSlots.{is_ended_status};
ghost use Rattle.pct_process.specs.ProcessViews.{slot_on, thread_on_slot};
ghost use Rattle.pct_step_context.specs.Numbers.{NewNumbersFit};
ghost use Rattle.pct_step_context.specs.Programs.{ProgramValue};
ghost use Rattle.pct_place.specs.ShownProcesses.{ShowsProcess};
ghost use Rattle.pct_view_laws.specs.Listed.{ListedThread, is_unended};
ghost use Rattle.pct_views.specs.ShownThreads.{ShowsOne, IsUnended, listed_at};

use crate::records::read_on;
use crate::start::start_on;
use crate::waiting::wait_on;
use pct_cancel::Cancel;
use pct_cleanup::Handlers;
use pct_model::{Alt, Status};
use pct_place::ProcessView;
use pct_process::ProcessState;
use pct_threads::Thread as ThreadRecord;
use pct_transitions::{choice_at, choice_count as count_of};
use pct_view_laws::{StepStart, Wait};

/// A thread that has not ended, as it is shown.
#[derive(Clone, Copy)]
pub struct ThreadView<'a> {
    /// The id of its process.
    pub pid: u32,
    /// Its id.
    pub tid: u32,
    /// Its status, and the position of its top frame: its next step begins there.
    pub start: StepStart,
    /// Its cancelability, and whether a request is pending.
    pub cancel: Cancel,
    /// Its cleanup handlers.
    pub handlers: &'a Handlers,
    /// What it waits for.
    pub wait: Option<Wait>,
}

/// The thread on a slot of a process. `None` exactly if no thread holds the slot, its status is Ended, or the process has ended.
pub fn thread_on<'a>(process: ProcessView<'a>, slot: u32) -> Option<ThreadView<'a>>
    requires { slot < length process.state.now.slots }
    ensures shown { (program : ProgramValue) (family : Family) (p : SeenProcess) → ShowsProcess program family p process.entry → ShowsOne (listed_at program family p slot) result }
    ensures held { IfSome result (λ _. is_some (thread_on_slot process.entry.state.now.slots slot) ≡ true) }
{
    if process.has_ended {
        return None;
    }
    let state = process.state;
    let thread = unended_on(state, slot)?;
    Some(ThreadView {
        pid: process.pid,
        tid: state.id_on(slot),
        start: start_on(state, slot),
        cancel: thread.cancel,
        handlers: &thread.handlers,
        wait: wait_on(process.around, state, slot),
    })
}

/// The record of the thread on a slot. `None` exactly if no thread holds the slot, or it has ended.
pub(crate) fn unended_on(state: &ProcessState, slot: u32) -> Option<&ThreadRecord>
    requires { slot < length state.now.slots }
    ensures some { IfSome result (λ kept. IsUnended state.now.slots slot kept.now) }
    ensures none { IfNone result (filter is_unended (slot_on state.now.slots slot).here ≡ []) }
{
    if !state.threads.is_occupied(slot) {
        return None;
    }
    let thread = read_on(&state.threads, slot);
    if is_ended(thread.status) {
        None
    } else {
        Some(thread)
    }
}

// Whether this is the status of a thread that has ended.
fn is_ended(status: Status) -> bool
    ensures { result ≡ is_ended_status status }
{
    matches!(status, Status::Ended(_))
}

/// The number of the choices of the thread on a slot of a process.
pub fn choice_count(process: ProcessView, slot: u32) -> usize
    requires held { is_some (thread_on_slot process.state.now.slots slot) ≡ true }
    requires numbers { NewNumbersFit process.state.now }
    ensures { (program : ProgramValue) (family : Family) (p : SeenProcess) (l : ListedThread) → ShowsProcess program family p process.entry → listed_at program family p slot ≡ l ∷ [] → result ≡ length l.choices }
{
    // Each slot has at most one thread.
    process.state.slot_count();
    count_of(process.around, process.state, slot)
}

/// The choice of the thread on a slot of a process at an index among its choices. `None` exactly if it has no more than that.
pub fn choice_on(process: ProcessView, slot: u32, index: usize) -> Option<Alt>
    requires held { is_some (thread_on_slot process.state.now.slots slot) ≡ true }
    requires numbers { NewNumbersFit process.state.now }
    ensures { (program : ProgramValue) (family : Family) (p : SeenProcess) (l : ListedThread) → ShowsProcess program family p process.entry → listed_at program family p slot ≡ l ∷ [] → result ≡ slice_get l.choices index }
{
    // Each slot has at most one thread.
    process.state.slot_count();
    choice_at(process.around, process.state, slot, index)
}
