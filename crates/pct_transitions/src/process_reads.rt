//! What the choices of a thread depend on, read one by one.

ghost use Rattle.std.specs.Prelude.{◌≡◌, ◌&&◌, ◌+◌, ℕ, Bool, Some, true, is_some, length, slice_index};
ghost use Rattle.pct_model.specs.World.{Thread};
ghost use Rattle.pct_model.specs.NextStatement.{next_of};
ghost use Rattle.pct_model.specs.MutexCalls.{is_free_mutex};
ghost use Rattle.pct_model.specs.OnceCalls.{once_at};
ghost use Rattle.pct_model.specs.OtherProcesses.{Family as OtherProcesses};
ghost use Rattle.pct_model.specs.Environment.{is_ended_thread};
ghost use Rattle.pct_model.specs.ChoiceTable.{is_timed_wait};
ghost use Rattle.pct_model.specs.Formats.{has_timeouts};
ghost use Rattle.pct_engine_laws.specs.SeenSteps.{environment_in};
ghost use Rattle.pct_process.specs.ProcessViews.{thread_on_slot};
ghost use Rattle.pct_step_context.specs.Positions.{next_at};
ghost use Rattle.pct_step_context.specs.ThreadRecords.{IsRecord};

use pct_ending_calls::mutex_calls::is_free_mutex;
use pct_model::OnceState;
use pct_process::ProcessState;
use pct_statements::once_calls::once_at;
use pct_statements::sem_calls::count_of;
use pct_step_context::{At, Program, ended_value, is_timed_next, next_of};
use pct_threads::{Steps, Thread as ThreadRecord};
use std::sync::ledger::Ledger;

/// The record of the thread on a slot, which is read once.
#[inline(always)]
pub fn record_of<'a, L: Ledger>(
    process: &'a ProcessState,
    slot: u32,
    steps: &mut Steps<L>,
) -> &'a ThreadRecord
    requires { is_some (thread_on_slot process.now.slots slot) ≡ true }
    ensures record { (t : Thread) → thread_on_slot process.now.slots slot ≡ Some t → IsRecord result.now t }
    ensures count { steps.new ≡ steps.old + 1 }
{
    process.threads.read(slot, steps)
}

/// The next statement of the thread on a slot, if there is one.
#[inline(always)]
pub fn next_on<'a>(program: &'a Program, process: &'a ProcessState, slot: u32) -> Option<At<'a>>
    requires { is_some (thread_on_slot process.now.slots slot) ≡ true }
    ensures { (t : Thread) → thread_on_slot process.now.slots slot ≡ Some t → next_at result ≡ next_of program.now.script t.frames }
{
    next_of(&program.script, process.threads.top_frame(slot))
}

/// Whether no thread of a process owns the mutex with this index.
#[inline(always)]
pub fn is_unowned(process: &ProcessState, mutex: u32) -> bool
    ensures { result ≡ is_free_mutex mutex process.now.shared }
{
    is_free_mutex(process.owners.as_slice(), mutex)
}

/// The state of the once control of a process with this index.
#[inline(always)]
pub fn once_in(process: &ProcessState, once: u32) -> OnceState
    ensures { result ≡ once_at process.now.shared.onces once }
{
    once_at(process.onces.as_slice(), once)
}

/// The count of the semaphore of a process with this index.
#[inline(always)]
pub fn count_in(process: &ProcessState, sem: u32) -> u32
    ensures { result ≡ slice_index process.now.shared.counts sem }
{
    count_of(process.counts.as_slice(), sem)
}

/// Whether the thread of a process with this id has ended, as each thread of the process sees it.
#[inline(always)]
pub fn has_ended(process: &ProcessState, id: u32) -> bool
    ensures { (timeouts : Bool) (family : OtherProcesses) (tid : ℕ) → result ≡ is_ended_thread id (environment_in timeouts (length process.now.slots) family process.now.slots tid) }
{
    // A table has at most 64 slots.
    let _count = process.threads.slot_count();
    match process.threads.slot_named(id) {
        Some(slot) => ended_value(process.standings.standing(slot)).is_some(),
        None => false,
    }
}

/// Whether the time of a wait may expire at the next statement of the thread on a slot.
#[inline(always)]
pub(crate) fn may_expire(program: &Program, process: &ProcessState, slot: u32) -> bool
    requires { is_some (thread_on_slot process.now.slots slot) ≡ true }
    ensures { (t : Thread) → thread_on_slot process.now.slots slot ≡ Some t → result ≡ (has_timeouts program.now.config.format && is_timed_wait (next_of program.now.script t.frames)) }
{
    program.has_timeouts() && is_timed_next(&next_on(program, process, slot))
}
