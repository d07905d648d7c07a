//! When a thread has a choice, without the list of its choices.

ghost use Rattle.std.specs.Prelude.{◌≡◌, ◌&&◌, ◌||◌, ◌+◌, ℕ, Some, not, true, is_some, length};
ghost use Rattle.pct_model.specs.Formats.{has_timeouts};
ghost use Rattle.pct_model.specs.World.{Thread};
ghost use Rattle.pct_model.specs.StopTable.{is_fork_kind};
ghost use Rattle.pct_engine_laws.specs.SeenSteps.{environment_in};
ghost use Rattle.pct_process.specs.FamilyViews.{other_processes};
ghost use Rattle.pct_process.specs.ProcessViews.{thread_on_slot};
ghost use Rattle.pct_transitions.specs.Readiness.{now_or, leaves_acts, running_when, is_met, ready_when};

use crate::process_reads::{
    count_in, has_ended, is_unowned, may_expire, next_on, once_in, record_of,
};
use crate::stop_table::is_fork_kind;
use pct_cancel::Cancel;
use pct_ending_calls::cancel_calls::may_pass_point;
use pct_model::{Cause, FrameKind, Status, Stmt};
use pct_process::ProcessState;
use pct_statements::once_calls::is_busy;
use pct_step_context::{At, Program, Surroundings};
use pct_threads::Steps;
use std::sync::ledger::Ledger;

/// When a thread has a choice.
#[derive(Clone, Copy)]
pub enum ReadyWhen {
    /// In no state of the other threads and processes.
    Never,
    /// In each of them.
    Now,
    /// While no thread owns the mutex with this index.
    MutexFree(u32),
    /// While the count of the semaphore with this index is above 0.
    CountAboveZero(u32),
    /// While the once control with this index is not busy.
    OnceNotBusy(u32),
    /// Once the thread with this id has ended.
    ThreadEnded(u32),
    /// While no child process with this id runs.
    ChildEnded(u32),
}

/// When the thread on a slot has a choice. The record of the thread is read once.
pub fn ready_when<L: Ledger>(
    program: &Program,
    process: &ProcessState,
    slot: u32,
    steps: &mut Steps<L>,
) -> ReadyWhen
    requires { is_some (thread_on_slot process.now.slots slot) ≡ true }
    ensures when { (t : Thread) → thread_on_slot process.now.slots slot ≡ Some t → result ≡ ready_when program.now.script (has_timeouts program.now.config.format) process.now.shared.restricted t }
    ensures count { steps.new ≡ steps.old + 1 }
{
    let thread = record_of(process, slot, steps);
    let cancel = &thread.cancel;
    match thread.status {
        Status::Running => match next_on(program, process, slot) {
            None => ReadyWhen::Never,
            Some(at) => running_when(process.restricted, cancel, &at),
        },
        Status::AtPoint(index) => now_or(
            may_pass_point(index) | cancel.deliverable(),
            ReadyWhen::Never,
        ),
        Status::Joining(id) => now_or(cancel.deliverable(), ReadyWhen::ThreadEnded(id)),
        Status::InSem(sem) => now_or(
            may_expire(program, process, slot) | cancel.deliverable(),
            ReadyWhen::CountAboveZero(sem),
        ),
        Status::InWaitPid(pid) => now_or(cancel.deliverable(), ReadyWhen::ChildEnded(pid)),
        Status::Waiting(_, _) => now_or(
            may_expire(program, process, slot) | cancel.deliverable(),
            ReadyWhen::Never,
        ),
        Status::Reacquire(_, mutex, cause) => now_or(
            cancel.deliverable() & leaves_acts(cause),
            ReadyWhen::MutexFree(mutex),
        ),
        Status::Ending | Status::Forking(_) | Status::Exiting => ReadyWhen::Now,
        Status::Ended(_) => ReadyWhen::Never,
    }
}

/// Whether a condition on which a thread of a process has a choice holds.
#[inline]
pub fn is_met(around: Surroundings, process: &ProcessState, when: ReadyWhen) -> bool
    ensures { (tid : ℕ) → result ≡ is_met process.now.shared (environment_in (has_timeouts around.entry.program.now.config.format) (length process.now.slots) (other_processes around.entry.family) process.now.slots tid) when }
{
    match when {
        ReadyWhen::Never => false,
        ReadyWhen::Now => true,
        ReadyWhen::MutexFree(mutex) => is_unowned(process, mutex),
        ReadyWhen::CountAboveZero(sem) => count_in(process, sem) > 0,
        ReadyWhen::OnceNotBusy(once) => !is_busy(once_in(process, once)),
        ReadyWhen::ThreadEnded(id) => has_ended(process, id),
        ReadyWhen::ChildEnded(pid) => !around.family.is_running_child(pid),
    }
}

// When a running thread with this cancelability has a choice at a statement. It may have none at pthread_mutex_lock, while the mutex has
// an owner, and at pthread_once, while the control is busy, unless it may act upon a request at any time, or its process may not execute
// the call, which then is a stop.
#[tactic(auto, unfolding(crate::specs::Readiness::running_when))]
#[inline]
fn running_when(restricted: bool, cancel: &Cancel, at: &At) -> ReadyWhen
    ensures { result ≡ running_when restricted cancel.now.state cancel.now.mode at.now.frame at.now.statement.now }
{
    match at.statement {
        Stmt::Lock(mutex) => now_or(
            cancel.async_on() || is_call_forbidden(restricted, at.frame.kind()),
            ReadyWhen::MutexFree(*mutex),
        ),
        Stmt::CallOnce { once, .. } => now_or(
            cancel.async_on() || is_call_forbidden(restricted, at.frame.kind()),
            ReadyWhen::OnceNotBusy(*once),
        ),
        _ => ReadyWhen::Now,
    }
}

// Whether a process that is restricted or not may not execute pthread_mutex_lock and pthread_once in a frame of this kind.
#[inline]
fn is_call_forbidden(restricted: bool, kind: FrameKind) -> bool
    ensures { result ≡ (restricted && not (is_fork_kind kind)) }
{
    restricted && !is_fork_kind(kind)
}

// Now, if the test holds, and else under this condition.
#[inline]
fn now_or(test: bool, when: ReadyWhen) -> ReadyWhen
    ensures { result ≡ now_or test when }
{
    if test { ReadyWhen::Now } else { when }
}

// Whether a thread may still act upon a request after it was unblocked on a condition variable by this cause.
#[inline]
fn leaves_acts(cause: Cause) -> bool
    ensures { result ≡ leaves_acts cause }
{
    match cause {
        Cause::Signalled | Cause::Broadcast | Cause::TimedOut => true,
        Cause::Canceled => false,
    }
}
