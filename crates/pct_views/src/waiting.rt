//! What a thread waits for.

ghost use Rattle.std.specs.Prelude.{◌≡◌, if◌then◌else◌, true, is_some, length, Some, None};
ghost use Rattle.pct_engine_laws.specs.SeenSteps.{choices_in, environment_in};
ghost use Rattle.pct_model.specs.Formats.{has_timeouts};
ghost use Rattle.pct_model.specs.NextStatement.{next_of};
ghost use Rattle.pct_model.specs.Environment.{Environment};
ghost use Rattle.pct_model.specs.World.{Thread};
ghost use Rattle.pct_process.specs.FamilyViews.{other_processes};
ghost use Rattle.pct_process.specs.ProcessViews.{thread_on_slot};
ghost use Rattle.pct_step_context.specs.Positions.{next_at};
ghost use Rattle.pct_transitions.specs.ProcessSteps.{with_data};
ghost use Rattle.pct_model.specs.OnceCalls.{once_at};
ghost use Rattle.pct_view_laws.specs.Waits.{mutex_wait, once_wait, wait_at, wait_by};

use crate::records::record_on;
use pct_ending_calls::cancel_calls::may_pass_point;
use pct_model::{OnceState, Status, Stmt};
use pct_process::ProcessState;
use pct_step_context::{At, Surroundings};
use pct_transitions::{count_in, has_choice, has_ended, is_unowned, next_on, once_in};
use pct_view_laws::Wait;

/// What the thread on a slot waits for.
pub(crate) fn wait_on(around: Surroundings, state: &ProcessState, slot: u32) -> Option<Wait>
    requires { is_some (thread_on_slot state.now.slots slot) ≡ true }
    ensures { (t : Thread) → thread_on_slot state.now.slots slot ≡ Some t
        → result ≡ wait_by state.now.shared (environment_in (has_timeouts around.entry.program.now.config.format) (length state.now.slots) (other_processes around.entry.family) state.now.slots t.id)
        (choices_in around.entry.program.now.script (has_timeouts around.entry.program.now.config.format) (length state.now.slots) (other_processes around.entry.family) (with_data state.now) t) (next_of around.entry.program.now.script t.frames) t.status }
{
    match record_on(state, slot).status {
        Status::Running => {
            if has_choice(around, state, slot) {
                None
            } else {
                wait_at(state, next_on(around.program, state, slot))
            }
        }
        Status::AtPoint(index) => wait_unless(may_pass_point(index), Wait::Signal),
        Status::Joining(id) => wait_unless(has_ended(state, id), Wait::Thread(id)),
        Status::InSem(sem) => wait_unless(count_in(state, sem) > 0, Wait::Semaphore(sem)),
        Status::InWaitPid(pid) => {
            wait_unless(!around.family.is_running_child(pid), Wait::Process(pid))
        }
        Status::Waiting(cond, _) => Some(Wait::Condition(cond)),
        Status::Reacquire(_, mutex, _) => mutex_wait(state, mutex),
        Status::Ending | Status::Forking(_) | Status::Exiting | Status::Ended(_) => None,
    }
}

// This wait, unless it is over.
fn wait_unless(over: bool, wait: Wait) -> Option<Wait>
    ensures { result ≡ (if over then None else Some wait) }
{
    if over { None } else { Some(wait) }
}

// What a running thread without a choice waits for at its next statement.
fn wait_at(state: &ProcessState, next: Option<At>) -> Option<Wait>
    ensures { (environment : Environment) → result ≡ wait_at state.now.shared environment (next_at next.entry) }
{
    match next {
        None => None,
        Some(at) => match at.statement {
            Stmt::Lock(mutex) => mutex_wait(state, *mutex),
            Stmt::CallOnce { once, .. } => once_wait(state, *once),
            _ => None,
        },
    }
}

// What a thread that calls pthread_once on a control waits for.
fn once_wait(state: &ProcessState, once: u32) -> Option<Wait>
    ensures { (environment : Environment) → result ≡ once_wait state.now.shared environment once (once_at state.now.shared.onces once) }
{
    match once_in(state, once) {
        OnceState::Busy(caller) => Some(Wait::Once { once, caller }),
        OnceState::Fresh | OnceState::Done => None,
    }
}

// What a thread that needs the mutex waits for.
fn mutex_wait(state: &ProcessState, mutex: u32) -> Option<Wait>
    ensures { (environment : Environment) → result ≡ mutex_wait state.now.shared environment mutex }
{
    if is_unowned(state, mutex) {
        None
    } else {
        Some(Wait::Mutex {
            mutex,
            owner: state
                .owners
                .as_slice()
                .get(mutex as usize)
                .copied()
                .unwrap_or(0),
        })
    }
}
