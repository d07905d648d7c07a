//! What a transition changes in the record of the thread that makes it.

ghost use Rattle.std.specs.Prelude.{◌≡◌, ◌<◌, ◌∷◌, [], length, None};
ghost use Rattle.pct_model.specs.declared.limits.TheConstants.{MAX_HANDLERS};
ghost use Rattle.pct_model.specs.declared.state.Status.TheVariants as status;
ghost use Rattle.pct_model.specs.Actions.{thread_at, without_first};
ghost use Rattle.pct_model.specs.Cancelability.{ending_state, ending_mode};
ghost use Rattle.pct_engine_laws.specs.Fitting.{Fits};
ghost use Rattle.pct_actions.specs.OwnChanges.{record_acted, record_moved, record_of, thread_from};

use pct_cleanup::Handlers;
use pct_model::{OwnAction, Reason, Status, Transition};
use pct_threads::Thread;

/// Makes the changes of a transition in the record of the thread that makes it.
pub(crate) fn change_record(thread: &mut Thread, transition: &Transition)
    requires { Fits 0 (length thread.old.handlers) thread.old.pass transition.now.own }
    ensures { thread.new ≡ record_moved transition.now thread.old }
{
    go_on(thread, transition.next);
    act_on_record(thread, transition.own);
}

// The thread runs, if it goes on at a program counter.
#[tactic(auto, unfolding(pct_model::specs::Actions::thread_at))]
fn go_on(thread: &mut Thread, next: Option<u32>)
    ensures { thread.new ≡ record_of (thread_at next (thread_from [] thread.old)) }
{
    match next {
        None => {}
        Some(_) => thread.status = Status::Running,
    }
}

// Makes the change of the thread's own action, if it has one.
#[tactic(auto, unfolding(pct_model::specs::Actions::own_after))]
fn act_on_record(thread: &mut Thread, action: Option<OwnAction>)
    requires { Fits 0 (length thread.old.handlers) thread.old.pass action }
    ensures { thread.new ≡ record_acted action thread.old }
{
    match action {
        None => {}
        Some(OwnAction::Call { .. }) => thread.status = Status::Running,
        Some(OwnAction::CallHandler(_, _)) => run_handler(thread),
        Some(OwnAction::RunHandler(_, _)) => run_handler(thread),
        Some(OwnAction::RunDestructor { .. }) => thread.status = Status::Running,
        Some(OwnAction::RunExitFunction(_)) => thread.status = Status::Running,
        Some(OwnAction::CallForkHandler(at, _)) => {
            thread.status = Status::Running;
            thread.kept = Some(at);
        }
        Some(OwnAction::Leave(status)) => {
            thread.status = status;
            thread.kept = None;
        }
        Some(OwnAction::SetStatus(status)) => thread.status = status,
        Some(OwnAction::PushHandler(func, arg)) => push_onto(&mut thread.handlers, func, arg),
        Some(OwnAction::PopHandler) => pop_from(&mut thread.handlers),
        Some(OwnAction::SetState(state)) => thread.cancel.state = state,
        Some(OwnAction::SetMode(mode)) => thread.cancel.mode = mode,
        Some(OwnAction::SetSpecific(_, _)) => {}
        Some(OwnAction::BeginPass) => thread.pass += 1,
        Some(OwnAction::BeginEnd(why)) => begin_end(thread, why),
        Some(OwnAction::EndThread(value)) => {
            thread.status = Status::Ended(value);
            thread.ended = true;
        }
        Some(OwnAction::BeginExit) => begin_exit(thread),
        Some(OwnAction::EndLast) => {
            thread.ended = true;
            begin_exit(thread);
        }
    }
}

// The thread runs, and its newest cleanup handler is removed.
fn run_handler(thread: &mut Thread)
    ensures { thread.new ≡ record thread.old { status = status.Running; handlers = without_first thread.old.handlers } }
{
    thread.status = Status::Running;
    pop_from(&mut thread.handlers);
}

// The thread begins to end for a reason. It keeps no values of a fork.
fn begin_end(thread: &mut Thread, why: Reason)
    ensures { thread.new ≡ record thread.old { status = status.Ending; cancel = record thread.old.cancel { state = ending_state; mode = ending_mode }; reason = why; kept = None } }
{
    thread.cancel.begin_end();
    thread.status = Status::Ending;
    thread.reason = why;
    thread.kept = None;
}

// The thread begins to exit its process. It keeps no values of a fork.
fn begin_exit(thread: &mut Thread)
    ensures { thread.new ≡ record thread.old { status = status.Exiting; cancel = record thread.old.cancel { state = ending_state; mode = ending_mode }; kept = None } }
{
    thread.cancel.begin_end();
    thread.status = Status::Exiting;
    thread.kept = None;
}

// Pushes a handler onto handlers that have room.
fn push_onto(handlers: &mut Handlers, func: u32, arg: u32)
    requires { length handlers.old < MAX_HANDLERS }
    ensures { handlers.new ≡ (func, arg) ∷ handlers.old }
{
    if handlers.push(func, arg).is_err() {
        unreachable!()
    }
}

// Removes the newest handler, if there is one.
fn pop_from(handlers: &mut Handlers)
    ensures { handlers.new ≡ without_first handlers.old }
{
    let _newest = handlers.pop();
}
