//! The stops: uses that POSIX leaves undefined, further uses that this host reports as undefined by its choice, its limits, and
//! what it leaves out.

ghost use Rattle.std.specs.Prelude.{◌≡◌, ◌&&◌, ◌∷◌, [], List, false, length, not, nat_eq, nat_lt, is_none, slice_get};
ghost use Rattle.std.specs.Option.{option_map_or};
ghost use Rattle.pct_model.specs.declared.stop.Why.TheVariants as why;
ghost use Rattle.pct_model.specs.declared.frame.Frame.{Frame as FrameRecord};
ghost use Rattle.pct_model.specs.declared.limits.TheConstants.{MAX_HANDLERS};
ghost use Rattle.pct_model.specs.World.{Thread, SharedState, body_of};
ghost use Rattle.pct_model.specs.Environment.{Environment, names_no_thread, is_detached_thread, waits_with_another_mutex};
ghost use Rattle.pct_model.specs.MutexCalls.{owns};
ghost use Rattle.pct_model.specs.Keys.{key_with};
ghost use Rattle.pct_model.specs.StopTable.{stop_at, stops_of, first_stop, is_stack_full, has_begun_to_end, exits_twice, closes_function, is_handler_kind, is_in_handler, is_allowed_asynchronously, is_safe_point, is_inner_kind, is_fork_kind, is_allowed_in_child, is_forbidden_in_child};
ghost use Rattle.pct_step_context.specs.Contexts.{IsContext, IsWhole, IsEnvironment};

use pct_ending_calls::mutex_calls::owns;
use pct_keys::Keys;
use pct_model::{
    CLOSE_POINT, FrameKind, MAX_FRAMES, MAX_HANDLERS, OPEN_POINT, PAUSE_POINT, READ_POINT, Reason,
    SLEEP_POINT, Stmt, WRITE_POINT, Why,
};
use pct_statements::once_calls::{is_fresh, once_at};
use pct_step_context::{At, Context, Program, value_of};
use pct_threads::{FrameRef, Frames};

/// The stop of a running thread at this statement of its top frame: whether its process may execute the statement is tested first, then
/// whether it may be executed with asynchronous cancelability, and then the statement's own stops in their order. `None` if the
/// statement does not stop.
#[tactic(auto, unfolding(pct_model::specs::StopTable::stop_at))]
pub(crate) fn stop_at(context: &Context, at: &At) -> Option<Why>
    requires { IsWhole context.now }
    ensures { (shared : SharedState) (t : Thread) (environment : Environment) → IsContext shared t environment context.now
        → result ≡ stop_at (body_of context.now.program.now.script at.now.frame.func) shared t environment at.now.frame at.now.statement.now }
{
    if is_forbidden_in_child(context, at) {
        Some(Why::ForkChildCall)
    } else if context.position.thread.cancel.async_on()
        && !is_allowed_asynchronously(at.statement)
    {
        Some(Why::AsyncCall)
    } else {
        own_stop(context, at)
    }
}

// The first of a statement's own stops that applies.
#[tactic(auto, unfolding(pct_model::specs::StopTable::stops_of))]
fn own_stop(context: &Context, at: &At) -> Option<Why>
    requires { IsWhole context.now }
    ensures { (shared : SharedState) (t : Thread) (environment : Environment) → IsContext shared t environment context.now
        → result ≡ first_stop (stops_of (body_of context.now.program.now.script at.now.frame.func) shared t environment at.now.frame at.now.statement.now) }
{
    let position = &context.position;
    let globals = context.globals();
    let frame = &at.frame;
    match at.statement {
        Stmt::Join { id, .. } => stop_of_join(context, value_of(globals, frame, *id)),
        Stmt::Detach(id) => stop_of_detach(context, value_of(globals, frame, *id)),
        Stmt::CancelThread(id) => stop_of_request(context, value_of(globals, frame, *id)),
        Stmt::SetState { enable, .. } => first_stop(&[(
            *enable && is_in_handler(&context.frames()),
            Why::EnableInHandler,
        )]),
        Stmt::KeyDelete(key) | Stmt::SetSpecific(key, _) | Stmt::GetSpecific(_, key) => {
            stop_of_key(position.keys, value_of(globals, frame, *key))
        }
        Stmt::Unlock(mutex) => first_stop(&[(
            !owns(context.owners(), *mutex, position.id),
            Why::NotOwner,
        )]),
        Stmt::CondWait { cond, mutex } | Stmt::CondTimedWait { cond, mutex, .. } => stop_of_wait(
            context, *cond, *mutex,
        ),
        Stmt::Fork { .. } => first_stop(&[(
            has_begun_to_end(position.thread.reason),
            Why::ForkInEnding,
        )]),
        Stmt::ProcExit(_) => first_stop(&[(context.exit_value().is_some(), Why::ExitTwice)]),
        Stmt::ThreadExit(_) => first_stop(&[(
            has_begun_to_end(position.thread.reason),
            Why::ExitInEnding,
        )]),
        Stmt::Return(_) => first_stop(&[(
            exits_twice(frame.kind(), context.exit_value()),
            Why::ExitTwice,
        )]),
        Stmt::End => first_stop(&[(
            exits_twice(frame.kind(), context.exit_value())
                && closes_function(context.program, frame),
            Why::ExitTwice,
        )]),
        Stmt::CallOnce { once, .. } => first_stop(&[(
            is_fresh(once_at(context.onces(), *once)) && is_stack_full(position.depth),
            Why::StackFull,
        )]),
        Stmt::Do(_, _) => first_stop(&[(is_stack_full(position.depth), Why::StackFull)]),
        Stmt::Pop(operand) => first_stop(&[(
            value_of(globals, frame, *operand) != 0 && is_stack_full(position.depth),
            Why::StackFull,
        )]),
        Stmt::Push(_, _) => first_stop(&[(
            is_cleanup_full(position.thread.handlers.len()),
            Why::CleanupFull,
        )]),
        _ => None,
    }
}

// The stop of pthread_join for the thread with an id.
#[tactic(auto, using(pct_step_context::proofs::EnvironmentRead::none_named, pct_step_context::proofs::EnvironmentRead::detached_named))]
#[inline(always)]
fn stop_of_join(context: &Context, id: u32) -> Option<Why>
    requires { IsWhole context.now }
    ensures { (environment : Environment) → IsEnvironment context.now environment
        → result ≡ first_stop ((names_no_thread id environment, why.ThreadId) ∷ (nat_eq id context.now.position.id, why.JoinSelf) ∷ (is_detached_thread id environment, why.NotJoinable) ∷ (environment.another_joins id, why.JoinTwice) ∷ []) }
{
    let detached = context.detached(id);
    first_stop(&[
        (detached.is_none(), Why::ThreadId),
        (id == context.position.id, Why::JoinSelf),
        (detached.unwrap_or(false), Why::NotJoinable),
        (context.another_joins(id), Why::JoinTwice),
    ])
}

// The stop of pthread_detach of the thread with an id.
#[tactic(auto, using(pct_step_context::proofs::EnvironmentRead::none_named, pct_step_context::proofs::EnvironmentRead::detached_named))]
#[inline(always)]
fn stop_of_detach(context: &Context, id: u32) -> Option<Why>
    requires { IsWhole context.now }
    ensures { (environment : Environment) → IsEnvironment context.now environment
        → result ≡ first_stop ((names_no_thread id environment, why.ThreadId) ∷ (is_detached_thread id environment, why.NotJoinable) ∷ (environment.another_joins id, why.DetachJoined) ∷ []) }
{
    let detached = context.detached(id);
    first_stop(&[
        (detached.is_none(), Why::ThreadId),
        (detached.unwrap_or(false), Why::NotJoinable),
        (context.another_joins(id), Why::DetachJoined),
    ])
}

// The stop of a call that names the thread with an id.
#[tactic(auto, using(pct_step_context::proofs::EnvironmentRead::none_named))]
#[inline(always)]
fn stop_of_request(context: &Context, id: u32) -> Option<Why>
    requires { IsWhole context.now }
    ensures { (environment : Environment) → IsEnvironment context.now environment → result ≡ first_stop ((names_no_thread id environment, why.ThreadId) ∷ []) }
{
    first_stop(&[(context.detached(id).is_none(), Why::ThreadId)])
}

// The stop of a call that names the key with a number: it was not made, or was deleted.
fn stop_of_key(keys: &Keys, key: u32) -> Option<Why>
    ensures { result ≡ first_stop ((is_none (key_with key keys.now.places), why.KeyId) ∷ []) }
{
    first_stop(&[(keys.find(key).is_none(), Why::KeyId)])
}

// The stop of pthread_cond_wait on a condition variable with a mutex, by their indexes.
#[inline(always)]
fn stop_of_wait(context: &Context, cond: u32, mutex: u32) -> Option<Why>
    requires { IsWhole context.now }
    ensures { (shared : SharedState) (environment : Environment) → context.now.process.now.shared ≡ shared → IsEnvironment context.now environment
        → result ≡ first_stop ((not (owns context.now.position.id mutex shared), why.NotOwner) ∷ (waits_with_another_mutex cond mutex environment, why.CondTwoMutexes) ∷ []) }
{
    first_stop(&[
        (
            !owns(context.owners(), mutex, context.position.id),
            Why::NotOwner,
        ),
        (
            context.waits_with_another_mutex(cond, mutex),
            Why::CondTwoMutexes,
        ),
    ])
}

// The first stop whose guard holds.
fn first_stop(guards: &[(bool, Why)]) -> Option<Why>
    ensures { result ≡ first_stop guards.now }
{
    guards.iter().find(|guard| guard.0).map(|guard| guard.1)
}

// ---- conditions

// Whether a call in a thread with this number of frames would need one frame more than the limit.
fn is_stack_full(depth: u32) -> bool
    ensures { (frames : List FrameRecord) → depth ≡ length frames → result ≡ is_stack_full frames }
{
    depth as usize >= MAX_FRAMES
}

// Whether a push in a thread with this number of cleanup handlers would need one handler more than the limit.
fn is_cleanup_full(handlers: u32) -> bool
    ensures { result ≡ not (nat_lt handlers MAX_HANDLERS) }
{
    handlers as usize >= MAX_HANDLERS
}

// Whether a thread with these frames is in a cleanup handler or in a destructor.
fn is_in_handler(frames: &Frames) -> bool
    ensures { result ≡ is_in_handler frames.now }
{
    for index in 0..frames.len() {
        if is_handler_at(frames, index) {
            return true;
        }
    }
    false
}

// Whether the frame at an index, if there is one, is that of a cleanup handler or of a destructor.
fn is_handler_at(frames: &Frames, index: usize) -> bool
    ensures { result ≡ option_map_or (λ frame. is_handler_kind frame.kind) (slice_get frames.now index) false }
{
    match frames.get(index) {
        None => false,
        Some(frame) => is_handler_kind(frame.kind()),
    }
}

// Whether a frame of this kind is that of a cleanup handler or of a destructor.
fn is_handler_kind(kind: FrameKind) -> bool
    ensures { result ≡ is_handler_kind kind }
{
    matches!(
        kind,
        FrameKind::PopHandler | FrameKind::Handler | FrameKind::Destructor
    )
}

// Whether the statement is allowed with asynchronous cancelability enabled: a call of a function that is async-cancel-safe
// (XSH 2.9.5.4), or a statement of the script language.
fn is_allowed_asynchronously(statement: &Stmt) -> bool
    ensures { result ≡ is_allowed_asynchronously statement.now }
{
    matches!(
        statement,
        Stmt::Emit(_)
            | Stmt::Set(_, _)
            | Stmt::Add(_, _)
            | Stmt::Nop
            | Stmt::If(_)
            | Stmt::Else
            | Stmt::While(_)
            | Stmt::End
            | Stmt::Do(_, _)
            | Stmt::Return(_)
            | Stmt::CancelThread(_)
            | Stmt::SetState { .. }
            | Stmt::SetMode { .. }
    )
}

// Whether a thread has begun to end, by the reason for its end.
fn has_begun_to_end(reason: Reason) -> bool
    ensures { result ≡ has_begun_to_end reason }
{
    match reason {
        Reason::None => false,
        Reason::Exit(_) | Reason::Canceled => true,
    }
}

// Whether a return from a frame of this kind exits the process, where exit has begun before.
fn exits_twice(kind: FrameKind, exit_value: Option<u32>) -> bool
    ensures { (shared : SharedState) → exit_value ≡ shared.exit_value → result ≡ exits_twice kind shared }
{
    match kind {
        FrameKind::Main => exit_value.is_some(),
        _ => false,
    }
}

// Whether an `end` at the frame's program counter closes no block, so that it closes the function.
fn closes_function(program: &Program, frame: &FrameRef) -> bool
    ensures { result ≡ closes_function (body_of program.now.script frame.now.func) frame.now.pc }
{
    program.jumps.open_of(frame.func(), frame.pc()).is_none()
}

// ---- the child of a process with several threads

/// Whether the process is the child of one that had several threads, and may not execute this statement of the top frame (XSH fork).
#[tactic(auto, unfolding(pct_model::specs::StopTable::is_forbidden_in_child))]
#[inline(always)]
pub(crate) fn is_forbidden_in_child(context: &Context, at: &At) -> bool
    ensures { (shared : SharedState) → context.now.process.now.shared ≡ shared
        → result ≡ is_forbidden_in_child (body_of context.now.program.now.script at.now.frame.func) shared at.now.frame at.now.statement.now }
{
    context.is_restricted() && is_forbidden_if_restricted(context.program, at)
}

// The same for a process that is such a child. What a fork handler executes is allowed.
#[inline(never)]
fn is_forbidden_if_restricted(program: &Program, at: &At) -> bool
    ensures { let frame = at.now.frame in result ≡ (not (is_fork_kind frame.kind) && not (is_allowed_in_child (body_of program.now.script frame.func) frame at.now.statement.now)) }
{
    !is_fork_kind(at.frame.kind()) && !is_allowed_in_child(program, at)
}

// Whether a frame's statement is allowed in the child of a process with several threads.
fn is_allowed_in_child(program: &Program, at: &At) -> bool
    ensures { result ≡ is_allowed_in_child (body_of program.now.script at.now.frame.func) at.now.frame at.now.statement.now }
{
    match at.statement {
        Stmt::Emit(_)
        | Stmt::Set(_, _)
        | Stmt::Add(_, _)
        | Stmt::Nop
        | Stmt::If(_)
        | Stmt::Else
        | Stmt::While(_)
        | Stmt::Do(_, _)
        | Stmt::ProcExitNow(_) => true,
        Stmt::End => is_inner_kind(at.frame.kind()) || !closes_function(program, &at.frame),
        Stmt::Return(_) => is_inner_kind(at.frame.kind()),
        Stmt::PointCall(index) => is_safe_point(*index),
        _ => false,
    }
}

// Whether the cancellation point with this index is a function that such a child may call: it is async-signal-safe (XSH 2.4.3).
fn is_safe_point(index: u32) -> bool
    ensures { result ≡ is_safe_point index }
{
    matches!(
        index,
        CLOSE_POINT | OPEN_POINT | PAUSE_POINT | READ_POINT | SLEEP_POINT | WRITE_POINT
    )
}

// Whether a return from a frame of this kind ends neither the thread nor the process.
fn is_inner_kind(kind: FrameKind) -> bool
    ensures { result ≡ is_inner_kind kind }
{
    !matches!(kind, FrameKind::Main | FrameKind::Start)
}

/// Whether a frame of this kind is that of a fork handler.
pub(crate) fn is_fork_kind(kind: FrameKind) -> bool
    ensures { result ≡ is_fork_kind kind }
{
    matches!(kind, FrameKind::ForkFn)
}
