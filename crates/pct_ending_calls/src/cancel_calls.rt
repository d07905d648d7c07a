//! The transitions of pthread_cancel, pthread_setcancelstate, pthread_setcanceltype and pthread_testcancel, of the calls of
//! cancellation points, and of a thread that acts upon a request. `next` is the program counter of the next statement.

ghost use Rattle.std.specs.Prelude.{◌≡◌, [], ◌∷◌};
ghost use Rattle.pct_model.specs.declared.event.What.TheVariants.{Done};
ghost use Rattle.pct_model.specs.NextStatement.{StatementIn};
ghost use Rattle.pct_model.specs.Transitions.{goes_on};
ghost use Rattle.pct_model.specs.CancelCalls.{requests, state_number, mode_number, state_if, mode_if, sets_state, sets_mode, tests_cancel, point_kind, called_kind, calls_point, is_outside, may_pass_point, passes_point, acts_on_request};
ghost use Rattle.pct_step_context.specs.Contexts.{IsWhole};
ghost use Rattle.pct_step_context.specs.Positions.{next_at, IsAt};

use crate::cond_calls::{hands_on, leaves_wait};
use crate::transitions::{acts, goes_on, no_change};
use pct_cancel::point_at;
use pct_model::{
    COND_TIMEDWAIT_POINT, COND_WAIT_POINT, Cause, Dest, JOIN_POINT, Mode, NamedAction, OwnAction,
    PointKind, PointWait, Reason, SEM_TIMEDWAIT_POINT, SEM_WAIT_POINT, State, Status, Stmt,
    TESTCANCEL_POINT, Transition, UpToThree, WAITPID_POINT, What,
};
use pct_step_context::{At, Context, next_pc};

// ---- pthread_cancel

/// pthread_cancel: a request for the thread with this id.
#[tactic(auto, unfolding(pct_model::specs::CancelCalls::requests))]
pub fn requests(next: u32, id: u32) -> Transition
    ensures { result ≡ requests next id }
{
    Transition {
        named: Some(NamedAction::Request(id)),
        ..goes_on(next, UpToThree::one(What::Request(id)))
    }
}

// ---- pthread_setcancelstate, pthread_setcanceltype

/// pthread_setcancelstate, in a thread with this state: the previous state is the result.
#[tactic(auto, unfolding(pct_model::specs::CancelCalls::sets_state))]
pub fn sets_state(next: u32, enable: bool, old: Dest, state: State) -> Transition
    ensures { result ≡ sets_state next enable old state }
{
    Transition {
        writes: UpToThree::one((old, state_number(state))),
        own: Some(OwnAction::SetState(state_if(enable))),
        ..goes_on(next, UpToThree::one(What::StateSet(enable)))
    }
}

/// pthread_setcanceltype, in a thread with this type: the previous type is the result.
#[tactic(auto, unfolding(pct_model::specs::CancelCalls::sets_mode))]
pub fn sets_mode(next: u32, asynchronous: bool, old: Dest, mode: Mode) -> Transition
    ensures { result ≡ sets_mode next asynchronous old mode }
{
    Transition {
        writes: UpToThree::one((old, mode_number(mode))),
        own: Some(OwnAction::SetMode(mode_if(asynchronous))),
        ..goes_on(next, UpToThree::one(What::ModeSet(asynchronous)))
    }
}

// The number of a state: PTHREAD_CANCEL_ENABLE is 0, and PTHREAD_CANCEL_DISABLE is 1.
fn state_number(state: State) -> u32
    ensures { result ≡ state_number state }
{
    match state {
        State::Enable => 0,
        State::Disable => 1,
    }
}

// The number of a type: PTHREAD_CANCEL_DEFERRED is 0, and PTHREAD_CANCEL_ASYNCHRONOUS is 1.
fn mode_number(mode: Mode) -> u32
    ensures { result ≡ mode_number mode }
{
    match mode {
        Mode::Deferred => 0,
        Mode::Asynchronous => 1,
    }
}

// Enabled, or disabled.
fn state_if(enable: bool) -> State
    ensures { result ≡ state_if enable }
{
    if enable {
        State::Enable
    } else {
        State::Disable
    }
}

// Asynchronous, or deferred.
fn mode_if(asynchronous: bool) -> Mode
    ensures { result ≡ mode_if asynchronous }
{
    if asynchronous {
        Mode::Asynchronous
    } else {
        Mode::Deferred
    }
}

// ---- cancellation points

/// pthread_testcancel, where no request is acted upon: the thread goes on.
#[tactic(auto, unfolding(pct_model::specs::CancelCalls::tests_cancel))]
pub fn tests_cancel(next: u32) -> Transition
    ensures { result ≡ tests_cancel next }
{
    goes_on(next, UpToThree::one(What::Done(TESTCANCEL_POINT)))
}

/// A call of the cancellation point with this index: the thread is suspended at a required one, and goes on at an optional one.
#[tactic(auto, unfolding(pct_model::specs::CancelCalls::calls_point))]
#[inline(never)]
pub fn calls_point(next: u32, index: u32, transition: &mut Transition)
    ensures { transition.new ≡ calls_point next index (point_kind index) }
{
    match point_kind(index) {
        None => *transition = no_change(),
        Some(PointKind::Required) => {
            *transition = Transition {
                own: Some(OwnAction::SetStatus(Status::AtPoint(index))),
                ..acts(UpToThree::one(What::Called(index)))
            };
        }
        Some(PointKind::Optional) => *transition = passes(next, index),
    }
}

/// The kind of the cancellation point that a statement calls, if it calls one.
#[tactic(auto, unfolding(pct_model::specs::CancelCalls::called_kind))]
pub fn called_kind(statement: &Stmt) -> Option<PointKind>
    ensures { result ≡ called_kind statement.now }
{
    match statement {
        Stmt::Join { .. } => point_kind(JOIN_POINT),
        Stmt::CondWait { .. } => point_kind(COND_WAIT_POINT),
        Stmt::CondTimedWait { .. } => point_kind(COND_TIMEDWAIT_POINT),
        Stmt::SemWait(_) => point_kind(SEM_WAIT_POINT),
        Stmt::SemTimedWait { .. } => point_kind(SEM_TIMEDWAIT_POINT),
        Stmt::WaitPid { .. } => point_kind(WAITPID_POINT),
        Stmt::TestCancel => point_kind(TESTCANCEL_POINT),
        Stmt::PointCall(index) => point_kind(*index),
        _ => None,
    }
}

// The kind of the cancellation point with this index, if there is one.
#[tactic(auto, unfolding(pct_model::specs::CancelCalls::point_kind))]
fn point_kind(index: u32) -> Option<PointKind>
    ensures { result ≡ point_kind index }
{
    match point_at(index) {
        None => None,
        Some(point) => Some(point.kind),
    }
}

/// Whether a thread that is suspended at the point with this index may go on: what it waits for may occur at any time.
#[tactic(auto, unfolding(pct_model::specs::CancelCalls::may_pass_point))]
pub fn may_pass_point(index: u32) -> bool
    ensures { result ≡ may_pass_point index }
{
    match point_at(index) {
        None => false,
        Some(point) => is_outside(point.wait),
    }
}

// Whether what a thread at a point waits for may occur at any time.
fn is_outside(wait: PointWait) -> bool
    ensures { result ≡ is_outside wait }
{
    matches!(wait, PointWait::Outside)
}

/// A thread that is suspended at the point with this index goes on.
#[tactic(auto, unfolding(pct_model::specs::CancelCalls::passes_point))]
#[inline(always)]
pub fn passes_point(context: &Context, index: u32, transition: &mut Transition)
    requires { IsWhole context.now }
    ensures { transition.new ≡ passes_point index (next_at context.now.position.next) }
{
    match &context.position.next {
        None => *transition = no_change(),
        Some(at) => *transition = passes_in(context, at, index),
    }
}

// The same, at a statement of its top frame.
#[tactic(auto, using(pct_step_context::proofs::Bodies::pc_within), unfolding(pct_model::specs::CancelCalls::passes_point))]
fn passes_in(context: &Context, at: &At, index: u32) -> Transition
    requires { IsAt context.now.program.now.script at.now }
    ensures { result ≡ passes_point index (StatementIn at.now.frame at.now.statement.now) }
{
    match at.statement {
        Stmt::PointCall(_) => passes(next_pc(&at.frame), index),
        _ => no_change(),
    }
}

// The thread goes on after the point with this index.
fn passes(next: u32, index: u32) -> Transition
    ensures { result ≡ goes_on next (Done index ∷ []) }
{
    goes_on(next, UpToThree::one(What::Done(index)))
}

// ---- acting upon a request

/// A thread with this status acts upon a request: it begins to end. The thread that it was to join, if it is suspended in
/// pthread_join, stays joinable; the count of a semaphore, if it is suspended in sem_wait, stays as it is; and a child, if it is
/// suspended in waitpid, is not reaped. In pthread_cond_wait the thread has to own its mutex first, and a signal that it consumed
/// is handed on to the thread with an id (XSH 2.9.5.3, pthread_join, pthread_cond_wait).
#[tactic(auto, unfolding(pct_model::specs::CancelCalls::acts_on_request))]
#[inline(never)]
pub fn acts_on_request(id: u32, status: Status, transition: &mut Transition)
    ensures { transition.new ≡ acts_on_request id status }
{
    match status {
        Status::Running
        | Status::AtPoint(_)
        | Status::Joining(_)
        | Status::InSem(_)
        | Status::InWaitPid(_) => {
            *transition = Transition {
                own: Some(OwnAction::BeginEnd(Reason::Canceled)),
                ..acts(UpToThree::one(What::EndingCanceled))
            };
        }
        Status::Waiting(cond, mutex)
        | Status::Reacquire(cond, mutex, Cause::Broadcast | Cause::TimedOut) => {
            *transition = leaves_wait(cond, mutex);
        }
        Status::Reacquire(cond, mutex, Cause::Signalled) => {
            *transition = hands_on(id, cond, mutex);
        }
        _ => *transition = no_change(),
    }
}
