//! The transitions of pthread_cond_wait, pthread_cond_timedwait, pthread_cond_signal and pthread_cond_broadcast. `next` is the program
//! counter of the next statement.

ghost use Rattle.std.specs.Prelude.{◌≡◌, ℕ};
ghost use Rattle.pct_model.specs.declared.schedule.Alt.TheVariants as alt;
ghost use Rattle.pct_model.specs.declared.state.Cause.TheVariants as cause;
ghost use Rattle.pct_model.specs.CondCalls.{begins_wait, expires, reacquires, leaves_wait, hands_on, signals_by, broadcasts};
ghost use Rattle.pct_model.specs.NextStatement.{NextStatement, StatementIn};
ghost use Rattle.pct_step_context.specs.Contexts.{IsWhole};
ghost use Rattle.pct_step_context.specs.Positions.{next_at, IsAt};

use crate::transitions::{acts, goes_on, no_change};
use pct_model::{
    Alt, COND_TIMEDWAIT_POINT, COND_WAIT_POINT, Caller, Cause, ETIMEDOUT, NamedAction, OwnAction,
    Reason, SharedAction, Status, Stmt, Transition, UpToThree, What,
};
use pct_step_context::{At, Context, next_pc};

// ---- pthread_cond_wait

/// A call of the cancellation point with this index, on a condition variable with a mutex, by their indexes: the thread releases the mutex
/// and blocks.
#[tactic(auto, unfolding(pct_model::specs::CondCalls::begins_wait))]
pub fn begins_wait(point: u32, cond: u32, mutex: u32) -> Transition
    ensures { result ≡ begins_wait point cond mutex }
{
    Transition {
        own: Some(OwnAction::SetStatus(Status::Waiting(cond, mutex))),
        shared: Some(SharedAction::OwnMutex(mutex, 0)),
        ..acts(UpToThree::two(What::Called(point), What::Released(mutex)))
    }
}

/// The time of a wait on a condition variable with a mutex expires: the thread is unblocked (XSH pthread_cond_timedwait).
#[tactic(auto, unfolding(pct_model::specs::CondCalls::expires))]
pub fn expires(cond: u32, mutex: u32) -> Transition
    ensures { result ≡ expires cond mutex }
{
    Transition {
        own: Some(OwnAction::SetStatus(Status::Reacquire(cond, mutex, Cause::TimedOut))),
        ..acts(UpToThree::one(What::WaitExpired(cond)))
    }
}

/// A thread in this context that was unblocked owns its mutex again, and returns, with ETIMEDOUT if its time expired; or, if it was by a
/// request, begins to end (XSH 2.9.5.2, pthread_cond_wait).
#[tactic(auto, unfolding(pct_model::specs::CondCalls::reacquires))]
#[inline(always)]
pub fn reacquires(
    context: &Context,
    cond: u32,
    mutex: u32,
    cause: Cause,
    transition: &mut Transition,
)
    requires { IsWhole context.now }
    ensures { transition.new ≡ reacquires context.now.position.id cond mutex cause (next_at context.now.position.next) }
{
    match cause {
        Cause::Canceled => *transition = ends_in_wait(context.position.id, cond, mutex),
        Cause::TimedOut => times_out(context, mutex, transition),
        Cause::Signalled | Cause::Broadcast => returns_from_wait(context, mutex, transition),
    }
}

// The thread owns its mutex again, and begins to end.
#[tactic(auto, unfolding(pct_model::specs::CondCalls::reacquires))]
fn ends_in_wait(id: u32, cond: u32, mutex: u32) -> Transition
    ensures { (next : NextStatement) → result ≡ reacquires id cond mutex cause.Canceled next }
{
    Transition {
        own: Some(OwnAction::BeginEnd(Reason::Canceled)),
        shared: Some(SharedAction::OwnMutex(mutex, id)),
        ..acts(UpToThree::two(What::Acquired(mutex), What::EndingInWait(cond, mutex)))
    }
}

// The thread owns its mutex again, and returns ETIMEDOUT.
#[tactic(auto, unfolding(pct_model::specs::CondCalls::reacquires))]
fn times_out(context: &Context, mutex: u32, transition: &mut Transition)
    requires { IsWhole context.now }
    ensures { (cond : ℕ) → transition.new ≡ reacquires context.now.position.id cond mutex cause.TimedOut (next_at context.now.position.next) }
{
    match &context.position.next {
        None => *transition = no_change(),
        Some(at) => *transition = times_out_in(context, at, mutex),
    }
}

// The same, at a statement of its top frame.
#[tactic(auto, using(pct_step_context::proofs::Bodies::pc_within), unfolding(pct_model::specs::CondCalls::reacquires))]
fn times_out_in(context: &Context, at: &At, mutex: u32) -> Transition
    requires { IsAt context.now.program.now.script at.now }
    ensures { (cond : ℕ) → result ≡ reacquires context.now.position.id cond mutex cause.TimedOut (StatementIn at.now.frame at.now.statement.now) }
{
    match at.statement {
        Stmt::CondTimedWait { result: answer, .. } => Transition {
            writes: UpToThree::one((*answer, ETIMEDOUT)),
            shared: Some(SharedAction::OwnMutex(mutex, context.position.id)),
            ..goes_on(
                next_pc(&at.frame),
                UpToThree::two(
                    What::Acquired(mutex),
                    What::Answer {
                        call: Caller::CondTimedWait,
                        number: ETIMEDOUT,
                    },
                ),
            )
        },
        _ => no_change(),
    }
}

// The thread owns its mutex again, and returns from its wait without an error.
#[tactic(auto, unfolding(pct_model::specs::CondCalls::reacquires))]
fn returns_from_wait(context: &Context, mutex: u32, transition: &mut Transition)
    requires { IsWhole context.now }
    ensures signalled { (cond : ℕ) → transition.new ≡ reacquires context.now.position.id cond mutex cause.Signalled (next_at context.now.position.next) }
    ensures broadcast { (cond : ℕ) → transition.new ≡ reacquires context.now.position.id cond mutex cause.Broadcast (next_at context.now.position.next) }
{
    match &context.position.next {
        None => *transition = no_change(),
        Some(at) => *transition = returns_in(context, at, mutex),
    }
}

// The same, at a statement of its top frame.
#[tactic(auto, using(pct_step_context::proofs::Bodies::pc_within), unfolding(pct_model::specs::CondCalls::reacquires))]
fn returns_in(context: &Context, at: &At, mutex: u32) -> Transition
    requires { IsAt context.now.program.now.script at.now }
    ensures signalled { (cond : ℕ) → result ≡ reacquires context.now.position.id cond mutex cause.Signalled (StatementIn at.now.frame at.now.statement.now) }
    ensures broadcast { (cond : ℕ) → result ≡ reacquires context.now.position.id cond mutex cause.Broadcast (StatementIn at.now.frame at.now.statement.now) }
{
    match at.statement {
        Stmt::CondWait { .. } => Transition {
            shared: Some(SharedAction::OwnMutex(mutex, context.position.id)),
            ..goes_on(
                next_pc(&at.frame),
                UpToThree::two(What::Acquired(mutex), What::Done(COND_WAIT_POINT)),
            )
        },
        Stmt::CondTimedWait { result: answer, .. } => Transition {
            writes: UpToThree::one((*answer, 0)),
            shared: Some(SharedAction::OwnMutex(mutex, context.position.id)),
            ..goes_on(
                next_pc(&at.frame),
                UpToThree::two(What::Acquired(mutex), What::Done(COND_TIMEDWAIT_POINT)),
            )
        },
        _ => no_change(),
    }
}

/// A thread in a wait acts upon a request: it waits until it owns the mutex again (XSH 2.9.5.2, pthread_cond_wait).
#[tactic(auto, unfolding(pct_model::specs::CondCalls::leaves_wait))]
pub fn leaves_wait(cond: u32, mutex: u32) -> Transition
    ensures { result ≡ leaves_wait cond mutex }
{
    Transition {
        own: Some(OwnAction::SetStatus(Status::Reacquire(cond, mutex, Cause::Canceled))),
        ..acts(UpToThree::one(What::WaitCanceled(cond)))
    }
}

/// A thread that was unblocked by a signal does so, and hands the signal on to the thread with this id, if it is not 0.
#[tactic(auto, unfolding(pct_model::specs::CondCalls::hands_on))]
pub fn hands_on(id: u32, cond: u32, mutex: u32) -> Transition
    ensures { result ≡ hands_on id cond mutex }
{
    if id == 0 {
        return leaves_wait(cond, mutex);
    }
    Transition {
        own: Some(OwnAction::SetStatus(Status::Reacquire(cond, mutex, Cause::Canceled))),
        named: Some(NamedAction::Wake(id)),
        ..acts(UpToThree::two(What::WaitCanceled(cond), What::HandedOn(cond, id)))
    }
}

// ---- pthread_cond_signal, pthread_cond_broadcast

/// pthread_cond_signal, by the choice of the scheduler: with an id, the thread with it is unblocked; with `go`, no thread waits and
/// the signal is lost.
#[tactic(auto, unfolding(pct_model::specs::CondCalls::signals_by))]
#[inline(never)]
pub fn signals_by(choice: Alt, next: u32, cond: u32, transition: &mut Transition)
    ensures { transition.new ≡ signals_by choice next cond }
{
    match choice {
        Alt::Pick(id) => *transition = signals(next, cond, id),
        Alt::Go => *transition = loses_signal(next, cond),
        _ => *transition = no_change(),
    }
}

// The thread with this id is unblocked.
#[tactic(auto, unfolding(pct_model::specs::CondCalls::signals_by))]
fn signals(next: u32, cond: u32, id: u32) -> Transition
    ensures { result ≡ signals_by (alt.Pick id) next cond }
{
    Transition {
        named: Some(NamedAction::Wake(id)),
        ..goes_on(next, UpToThree::one(What::Signalled(cond, id)))
    }
}

// No thread waits: the signal has no effect.
#[tactic(auto, unfolding(pct_model::specs::CondCalls::signals_by))]
fn loses_signal(next: u32, cond: u32) -> Transition
    ensures { result ≡ signals_by alt.Go next cond }
{
    goes_on(next, UpToThree::one(What::Signalled(cond, 0)))
}

/// pthread_cond_broadcast, where this number of threads wait on the condition variable: each of them is unblocked.
#[tactic(auto, unfolding(pct_model::specs::CondCalls::broadcasts))]
pub fn broadcasts(next: u32, cond: u32, waiting: u32) -> Transition
    ensures { result ≡ broadcasts next cond waiting }
{
    Transition {
        named: Some(NamedAction::WakeAll(cond)),
        ..goes_on(next, UpToThree::one(What::BroadcastTo(cond, waiting)))
    }
}
