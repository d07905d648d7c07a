//! The transitions of pthread_create, pthread_join, pthread_detach and pthread_self. `next` is the program counter of the next
//! statement.

ghost use Rattle.std.specs.Prelude.{◌≡◌, Some};
ghost use Rattle.pct_model.specs.NextStatement.{StatementIn};
ghost use Rattle.pct_model.specs.Environment.{Environment, exit_value_with};
ghost use Rattle.pct_model.specs.ThreadCalls.{creates, fails_to_create, creates_by, begins_join, ends_join, joins_at, detaches, gets_self};
ghost use Rattle.pct_step_context.specs.Contexts.{IsWhole, IsEnvironment};
ghost use Rattle.pct_step_context.specs.Positions.{next_at, IsAt};

use pct_ending_calls::transitions::{acts, fails, goes_on, no_change};
use pct_model::{
    Alt, Caller, Dest, EAGAIN, JOIN_POINT, NamedAction, NewThread, OwnAction, Status, Stmt,
    Transition, UpToThree, What,
};
use pct_step_context::{At, Context, next_pc};

// ---- pthread_create

/// A call of pthread_create: the variables that get the result and the id, and what the new thread calls.
#[derive(Clone, Copy)]
pub struct CreateCall {
    pub answer: Dest,
    pub id: Dest,
    pub func: u32,
    pub arg: u32,
    pub detached: bool,
}

/// pthread_create, by the choice of the scheduler: with an id, a thread is created with it; with `go`, no slot is free and no
/// thread is created.
#[inline(always)]
pub fn creates_by(call: &CreateCall, next: u32, choice: Alt, transition: &mut Transition)
    ensures { let c = call.now in transition.new ≡ creates_by choice next c.answer c.id c.func c.arg c.detached }
{
    match choice {
        Alt::New(new) => *transition = creates(call, next, new),
        Alt::Go => *transition = fails_to_create(next, call.answer),
        _ => *transition = no_change(),
    }
}

// A thread is created with an id: the result is 0.
#[tactic(auto, unfolding(pct_model::specs::ThreadCalls::creates))]
#[inline(always)]
fn creates(call: &CreateCall, next: u32, id: u32) -> Transition
    ensures { let c = call.now in result ≡ creates next c.answer c.id id c.func c.arg c.detached }
{
    let detached = call.detached;
    let created = NewThread {
        id,
        detached,
        func: call.func,
        arg: call.arg,
    };
    Transition {
        writes: UpToThree::two((call.answer, 0), (call.id, id)),
        created: Some(created),
        ..goes_on(next, UpToThree::one(What::Created { id, detached }))
    }
}

// No slot is free: the result is EAGAIN, and the id is not written.
#[tactic(auto, unfolding(pct_model::specs::ThreadCalls::fails_to_create))]
fn fails_to_create(next: u32, answer: Dest) -> Transition
    ensures { result ≡ fails_to_create next answer }
{
    fails(next, answer, Caller::Create, EAGAIN)
}

// ---- pthread_join

/// pthread_join: the thread is suspended until the thread with this id has ended.
#[tactic(auto, unfolding(pct_model::specs::ThreadCalls::begins_join))]
pub fn begins_join(id: u32) -> Transition
    ensures { result ≡ begins_join id }
{
    Transition {
        own: Some(OwnAction::SetStatus(Status::Joining(id))),
        ..acts(UpToThree::one(What::Called(JOIN_POINT)))
    }
}

/// A thread that is suspended in pthread_join for the thread with this id returns from it, once its target has ended with a
/// value.
#[inline(always)]
pub fn joins_at(context: &Context, id: u32, transition: &mut Transition)
    requires { IsWhole context.now }
    ensures { (environment : Environment) → IsEnvironment context.now environment → transition.new ≡ joins_at (exit_value_with id environment) id (next_at context.now.position.next) }
{
    match context.exit_value_with(id) {
        None => *transition = no_change(),
        Some(value) => *transition = joins_with(context, id, value),
    }
}

// It returns from it with the exit value of its target.
fn joins_with(context: &Context, id: u32, value: u32) -> Transition
    requires { IsWhole context.now }
    ensures { result ≡ joins_at (Some value) id (next_at context.now.position.next) }
{
    match &context.position.next {
        None => no_change(),
        Some(at) => joins_in(context, at, id, value),
    }
}

// The same, at a statement of its top frame.
#[tactic(auto, using(pct_step_context::proofs::Bodies::pc_within))]
fn joins_in(context: &Context, at: &At, id: u32, value: u32) -> Transition
    requires { IsAt context.now.program.now.script at.now }
    ensures { result ≡ joins_at (Some value) id (StatementIn at.now.frame at.now.statement.now) }
{
    match at.statement {
        Stmt::Join { value: dest, .. } => ends_join(next_pc(&at.frame), *dest, id, value),
        _ => no_change(),
    }
}

// The thread returns from pthread_join with the exit value of its target.
#[tactic(auto, unfolding(pct_model::specs::ThreadCalls::ends_join))]
fn ends_join(next: u32, dest: Dest, id: u32, value: u32) -> Transition
    ensures { result ≡ ends_join next dest id value }
{
    Transition {
        writes: UpToThree::one((dest, value)),
        named: Some(NamedAction::EndJoin(id)),
        ..goes_on(next, UpToThree::one(What::Joined(id, value)))
    }
}

// ---- pthread_detach, pthread_self

/// pthread_detach of the thread with this id.
#[tactic(auto, unfolding(pct_model::specs::ThreadCalls::detaches))]
pub fn detaches(next: u32, id: u32) -> Transition
    ensures { result ≡ detaches next id }
{
    Transition {
        named: Some(NamedAction::Detach(id)),
        ..goes_on(next, UpToThree::one(What::Detached(id)))
    }
}

/// pthread_self of the thread with this id.
#[tactic(auto, unfolding(pct_model::specs::ThreadCalls::gets_self))]
pub fn gets_self(next: u32, dest: Dest, id: u32) -> Transition
    ensures { result ≡ gets_self next dest id }
{
    Transition {
        writes: UpToThree::one((dest, id)),
        ..goes_on(next, UpToThree::none())
    }
}
