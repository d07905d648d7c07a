//! The transitions of pthread_atfork, fork and waitpid. `next` is the program counter of the next statement.

ghost use Rattle.std.specs.Prelude.{◌≡◌, ◌-◌, ◌<◌, ℕ, Option, IfSome, length, reverse, slice_get};
ghost use Rattle.std.specs.List.{range_with_len};
ghost use Rattle.pct_model.specs.declared.limits.TheConstants.{MAX_FORK_HANDLERS};
ghost use Rattle.pct_model.specs.declared.state.ForkAt.{ForkAt as ForkValues};
ghost use Rattle.pct_model.specs.declared.state.Phase.TheVariants as phases;
ghost use Rattle.pct_model.specs.ForkCalls.{handler_for, handler_at, handlers_among, next_handler, while_called, handler_event, calls_handler, registers_fork, begins_fork, forks_by, goes_on_after_handlers, goes_on_forking, leaves_handler, finds_no_child, begins_waitpid, reaps, waits_at};
ghost use Rattle.pct_model.specs.NextStatement.{StatementIn};
ghost use Rattle.pct_model.specs.Environment.{Environment};
ghost use Rattle.pct_step_context.specs.Contexts.{IsWhole, IsEnvironment};
ghost use Rattle.pct_step_context.specs.Positions.{next_at, IsAt};

use crate::transitions::{acts, fails, goes_on, leaves, no_change};
use pct_model::{
    Caller, Dest, EAGAIN, ECHILD, ENOMEM, ForkAt, ForkHandlers, HandlerCall, MAX_FORK_HANDLERS,
    OwnAction, Phase, ProcessAction, SharedAction, Status, Stmt, Transition, UpToThree,
    WAITPID_POINT, What,
};
use pct_process::ForkRegistrations;
use pct_step_context::{At, Context, next_pc};

// ---- pthread_atfork

/// A call of pthread_atfork: the variable that gets the result, and the fork handlers.
#[derive(Clone, Copy)]
pub struct AtForkCall {
    pub answer: Dest,
    pub handlers: ForkHandlers,
}

/// pthread_atfork, in a process with these registrations: the result is 0, or ENOMEM past the limit of this host.
#[tactic(auto, unfolding(pct_model::specs::ForkCalls::registers_fork))]
#[inline(never)]
pub fn registers_fork(
    call: &AtForkCall,
    next: u32,
    registered: &ForkRegistrations,
    transition: &mut Transition,
)
    ensures { transition.new ≡ registers_fork (length registered.now) next call.now.answer call.now.handlers }
{
    if registered.as_slice().len() < MAX_FORK_HANDLERS {
        *transition = Transition {
            writes: UpToThree::one((call.answer, 0)),
            shared: Some(SharedAction::AddForkHandlers(call.handlers)),
            ..goes_on(next, UpToThree::none())
        };
    } else {
        *transition = fails(next, call.answer, Caller::AtFork, ENOMEM);
    }
}

// ---- fork handlers

// The handler that a thread in fork calls next, in a process with these registrations. `None` exactly if none is left. Before the fork
// the newest registration comes first, and after it the oldest (XSH pthread_atfork).
#[tactic(auto, unfolding(pct_model::specs::ForkCalls::next_handler))]
fn next_handler(registered: &[ForkHandlers], at: &ForkAt) -> Option<HandlerCall>
    ensures value { result ≡ next_handler registered.now at.now }
    ensures within { IfSome result (λ call. call.index < length registered.now) }
{
    match at.phase {
        Phase::Prepare => newest_below(registered, at.next),
        Phase::Parent | Phase::Child => oldest_from(registered, at),
    }
}

// The handler before the fork of the newest registration that has one, of those with an index below `end`.
fn newest_below(registered: &[ForkHandlers], end: u32) -> Option<HandlerCall>
    ensures value { result ≡ slice_get (handlers_among phases.Prepare registered.now (reverse (range_with_len 0 end))) 0 }
    ensures within { IfSome result (λ call. call.index < length registered.now) }
{
    for index in (0..end).rev() {
        if let Some(func) = handler_at(registered, Phase::Prepare, index) {
            return Some(HandlerCall { index, func });
        }
    }
    None
}

// The handler of the phase of the oldest registration that has one, of those that are left.
fn oldest_from(registered: &[ForkHandlers], at: &ForkAt) -> Option<HandlerCall>
    ensures value { result ≡ slice_get (handlers_among at.now.phase registered.now (range_with_len at.now.next (at.now.length - at.now.next))) 0 }
    ensures within { IfSome result (λ call. call.index < length registered.now) }
{
    for index in at.next..at.length {
        if let Some(func) = handler_at(registered, at.phase, index) {
            return Some(HandlerCall { index, func });
        }
    }
    None
}

// The handler of a phase in the registration with an index, if it has one.
fn handler_at(registered: &[ForkHandlers], phase: Phase, index: u32) -> Option<u32>
    ensures value { result ≡ handler_at phase registered.now index }
    ensures within { IfSome result (λ _. index < length registered.now) }
{
    handler_for(phase, registered.get(index as usize)?)
}

// The handler of a phase, which may be absent.
fn handler_for(phase: Phase, handlers: &ForkHandlers) -> Option<u32>
    ensures { result ≡ handler_for phase handlers.now }
{
    match phase {
        Phase::Prepare => handlers.prepare,
        Phase::Parent => handlers.parent,
        Phase::Child => handlers.child,
    }
}

// A thread in fork calls a handler.
#[tactic(auto, unfolding(pct_model::specs::ForkCalls::calls_handler))]
fn calls_handler(at: &ForkAt, handler: HandlerCall) -> Transition
    requires { handler.index < MAX_FORK_HANDLERS }
    ensures { result ≡ calls_handler at.now handler }
{
    Transition {
        own: Some(OwnAction::CallForkHandler(while_called(at, handler.index), handler.func)),
        ..acts(UpToThree::one(handler_event(at.phase, handler.func)))
    }
}

// The values of a fork while the handler of the registration with an index runs.
fn while_called(at: &ForkAt, index: u32) -> ForkAt
    requires { index < MAX_FORK_HANDLERS }
    ensures { result ≡ while_called at.now index }
{
    let next = match at.phase {
        Phase::Prepare => index,
        Phase::Parent | Phase::Child => index + 1,
    };
    ForkAt { next, ..*at }
}

// The event of the call of a handler.
fn handler_event(phase: Phase, func: u32) -> What
    ensures { result ≡ handler_event phase func }
{
    match phase {
        Phase::Prepare => What::PrepareRun(func),
        Phase::Parent => What::ParentRun(func),
        Phase::Child => What::ChildRun(func),
    }
}

/// A thread returns from a fork handler: it goes on with its fork, by the values that it kept.
#[tactic(auto, unfolding(pct_model::specs::ForkCalls::leaves_handler))]
pub fn leaves_handler(kept: Option<ForkAt>) -> Transition
    ensures { result ≡ leaves_handler kept }
{
    match kept {
        None => no_change(),
        Some(at) => leaves(Status::Forking(at)),
    }
}

// ---- fork

/// fork, in a process with these registrations of fork handlers: the thread is in its phase before the fork, and uses these ones.
#[tactic(auto, unfolding(pct_model::specs::ForkCalls::begins_fork))]
#[inline(never)]
pub fn begins_fork(registered: &ForkRegistrations, transition: &mut Transition)
    ensures { transition.new ≡ begins_fork (length registered.now) }
{
    let length = registered.as_slice().len() as u32;
    let at = ForkAt {
        phase: Phase::Prepare,
        next: length,
        length,
        answer: 0,
    };
    *transition = Transition {
        own: Some(OwnAction::SetStatus(Status::Forking(at))),
        ..acts(UpToThree::none())
    };
}

/// A thread in fork goes on: it calls the next fork handler of its phase, if one is left. Then, before the fork, a child is made; after
/// it, the thread returns, in the parent with the id of the child, which is 0 if none was made.
#[inline(never)]
pub fn goes_on_forking(context: &Context, at: &ForkAt, transition: &mut Transition)
    requires { IsWhole context.now }
    ensures { (environment : Environment) → IsEnvironment context.now environment → transition.new ≡ goes_on_forking (next_handler context.now.process.now.shared.fork_handlers at.now) at.now environment.family.new_pid (next_at context.now.position.next) }
{
    match next_handler(context.fork_handlers().as_slice(), at) {
        Some(handler) => *transition = calls_handler(at, handler),
        None => goes_on_after_handlers(context, at, transition),
    }
}

// The same where no handler of the phase is left.
fn goes_on_after_handlers(context: &Context, at: &ForkAt, transition: &mut Transition)
    requires { IsWhole context.now }
    ensures { (environment : Environment) → IsEnvironment context.now environment → transition.new ≡ goes_on_after_handlers at.now.phase at.now environment.family.new_pid (next_at context.now.position.next) }
{
    match (at.phase, &context.position.next) {
        (Phase::Prepare, _) => *transition = forks_by(at.length, context.new_pid()),
        (_, None) => *transition = no_change(),
        (Phase::Parent, Some(next)) => *transition = returns_in_parent(context, next, at.answer),
        (Phase::Child, Some(next)) => *transition = returns_in_child(context, next),
    }
}

// A child is made with an id, in a fork that uses this many registrations. Without an id there is none, and fork fails with EAGAIN.
#[tactic(auto, unfolding(pct_model::specs::ForkCalls::forks_by))]
fn forks_by(length: u32, new_pid: Option<u32>) -> Transition
    ensures { result ≡ forks_by length new_pid }
{
    match new_pid {
        Some(pid) => Transition {
            own: Some(OwnAction::SetStatus(Status::Forking(after_fork(length, pid)))),
            process: Some(ProcessAction::Make(pid)),
            ..acts(UpToThree::one(What::Forked(pid)))
        },
        None => Transition {
            own: Some(OwnAction::SetStatus(Status::Forking(after_fork(length, 0)))),
            ..acts(UpToThree::one(What::Answer {
                call: Caller::Fork,
                number: EAGAIN,
            }))
        },
    }
}

// The values of a fork right after it, in the process that called it: its handlers are called from the first registration on.
fn after_fork(length: u32, answer: u32) -> ForkAt
    ensures { result ≡ record { phase = phases.Parent; next = 0; length = length; answer = answer } }
{
    ForkAt {
        phase: Phase::Parent,
        next: 0,
        length,
        answer,
    }
}

// fork returns in the process that called it, at a statement of the top frame: the result is 0, and the id of the child is written. If
// no child was made, the result is EAGAIN, and no id is written.
#[tactic(auto, using(pct_step_context::proofs::Bodies::pc_within), unfolding(pct_model::specs::ForkCalls::returns_in_parent))]
#[inline(always)]
fn returns_in_parent(context: &Context, at: &At, pid: u32) -> Transition
    requires { IsAt context.now.program.now.script at.now }
    ensures { (forking : ForkValues) (new_pid : Option ℕ) → forking.answer ≡ pid → result ≡ goes_on_after_handlers phases.Parent forking new_pid (StatementIn at.now.frame at.now.statement.now) }
{
    match at.statement {
        Stmt::Fork {
            result: answer,
            child,
        } => {
            let next = next_pc(&at.frame);
            if pid == 0 {
                Transition {
                    writes: UpToThree::one((*answer, EAGAIN)),
                    ..goes_on(next, UpToThree::none())
                }
            } else {
                Transition {
                    writes: UpToThree::two((*answer, 0), (*child, pid)),
                    ..goes_on(next, UpToThree::none())
                }
            }
        }
        _ => no_change(),
    }
}

// fork returns in the child, at a statement of the top frame: the result is 0, and so is the id that is written.
#[tactic(auto, using(pct_step_context::proofs::Bodies::pc_within), unfolding(pct_model::specs::ForkCalls::returns_in_child))]
#[inline(always)]
fn returns_in_child(context: &Context, at: &At) -> Transition
    requires { IsAt context.now.program.now.script at.now }
    ensures { (forking : ForkValues) (new_pid : Option ℕ) → result ≡ goes_on_after_handlers phases.Child forking new_pid (StatementIn at.now.frame at.now.statement.now) }
{
    match at.statement {
        Stmt::Fork {
            result: answer,
            child,
        } => Transition {
            writes: UpToThree::two((*answer, 0), (*child, 0)),
            ..goes_on(next_pc(&at.frame), UpToThree::none())
        },
        _ => no_change(),
    }
}

// ---- waitpid

/// waitpid for the process with an id: the thread is suspended until that child has ended. If there is no such child that was not
/// reaped, the call fails.
#[inline(always)]
pub fn begins_waitpid(context: &Context, next: u32, pid: u32, answer: Dest) -> Transition
    ensures { (environment : Environment) → IsEnvironment context.now environment → result ≡ begins_waitpid (environment.family.child pid) pid next answer }
{
    match context.child(pid) {
        Some(_) => Transition {
            own: Some(OwnAction::SetStatus(Status::InWaitPid(pid))),
            ..acts(UpToThree::one(What::Called(WAITPID_POINT)))
        },
        None => finds_no_child(next, answer),
    }
}

// There is no such child: the result is ECHILD.
#[tactic(auto, unfolding(pct_model::specs::ForkCalls::finds_no_child))]
fn finds_no_child(next: u32, answer: Dest) -> Transition
    ensures { result ≡ finds_no_child next answer }
{
    fails(next, answer, Caller::WaitPid, ECHILD)
}

/// A thread that is suspended in waitpid for the process with an id goes on: it reaps the child, which has ended, and returns. If
/// another thread has reaped the child, the call fails.
#[inline(always)]
pub fn waits_at(context: &Context, pid: u32, transition: &mut Transition)
    requires { IsWhole context.now }
    ensures { (environment : Environment) → IsEnvironment context.now environment → transition.new ≡ waits_at (environment.family.child pid) pid (next_at context.now.position.next) }
{
    match &context.position.next {
        None => *transition = no_change(),
        Some(at) => *transition = waits_in(context, at, pid),
    }
}

// The same, at a statement of its top frame.
#[tactic(auto, using(pct_step_context::proofs::Bodies::pc_within), unfolding(pct_model::specs::ForkCalls::reaps))]
#[inline(always)]
fn waits_in(context: &Context, at: &At, pid: u32) -> Transition
    requires { IsAt context.now.program.now.script at.now }
    ensures { (environment : Environment) → IsEnvironment context.now environment → result ≡ waits_at (environment.family.child pid) pid (StatementIn at.now.frame at.now.statement.now) }
{
    match at.statement {
        Stmt::WaitPid {
            result: answer,
            value,
            ..
        } => match context.child(pid) {
            None => finds_no_child(next_pc(&at.frame), *answer),
            Some(child) => match child.ended {
                None => no_change(),
                Some(status) => Transition {
                    writes: UpToThree::two((*answer, 0), (*value, status)),
                    process: Some(ProcessAction::Reap(pid)),
                    ..goes_on(
                        next_pc(&at.frame),
                        UpToThree::one(What::Reaped(pid, status)),
                    )
                },
            },
        },
        _ => no_change(),
    }
}
