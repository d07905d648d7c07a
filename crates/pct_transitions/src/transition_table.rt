//! The transition that a choice makes.

ghost use Rattle.std.specs.Prelude.{◌≡◌, ◌≤◌, true, length};
ghost use Rattle.pct_model.specs.declared.limits.TheConstants.{MAX_FRAMES, MAX_PASSES};
ghost use Rattle.pct_model.specs.declared.state.Status.TheVariants as status;
ghost use Rattle.pct_model.specs.World.{Thread, SharedState, body_of};
ghost use Rattle.pct_model.specs.StatusKinds.{is_forking};
ghost use Rattle.pct_model.specs.Environment.{Environment};
ghost use Rattle.pct_model.specs.StopTable.{stop_at};
ghost use Rattle.pct_model.specs.NextStatement.{next_of, body_at};
ghost use Rattle.pct_model.specs.TransitionTable.{acts_or, transition_at, stops_or, runs};
ghost use Rattle.pct_step_context.specs.Contexts.{IsContext, IsWhole};
ghost use Rattle.pct_step_context.specs.Positions.{IsAt};
ghost use Rattle.pct_engine_laws.specs.Fitting.{TransitionFits};

use crate::stop_table::stop_at;
use pct_ending_calls::cancel_calls::{
    acts_on_request, calls_point, passes_point, requests, sets_mode, sets_state, tests_cancel,
};
use pct_ending_calls::cleanup_handlers::{pops, pushes};
use pct_ending_calls::cond_calls::{begins_wait, broadcasts, expires, reacquires, signals_by};
use pct_ending_calls::fork_calls::{
    AtForkCall, begins_fork, begins_waitpid, goes_on_forking, registers_fork, waits_at,
};
use pct_ending_calls::mutex_calls::{locks, unlocks};
use pct_ending_calls::thread_ends::{ends_by_exit, goes_on_ending};
use pct_ending_calls::transitions::{no_change, stops};
use pct_keys::key_place;
use pct_model::{
    Alt, COND_TIMEDWAIT_POINT, COND_WAIT_POINT, ForkHandlers, SEM_TIMEDWAIT_POINT, SEM_WAIT_POINT,
    Status, Stmt, Transition,
};
use pct_statements::key_calls::{
    KeyCreateCall, creates_key_by, deletes_key, gets_specific, sets_specific,
};
use pct_statements::once_calls::{OnceCall, calls_once, once_at};
use pct_statements::process_exit::{
    ends_now, exits, goes_on_exiting, may_register, registers_if, returns_by,
};
use pct_statements::script_statements::{
    adds, after_block, after_test, calls, emits, ends_block, jumps, sets,
};
use pct_statements::sem_calls::{begins_sem_wait, count_of, ends_sem_wait, posts};
use pct_statements::thread_calls::{
    CreateCall, begins_join, creates_by, detaches, gets_self, joins_at,
};
use pct_step_context::{At, Context, next_pc, value_of, variable_value};

/// Writes to `transition` what a thread in this context does by a choice. By `act` it acts upon a request. By every other choice
/// it goes on: a running thread stops the run, or makes the transition of its next statement; one that is suspended at a
/// cancellation point goes on; one that joins another returns, once that has ended; one in sem_wait takes the semaphore, or its
/// time expires; one in waitpid reaps the child; one that waits on a condition variable is unblocked as its time expires; one
/// that was unblocked on a condition variable owns its mutex again; one that is ending runs its handlers and destructors and
/// ends; one in fork calls its fork handlers, makes the child, or returns; one that exits its process runs the functions
/// registered with atexit and ends it; every other thread changes nothing. The program counter and the actions, one after
/// another, keep the limits, where a thread in fork has room for the frame of a fork handler.
pub(crate) fn transition_by(context: &Context, choice: Alt, transition: &mut Transition)
    requires { IsWhole context.now }
    ensures value { (shared : SharedState) (t : Thread) (environment : Environment) → IsContext shared t environment context.now
        → let script = context.now.program.now.script in
        transition.new ≡ acts_or choice t.status (transition_at context.now.program.now.config.passes (body_at script t.frames) shared t environment choice (next_of script t.frames) t.status) }
    ensures fits { (shared : SharedState) (t : Thread) (environment : Environment) → IsContext shared t environment context.now → (is_forking t.status ≡ true → length t.frames ≤ MAX_FRAMES) → TransitionFits (length t.frames) (length t.handlers) t.pass transition.new }
{
    match choice {
        Alt::Act(id) => acts_on_request(id, context.position.thread.status, transition),
        _ => transition_at(context, choice, transition),
    }
}

// What the thread does as it goes on, by its status.
#[tactic(auto, unfolding(pct_model::specs::TransitionTable::transition_at))]
fn transition_at(context: &Context, choice: Alt, transition: &mut Transition)
    requires { IsWhole context.now }
    ensures value { (shared : SharedState) (t : Thread) (environment : Environment) → IsContext shared t environment context.now
        → let script = context.now.program.now.script in
        transition.new ≡ transition_at context.now.program.now.config.passes (body_at script t.frames) shared t environment choice (next_of script t.frames) t.status }
    ensures limit { context.now.program.now.config.passes ≤ MAX_PASSES }
{
    let program = context.program;
    let passes = program.config.passes;
    match context.position.thread.status {
        Status::Running => running(context, choice, transition),
        Status::AtPoint(index) => passes_point(context, index, transition),
        Status::Joining(id) => joins_at(context, id, transition),
        Status::InSem(sem) => ends_sem_wait(context, choice, sem, transition),
        Status::InWaitPid(pid) => waits_at(context, pid, transition),
        Status::Waiting(cond, mutex) => *transition = expires(cond, mutex),
        Status::Reacquire(cond, mutex, cause) => {
            reacquires(context, cond, mutex, cause, transition);
        }
        Status::Ending => goes_on_ending(context, passes, choice, transition),
        Status::Forking(at) => goes_on_forking(context, &at, transition),
        Status::Exiting => {
            goes_on_exiting(context.exit_functions(), context.exit_value(), transition);
        }
        _ => *transition = no_change(),
    }
}

// What a running thread does: nothing, if it has no next statement.
#[tactic(auto, unfolding(pct_model::specs::TransitionTable::transition_at))]
fn running(context: &Context, choice: Alt, transition: &mut Transition)
    requires { IsWhole context.now }
    ensures { (shared : SharedState) (t : Thread) (environment : Environment) → IsContext shared t environment context.now
        → let script = context.now.program.now.script in
        transition.new ≡ transition_at context.now.program.now.config.passes (body_at script t.frames) shared t environment choice (next_of script t.frames) status.Running }
{
    match &context.position.next {
        None => *transition = no_change(),
        Some(at) => stops_or_runs(context, at, choice, transition),
    }
}

// What a running thread does at this statement: the stop, if there is one.
fn stops_or_runs(context: &Context, at: &At, choice: Alt, transition: &mut Transition)
    requires whole { IsWhole context.now }
    requires at { IsAt context.now.program.now.script at.now }
    ensures { (shared : SharedState) (t : Thread) (environment : Environment) → IsContext shared t environment context.now
        → let body = body_of context.now.program.now.script at.now.frame.func in
        transition.new ≡ stops_or (stop_at body shared t environment at.now.frame at.now.statement.now) (runs context.now.program.now.config.passes body shared t environment choice at.now.frame at.now.statement.now) }
{
    match stop_at(context, at) {
        Some(why) => *transition = stops(why),
        None => runs(context, at, choice, transition),
    }
}

// What a running thread does at a statement that does not stop.
#[tactic(auto, using(pct_step_context::proofs::Bodies::pc_within), unfolding(pct_model::specs::TransitionTable::runs))]
fn runs(context: &Context, at: &At, choice: Alt, transition: &mut Transition)
    requires whole { IsWhole context.now }
    requires at { IsAt context.now.program.now.script at.now }
    ensures { (shared : SharedState) (t : Thread) (environment : Environment) → IsContext shared t environment context.now
        → transition.new ≡ runs context.now.program.now.config.passes (body_of context.now.program.now.script at.now.frame.func) shared t environment choice at.now.frame at.now.statement.now }
{
    let program = context.program;
    let globals = context.globals();
    let position = &context.position;
    let frame = &at.frame;
    match at.statement {
        Stmt::Emit(operand) => {
            *transition = emits(next_pc(frame), value_of(globals, frame, *operand));
        }
        Stmt::Set(dest, operand) => {
            *transition = sets(next_pc(frame), *dest, value_of(globals, frame, *operand));
        }
        Stmt::Add(dest, operand) => {
            let old = variable_value(globals, frame, *dest);
            let value = value_of(globals, frame, *operand);
            *transition = adds(next_pc(frame), *dest, old, value);
        }
        Stmt::Nop => *transition = jumps(next_pc(frame)),
        Stmt::If(operand) => {
            let value = value_of(globals, frame, *operand);
            *transition = jumps(after_test(program, at, value));
        }
        Stmt::Else => *transition = jumps(after_block(program, at)),
        Stmt::While(operand) => {
            let value = value_of(globals, frame, *operand);
            *transition = jumps(after_test(program, at, value));
        }
        Stmt::End => ends_block(program, position.thread, frame, transition),
        Stmt::Do(func, operand) => {
            *transition = calls(next_pc(frame), *func, value_of(globals, frame, *operand));
        }
        Stmt::Return(operand) => returns_by(
            position.thread,
            frame.kind(),
            value_of(globals, frame, *operand),
            transition,
        ),
        Stmt::Create {
            result: answer,
            id,
            func,
            arg,
            detached,
        } => {
            let call = CreateCall {
                answer: *answer,
                id: *id,
                func: *func,
                arg: value_of(globals, frame, *arg),
                detached: *detached,
            };
            creates_by(&call, next_pc(frame), choice, transition);
        }
        Stmt::Join { id, .. } => *transition = begins_join(value_of(globals, frame, *id)),
        Stmt::Detach(operand) => {
            *transition = detaches(next_pc(frame), value_of(globals, frame, *operand));
        }
        Stmt::CancelThread(operand) => {
            *transition = requests(next_pc(frame), value_of(globals, frame, *operand));
        }
        Stmt::SelfId(dest) => *transition = gets_self(next_pc(frame), *dest, position.id),
        Stmt::TestCancel => *transition = tests_cancel(next_pc(frame)),
        Stmt::SetState { enable, old } => {
            let state = position.thread.cancel.state;
            *transition = sets_state(next_pc(frame), *enable, *old, state);
        }
        Stmt::SetMode { asynchronous, old } => {
            let mode = position.thread.cancel.mode;
            *transition = sets_mode(next_pc(frame), *asynchronous, *old, mode);
        }
        Stmt::PointCall(index) => calls_point(next_pc(frame), *index, transition),
        Stmt::KeyCreate {
            result: answer,
            key,
            dtor,
        } => {
            let call = KeyCreateCall {
                answer: *answer,
                key: *key,
                dtor: *dtor,
            };
            creates_key_by(&call, next_pc(frame), choice, transition);
        }
        Stmt::KeyDelete(key) => {
            *transition = deletes_key(next_pc(frame), value_of(globals, frame, *key));
        }
        Stmt::SetSpecific(key, operand) => {
            let value = value_of(globals, frame, *operand);
            *transition = sets_specific(next_pc(frame), value_of(globals, frame, *key), value);
        }
        Stmt::GetSpecific(dest, key) => {
            let place = key_place(value_of(globals, frame, *key));
            let value = position.keys.get(position.slot, place);
            *transition = gets_specific(next_pc(frame), *dest, value);
        }
        Stmt::Lock(mutex) => *transition = locks(next_pc(frame), *mutex, position.id),
        Stmt::Unlock(mutex) => *transition = unlocks(next_pc(frame), *mutex),
        Stmt::CondWait { cond, mutex } => {
            *transition = begins_wait(COND_WAIT_POINT, *cond, *mutex);
        }
        Stmt::CondTimedWait { cond, mutex, .. } => {
            *transition = begins_wait(COND_TIMEDWAIT_POINT, *cond, *mutex);
        }
        Stmt::Signal(cond) => signals_by(choice, next_pc(frame), *cond, transition),
        Stmt::Broadcast(cond) => {
            *transition = broadcasts(next_pc(frame), *cond, context.waiters(*cond).len());
        }
        Stmt::SemWait(sem) => *transition = begins_sem_wait(SEM_WAIT_POINT, *sem),
        Stmt::SemTimedWait { sem, .. } => *transition = begins_sem_wait(SEM_TIMEDWAIT_POINT, *sem),
        Stmt::SemPost(sem) => {
            *transition = posts(next_pc(frame), *sem, count_of(context.counts(), *sem));
        }
        Stmt::CallOnce { once, func } => {
            let call = OnceCall {
                once: *once,
                func: *func,
                id: position.id,
            };
            let state = once_at(context.onces(), *once);
            calls_once(call, next_pc(frame), state, transition);
        }
        Stmt::AtFork {
            result: answer,
            prepare,
            parent,
            child,
        } => {
            let call = AtForkCall {
                answer: *answer,
                handlers: ForkHandlers {
                    prepare: *prepare,
                    parent: *parent,
                    child: *child,
                },
            };
            registers_fork(&call, next_pc(frame), context.fork_handlers(), transition);
        }
        Stmt::Fork { .. } => begins_fork(context.fork_handlers(), transition),
        Stmt::WaitPid {
            result: answer,
            pid,
            ..
        } => {
            let pid = value_of(globals, frame, *pid);
            *transition = begins_waitpid(context, next_pc(frame), pid, *answer);
        }
        Stmt::AtExit {
            result: answer,
            func,
        } => {
            let may = may_register(context.exit_functions(), context.exit_value());
            registers_if(may, next_pc(frame), *answer, *func, transition);
        }
        Stmt::ProcExit(operand) => *transition = exits(value_of(globals, frame, *operand)),
        Stmt::ProcExitNow(operand) => *transition = ends_now(value_of(globals, frame, *operand)),
        Stmt::ThreadExit(operand) => {
            *transition = ends_by_exit(value_of(globals, frame, *operand));
        }
        Stmt::Push(func, operand) => {
            *transition = pushes(next_pc(frame), *func, value_of(globals, frame, *operand));
        }
        Stmt::Pop(operand) => pops(
            next_pc(frame),
            value_of(globals, frame, *operand),
            position.thread.handlers.newest(),
            transition,
        ),
    }
}
