//! The transitions of returns from functions, and of the end of a process (XSH exit, _exit, atexit, pthread_create). `next` is the
//! program counter of the next statement.

ghost use Rattle.std.specs.Prelude.{◌≡◌, [], ◌∷◌, ℕ, List, Option};
ghost use Rattle.pct_model.specs.ProcessExit.{exits, returns_by, ends_now, goes_on_exiting, may_register, registers_if};
ghost use Rattle.pct_model.specs.World.{SharedState};

use crate::once_calls::leaves_routine;
use pct_ending_calls::fork_calls::leaves_handler;
use pct_ending_calls::thread_ends::ends_by_exit;
use pct_ending_calls::transitions::{acts, fails, goes_on, leaves, no_change};
use pct_model::{
    Caller, Dest, FrameKind, OwnAction, ProcessAction, SharedAction, Status, Transition, UpToThree,
    What,
};
use pct_process::ExitFunctions;
use pct_threads::Thread;

/// A thread begins to exit its process with a value, as if it called exit (XSH exit).
#[tactic(auto, unfolding(pct_model::specs::ProcessExit::exits))]
pub fn exits(value: u32) -> Transition
    ensures { result ≡ exits value }
{
    Transition {
        own: Some(OwnAction::BeginExit),
        shared: Some(SharedAction::BeginExit(value)),
        ..acts(UpToThree::one(What::ExitBegun(value)))
    }
}

/// `return` of a value, by the kind of the top frame of the thread with this record. A return from `main` in the initial thread acts as
/// exit, one from the start routine of another thread as pthread_exit (XSH pthread_create). A return from a fork handler goes on with
/// the fork, by the values that the thread kept, and one from an init routine completes its once control (XSH pthread_once).
#[tactic(auto, unfolding(pct_model::specs::ProcessExit::returns_by))]
#[inline(never)]
pub fn returns_by(thread: &Thread, kind: FrameKind, value: u32, transition: &mut Transition)
    ensures { transition.new ≡ returns_by thread.now.kept kind value }
{
    match kind {
        FrameKind::Main => *transition = exits(value),
        FrameKind::Start => *transition = ends_by_exit(value),
        FrameKind::Call => *transition = leaves(Status::Running),
        FrameKind::PopHandler => *transition = leaves(Status::Running),
        FrameKind::Handler => *transition = leaves(Status::Ending),
        FrameKind::Destructor => *transition = leaves(Status::Ending),
        FrameKind::ExitFn => *transition = leaves(Status::Exiting),
        FrameKind::ForkFn => *transition = leaves_handler(thread.kept),
        FrameKind::OnceFn(once) => *transition = leaves_routine(once),
    }
}

/// The process ends with a value modulo 256 (XSH _exit).
#[tactic(auto, unfolding(pct_model::specs::ProcessExit::ends_now))]
pub fn ends_now(value: u32) -> Transition
    ensures { result ≡ ends_now value }
{
    Transition {
        process: Some(ProcessAction::End(value % 256)),
        ..acts(UpToThree::one(What::ProcessEnded(value % 256)))
    }
}

/// A thread that exits its process removes the newest function registered with atexit and calls it. Without one it ends the process,
/// with the value of exit (XSH exit).
#[tactic(auto, unfolding(pct_model::specs::ProcessExit::goes_on_exiting))]
#[inline(never)]
pub fn goes_on_exiting(
    functions: &ExitFunctions,
    exit_value: Option<u32>,
    transition: &mut Transition,
)
    ensures { transition.new ≡ goes_on_exiting functions.now exit_value }
{
    match functions.newest() {
        Some(func) => *transition = calls_exit_function(func),
        None => *transition = ends_exit(exit_value),
    }
}

// The thread removes the newest function and calls it.
#[tactic(auto, unfolding(pct_model::specs::ProcessExit::goes_on_exiting))]
fn calls_exit_function(func: u32) -> Transition
    ensures { (functions : List ℕ) (value : Option ℕ) → result ≡ goes_on_exiting (func ∷ functions) value }
{
    Transition {
        own: Some(OwnAction::RunExitFunction(func)),
        shared: Some(SharedAction::TakeExit),
        ..acts(UpToThree::one(What::ExitRun(func)))
    }
}

// The thread ends the process with the value of exit.
#[tactic(auto, unfolding(pct_model::specs::ProcessExit::goes_on_exiting))]
fn ends_exit(exit_value: Option<u32>) -> Transition
    ensures { result ≡ goes_on_exiting [] exit_value }
{
    match exit_value {
        None => no_change(),
        Some(value) => ends_now(value),
    }
}

// ---- atexit

/// Whether a function can be registered: fewer than the limit are, and exit has not begun.
pub fn may_register(functions: &ExitFunctions, exit_value: Option<u32>) -> bool
    ensures { (shared : SharedState) → functions.now ≡ shared.exit_functions → exit_value ≡ shared.exit_value → result ≡ may_register shared }
{
    functions.has_room() && exit_value.is_none()
}

/// atexit of a function, if it can be registered: the result is 0, or 1.
#[tactic(auto, unfolding(pct_model::specs::ProcessExit::registers_if))]
#[inline(never)]
pub fn registers_if(
    may_register: bool,
    next: u32,
    answer: Dest,
    func: u32,
    transition: &mut Transition,
)
    ensures { transition.new ≡ registers_if may_register next answer func }
{
    if may_register {
        *transition = Transition {
            writes: UpToThree::one((answer, 0)),
            shared: Some(SharedAction::AddExit(func)),
            ..goes_on(next, UpToThree::none())
        };
    } else {
        *transition = fails(next, answer, Caller::AtExit, 1);
    }
}
