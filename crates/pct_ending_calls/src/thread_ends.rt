//! The transitions at the end of a thread (XSH 2.9.5.3, pthread_exit, pthread_create): it begins to end, its cleanup handlers
//! run, then the destructors of its thread-specific data, and it ends.

ghost use Rattle.std.specs.Prelude.{◌≡◌, [], ◌∷◌, ◌++◌, ℕ, Bool, List, option_and_then};
ghost use Rattle.pct_model.specs.declared.event.What.TheVariants.{EndedWith, ExitBegun};
ghost use Rattle.pct_model.specs.declared.script.Script.{Script};
ghost use Rattle.pct_model.specs.declared.schedule.Alt.{Alt as Choice};
ghost use Rattle.pct_model.specs.Keys.{KeyPlace, key_place, key_with, value_at};
ghost use Rattle.pct_model.specs.Environment.{Environment};
ghost use Rattle.pct_model.specs.World.{Thread, SharedState};
ghost use Rattle.pct_model.specs.ThreadEnds.{ends_by_exit, end_value, leftover, ends_thread, calls_destructor, goes_on_ending};
ghost use Rattle.pct_step_context.specs.Contexts.{IsContext, IsWhole};
ghost use Rattle.pct_step_context.specs.Positions.{HasRow, IsPosition};

use crate::transitions::{acts, no_change};
use pct_model::{
    Alt, OwnAction, PTHREAD_CANCELED, Reason, SharedAction, Transition, UpToThree, What,
};
use pct_step_context::{Context, Position};

/// pthread_exit with a value, or a return from a start routine, which acts as pthread_exit (XSH pthread_create): the thread
/// begins to end.
#[tactic(auto, unfolding(pct_model::specs::ThreadEnds::ends_by_exit))]
pub fn ends_by_exit(value: u32) -> Transition
    ensures { result ≡ ends_by_exit value }
{
    Transition {
        own: Some(OwnAction::BeginEnd(Reason::Exit(value))),
        ..acts(UpToThree::one(What::EndingExit(value)))
    }
}

/// A thread in this context that is ending, and so has no frame, removes its newest cleanup handler and calls it. Without a handler
/// it calls the destructor of the key that the choice names; by every other choice it begins the next pass over the destructors, if
/// keys are due and the limit on passes allows it, and else it ends (XSH 2.9.5.3, pthread_key_create). The last thread of a process
/// begins to exit it with 0.
#[tactic(auto, unfolding(pct_model::specs::ThreadEnds::goes_on_ending))]
#[inline(always)]
pub fn goes_on_ending(context: &Context, passes: u32, choice: Alt, transition: &mut Transition)
    requires { IsWhole context.now }
    ensures { (shared : SharedState) (t : Thread) (environment : Environment) → IsContext shared t environment context.now
        → transition.new ≡ goes_on_ending environment.is_last passes shared.keys t choice t.handlers }
{
    match context.position.thread.handlers.newest() {
        None => without_handlers(context, passes, choice, transition),
        Some((func, arg)) => *transition = runs_handler(func, arg),
    }
}

// The thread removes its newest cleanup handler and calls it.
#[tactic(auto, unfolding(pct_model::specs::ThreadEnds::goes_on_ending))]
fn runs_handler(func: u32, arg: u32) -> Transition
    ensures { (is_last : Bool) (passes : ℕ) (keys : List KeyPlace) (t : Thread) (choice : Choice) (below : List (ℕ × ℕ)) → result ≡ goes_on_ending is_last passes keys t choice ((func, arg) ∷ below) }
{
    Transition {
        own: Some(OwnAction::RunHandler(func, arg)),
        ..acts(UpToThree::one(What::HandlerRun(func, arg)))
    }
}

// The thread has no cleanup handler: it calls the destructor that the choice names, or begins the next pass if keys are due and the
// limit on passes allows it, and else it ends.
#[tactic(auto, unfolding(pct_model::specs::ThreadEnds::goes_on_ending))]
#[inline(always)]
fn without_handlers(context: &Context, passes: u32, choice: Alt, transition: &mut Transition)
    requires { IsWhole context.now }
    ensures { (shared : SharedState) (t : Thread) (environment : Environment) → IsContext shared t environment context.now
        → transition.new ≡ goes_on_ending environment.is_last passes shared.keys t choice [] }
{
    let position = &context.position;
    match choice {
        Alt::Dtor(key) => calls_destructor(position, key, transition),
        _ => {
            let due = position.keys.due(position.slot);
            let thread = position.thread;
            *transition = if due != 0 && thread.pass < passes {
                Transition {
                    own: Some(OwnAction::BeginPass),
                    ..acts(UpToThree::one(What::PassBegun(thread.pass + 1)))
                }
            } else {
                ends_thread(context.is_last(), due, end_value(thread.reason))
            };
        }
    }
}

// The thread calls the destructor of the key with a number, with its value of the key.
#[inline(always)]
fn calls_destructor(position: &Position, key: u32, transition: &mut Transition)
    requires { HasRow position.now }
    ensures { (script : Script) (t : Thread) → IsPosition script position.now t
        → transition.new ≡ calls_destructor t.pass key (value_at (key_place key) t.specific) (option_and_then (λ k. k.destructor) (key_with key position.now.keys.now.places)) }
{
    match position.keys.find(key) {
        None => *transition = no_change(),
        Some(place) => {
            let value = position.keys.get(position.slot, place);
            *transition = runs_destructor(
                position.thread.pass,
                key,
                value,
                position.keys.destructor(place),
            );
        }
    }
}

// A destructor is called in a pass with the thread's value of the key, which is NULL then.
#[tactic(auto, unfolding(pct_model::specs::ThreadEnds::calls_destructor))]
fn runs_destructor(pass: u32, key: u32, value: u32, dtor: Option<u32>) -> Transition
    ensures { result ≡ calls_destructor pass key value dtor }
{
    let Some(func) = dtor else {
        return no_change();
    };
    Transition {
        own: Some(OwnAction::RunDestructor {
            key: key,
            func: func,
            value: value,
        }),
        ..acts(UpToThree::one(What::DtorRun {
            pass,
            key,
            f: func,
            v: value,
        }))
    }
}

// The thread ends with a value, and a number of due keys left; the last thread of a process begins to exit it with 0, as if exit was
// called (XSH pthread_exit).
#[tactic(auto, unfolding(pct_model::specs::ThreadEnds::ends_thread))]
fn ends_thread(is_last: bool, left: u32, value: u32) -> Transition
    ensures { result ≡ ends_thread is_last left value }
{
    if is_last {
        Transition {
            own: Some(OwnAction::EndLast),
            shared: Some(SharedAction::BeginExit(0)),
            ..acts(last_events(left, value))
        }
    } else {
        Transition {
            own: Some(OwnAction::EndThread(value)),
            ..acts(end_events(left, value))
        }
    }
}

// The events of the end of a thread.
fn end_events(left: u32, value: u32) -> UpToThree<What>
    ensures { result ≡ leftover left ++ EndedWith value ∷ [] }
{
    if left == 0 {
        UpToThree::one(What::EndedWith(value))
    } else {
        UpToThree::two(What::Leftover(left), What::EndedWith(value))
    }
}

// The same for the last thread of a process, which begins to exit it with 0.
fn last_events(left: u32, value: u32) -> UpToThree<What>
    ensures { result ≡ leftover left ++ EndedWith value ∷ ExitBegun 0 ∷ [] }
{
    let ended = What::EndedWith(value);
    if left == 0 {
        UpToThree::two(ended, What::ExitBegun(0))
    } else {
        UpToThree::three(What::Leftover(left), ended, What::ExitBegun(0))
    }
}

// The exit value of a thread, by the reason for its end.
fn end_value(reason: Reason) -> u32
    ensures { result ≡ end_value reason }
{
    match reason {
        Reason::None => 0,
        Reason::Exit(value) => value,
        Reason::Canceled => PTHREAD_CANCELED,
    }
}
