//! The transitions of pthread_cleanup_push and pthread_cleanup_pop. `next` is the program counter of the next statement.

ghost use Rattle.std.specs.Prelude.{◌≡◌, ℕ, ◌∷◌, List, slice_get};
ghost use Rattle.pct_model.specs.CleanupHandlers.{pushes, pops};

use crate::transitions::{goes_on, no_change};
use pct_model::{OwnAction, Transition, UpToThree, What};

/// pthread_cleanup_push: a function and its argument become the newest handler.
#[tactic(auto, unfolding(pct_model::specs::CleanupHandlers::pushes))]
pub fn pushes(next: u32, func: u32, arg: u32) -> Transition
    ensures { result ≡ pushes next func arg }
{
    Transition {
        own: Some(OwnAction::PushHandler(func, arg)),
        ..goes_on(next, UpToThree::one(What::Pushed(func, arg)))
    }
}

/// pthread_cleanup_pop with a value, in a thread whose newest handler is this one: it is removed, and called if the value is
/// not 0. Without a handler nothing changes.
#[tactic(auto, unfolding(pct_model::specs::CleanupHandlers::pops))]
#[inline(never)]
pub fn pops(next: u32, value: u32, newest: Option<(u32, u32)>, transition: &mut Transition)
    ensures { (handlers : List (ℕ × ℕ)) → newest ≡ slice_get handlers 0 → transition.new ≡ pops next value handlers }
{
    match newest {
        None => *transition = no_change(),
        Some((func, arg)) => *transition = pops_newest(next, value, func, arg),
    }
}

// The newest handler is removed, and called if the value is not 0.
#[tactic(auto, unfolding(pct_model::specs::CleanupHandlers::pops))]
fn pops_newest(next: u32, value: u32, func: u32, arg: u32) -> Transition
    ensures { (below : List (ℕ × ℕ)) → result ≡ pops next value ((func, arg) ∷ below) }
{
    let popped = What::Popped {
        f: func,
        a: arg,
        run: value != 0,
    };
    if value == 0 {
        Transition {
            own: Some(OwnAction::PopHandler),
            ..goes_on(next, UpToThree::one(popped))
        }
    } else {
        Transition {
            own: Some(OwnAction::CallHandler(func, arg)),
            ..goes_on(next, UpToThree::one(popped))
        }
    }
}
