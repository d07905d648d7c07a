//! The transitions of pthread_key_create, pthread_key_delete, pthread_setspecific and pthread_getspecific. `next` is the program
//! counter of the next statement.

ghost use Rattle.std.specs.Prelude.{◌≡◌};
ghost use Rattle.pct_model.specs.KeyCalls.{creates_key, fails_to_create_key, creates_key_by, deletes_key, sets_specific, gets_specific};

use pct_ending_calls::transitions::{fails, goes_on, no_change};
use pct_model::{
    Alt, Caller, Dest, EAGAIN, NamedAction, OwnAction, SharedAction, Transition, UpToThree, What,
};

// ---- pthread_key_create

/// A call of pthread_key_create: the variables that get the result and the key, and the destructor.
#[derive(Clone, Copy)]
pub struct KeyCreateCall {
    pub answer: Dest,
    pub key: Dest,
    pub dtor: Option<u32>,
}

/// pthread_key_create, by the choice of the scheduler: with a number, a key is made with it; with `go`, no place is free and no key
/// is made.
#[inline(always)]
pub fn creates_key_by(call: &KeyCreateCall, next: u32, choice: Alt, transition: &mut Transition)
    ensures { let c = call.now in transition.new ≡ creates_key_by choice next c.answer c.key c.dtor }
{
    match choice {
        Alt::New(number) => *transition = creates_key(call, next, number),
        Alt::Go => *transition = fails_to_create_key(next, call.answer),
        _ => *transition = no_change(),
    }
}

// A key is made with a number: the result is 0.
#[tactic(auto, unfolding(pct_model::specs::KeyCalls::creates_key))]
#[inline(always)]
fn creates_key(call: &KeyCreateCall, next: u32, number: u32) -> Transition
    ensures { let c = call.now in result ≡ creates_key next c.answer c.key c.dtor number }
{
    Transition {
        writes: UpToThree::two((call.answer, 0), (call.key, number)),
        shared: Some(SharedAction::MakeKey(number, call.dtor)),
        ..goes_on(next, UpToThree::one(What::KeyMade(number)))
    }
}

// No place is free: the result is EAGAIN, and the key is not written.
#[tactic(auto, unfolding(pct_model::specs::KeyCalls::fails_to_create_key))]
fn fails_to_create_key(next: u32, answer: Dest) -> Transition
    ensures { result ≡ fails_to_create_key next answer }
{
    fails(next, answer, Caller::KeyCreate, EAGAIN)
}

// ---- pthread_key_delete, pthread_setspecific, pthread_getspecific

/// pthread_key_delete of the key with this number.
#[tactic(auto, unfolding(pct_model::specs::KeyCalls::deletes_key))]
pub fn deletes_key(next: u32, key: u32) -> Transition
    ensures { result ≡ deletes_key next key }
{
    Transition {
        shared: Some(SharedAction::DeleteKey(key)),
        named: Some(NamedAction::ForgetKey(key)),
        ..goes_on(next, UpToThree::one(What::KeyGone(key)))
    }
}

/// pthread_setspecific: the thread's value of the key with this number becomes `value`.
#[tactic(auto, unfolding(pct_model::specs::KeyCalls::sets_specific))]
pub fn sets_specific(next: u32, key: u32, value: u32) -> Transition
    ensures { result ≡ sets_specific next key value }
{
    Transition {
        own: Some(OwnAction::SetSpecific(key, value)),
        ..goes_on(next, UpToThree::none())
    }
}

/// pthread_getspecific, where the thread has this value of the key.
#[tactic(auto, unfolding(pct_model::specs::KeyCalls::gets_specific))]
pub fn gets_specific(next: u32, dest: Dest, value: u32) -> Transition
    ensures { result ≡ gets_specific next dest value }
{
    Transition {
        writes: UpToThree::one((dest, value)),
        ..goes_on(next, UpToThree::none())
    }
}
