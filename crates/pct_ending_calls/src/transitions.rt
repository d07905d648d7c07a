//! Parts of transitions.

ghost use Rattle.std.specs.Prelude.{◌≡◌, [], ◌∷◌, Some};
ghost use Rattle.pct_model.specs.declared.event.What.TheVariants as what;
ghost use Rattle.pct_model.specs.declared.transition.OwnAction.TheVariants as own_action;
ghost use Rattle.pct_model.specs.Transitions.{goes_on, acts, no_change, stops};

use pct_model::{Caller, Dest, OwnAction, Status, Transition, UpToThree, What, Why};

/// A transition with these events, and nothing else.
pub fn acts(events: UpToThree<What>) -> Transition
    ensures { result ≡ acts events }
{
    Transition {
        next: None,
        writes: UpToThree::none(),
        own: None,
        created: None,
        shared: None,
        named: None,
        process: None,
        stop: None,
        events,
    }
}

/// The thread goes on at a program counter, with these events.
pub fn goes_on(next: u32, events: UpToThree<What>) -> Transition
    ensures { result ≡ goes_on next events }
{
    Transition {
        next: Some(next),
        ..acts(events)
    }
}

/// The thread goes on at a program counter after a call that fails: the result is this number.
pub fn fails(next: u32, answer: Dest, call: Caller, number: u32) -> Transition
    ensures { result ≡ record (goes_on next (what.Answer call number ∷ [])) { writes = (answer, number) ∷ [] } }
{
    Transition {
        writes: UpToThree::one((answer, number)),
        ..goes_on(next, UpToThree::one(What::Answer { call, number }))
    }
}

/// The thread leaves its top frame, and gets a status.
pub fn leaves(status: Status) -> Transition
    ensures { result ≡ record (acts []) { own = Some (own_action.Leave status) } }
{
    Transition {
        own: Some(OwnAction::Leave(status)),
        ..acts(UpToThree::none())
    }
}

/// A transition that changes nothing, for states that no run reaches.
pub fn no_change() -> Transition
    ensures { result ≡ no_change }
{
    acts(UpToThree::none())
}

/// A stop: nothing else changes.
pub fn stops(why: Why) -> Transition
    ensures { result ≡ stops why }
{
    Transition {
        stop: Some(why),
        ..acts(UpToThree::one(What::Stopped(why)))
    }
}
