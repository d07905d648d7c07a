//! The states of once controls, and the transitions of pthread_once (XSH pthread_once). `next` is the program counter of the next
//! statement.

ghost use Rattle.std.specs.Prelude.{◌≡◌};
ghost use Rattle.pct_model.specs.OnceCalls.{once_at, is_fresh, is_busy, calls_once, leaves_routine};

use pct_ending_calls::transitions::{acts, goes_on, no_change};
use pct_model::{
    FrameKind, OnceState, OwnAction, SharedAction, Status, Transition, UpToThree, What,
};

/// The state of the once control with this index, by the states of all.
pub fn once_at(onces: &[OnceState], once: u32) -> OnceState
    ensures { result ≡ once_at onces.now once }
{
    onces
        .get(once as usize)
        .copied()
        .unwrap_or(OnceState::Fresh)
}

/// Whether the init routine of a control in this state is called by the next call of pthread_once.
pub fn is_fresh(state: OnceState) -> bool
    ensures { result ≡ is_fresh state }
{
    matches!(state, OnceState::Fresh)
}

/// Whether a thread called the init routine of a control in this state, and the routine has not returned.
pub fn is_busy(state: OnceState) -> bool
    ensures { result ≡ is_busy state }
{
    matches!(state, OnceState::Busy(_))
}

/// A call of pthread_once.
#[derive(Clone, Copy)]
pub struct OnceCall {
    /// The index of the control.
    pub once: u32,
    /// The init routine.
    pub func: u32,
    /// The id of the caller.
    pub id: u32,
}

/// pthread_once on a control in this state: the init routine is called if the control is fresh.
#[tactic(auto, unfolding(pct_model::specs::OnceCalls::calls_once))]
#[inline(never)]
pub fn calls_once(call: OnceCall, next: u32, state: OnceState, transition: &mut Transition)
    ensures { transition.new ≡ calls_once next call.once call.func call.id state }
{
    *transition = match state {
        OnceState::Fresh => Transition {
            own: Some(OwnAction::Call {
                func: call.func,
                arg: 0,
                kind: FrameKind::OnceFn(call.once),
            }),
            shared: Some(SharedAction::SetOnce(call.once, OnceState::Busy(call.id))),
            ..goes_on(next, UpToThree::one(What::OnceCalled(call.once)))
        },
        OnceState::Busy(_) => no_change(),
        OnceState::Done => goes_on(next, UpToThree::none()),
    };
}

/// The init routine of the control with this index returns.
#[tactic(auto, unfolding(pct_model::specs::OnceCalls::leaves_routine))]
pub fn leaves_routine(once: u32) -> Transition
    ensures { result ≡ leaves_routine once }
{
    Transition {
        own: Some(OwnAction::Leave(Status::Running)),
        shared: Some(SharedAction::SetOnce(once, OnceState::Done)),
        ..acts(UpToThree::one(What::OnceDone(once)))
    }
}
