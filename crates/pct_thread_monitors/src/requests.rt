//! The law of requests, by what is kept of a thread.

ghost use Rattle.std.specs.Prelude.{◌≡◌, ℕ, List, false};
ghost use Rattle.std.specs.Option.{option_map_or};
ghost use Rattle.pct_model.specs.CancelCalls.{is_required, point_kind};
ghost use Rattle.pct_model.specs.declared.event.Event.{Event};
ghost use Rattle.pct_model.specs.declared.event.What.TheVariants as what;
ghost use Rattle.pct_laws.specs.NewestEvents.{reports_call};
ghost use Rattle.pct_laws.specs.RequestsLaw.{calls_sem_wait, has_own_return, is_sem_wait_point, is_to_end, may_act, may_return};
ghost use Rattle.pct_laws.specs.WaitStages.{wait_stage};
ghost use Rattle.pct_thread_monitors.specs.IsNote.{IsNote};

use crate::note::Note;
use pct_cancel::point_at;
use pct_laws::WaitStage;
use pct_model::{
    COND_TIMEDWAIT_POINT, COND_WAIT_POINT, Caller, JOIN_POINT, PointKind, SEM_TIMEDWAIT_POINT,
    SEM_WAIT_POINT, TESTCANCEL_POINT, WAITPID_POINT, What,
};

/// Whether the law of requests allows an event of a thread; `stage` is how far its newest condition wait is.
pub(crate) fn may_act(what: What, note: &Note, stage: WaitStage) -> bool
    ensures { (pid tid : ℕ) (events : List Event) → IsNote note.now pid tid events → stage ≡ wait_stage pid tid events
        → result ≡ may_act what pid tid events }
{
    match what {
        What::EndingCanceled => note.has_to_act(),
        What::WaitCanceled(_) => note.has_to_act()
            && matches!(stage, WaitStage::InWait { .. } | WaitStage::Expired { .. }),
        What::EndingInWait(cond, mutex) => note.has_to_act() && is_to_end(cond, mutex, stage),
        What::Called(_) => !note.has_to_act(),
        What::Done(index) => may_return(index, note, stage),
        What::Taken(_) => calls_sem_wait(note.newest),
        What::Answer { call, .. } => may_answer(call, note, stage),
        What::WaitExpired(_) => matches!(stage, WaitStage::InWait { timed: true, .. }),
        What::Reaped(_, _) => is_call(WAITPID_POINT, note.newest),
        What::StateSet(true) => note.has_not_begun(),
        _ => true,
    }
}

// Whether the law allows that a call of the thread fails.
fn may_answer(call: Caller, note: &Note, stage: WaitStage) -> bool
    ensures { (number pid tid : ℕ) (events : List Event) → IsNote note.now pid tid events → stage ≡ wait_stage pid tid events
        → result ≡ may_act (what.Answer call number) pid tid events }
{
    match call {
        Caller::SemTimedWait => is_call(SEM_TIMEDWAIT_POINT, note.newest),
        Caller::CondTimedWait => matches!(stage, WaitStage::ToTimeOut),
        Caller::WaitPid => !note.has_to_act() || is_call(WAITPID_POINT, note.newest),
        _ => true,
    }
}

// Whether the law allows that the thread returns from a cancellation point.
fn may_return(index: u32, note: &Note, stage: WaitStage) -> bool
    ensures { (pid tid : ℕ) (events : List Event) → IsNote note.now pid tid events → stage ≡ wait_stage pid tid events
        → result ≡ may_return index pid tid events }
{
    if has_own_return(index) {
        false
    } else if index == TESTCANCEL_POINT {
        !note.has_to_act()
    } else if index == COND_WAIT_POINT || index == COND_TIMEDWAIT_POINT {
        matches!(stage, WaitStage::ToReturn { .. })
    } else {
        !is_required(index) || is_call(index, note.newest)
    }
}

// Whether the return from the cancellation point is an event of its own.
fn has_own_return(index: u32) -> bool
    ensures { result ≡ has_own_return index }
{
    index == JOIN_POINT || is_sem_wait_point(index) || index == WAITPID_POINT
}

fn is_sem_wait_point(index: u32) -> bool
    ensures { result ≡ is_sem_wait_point index }
{
    index == SEM_WAIT_POINT || index == SEM_TIMEDWAIT_POINT
}

// Whether the function with this index shall be a cancellation point.
#[tactic(auto, unfolding(pct_model::specs::CancelCalls::point_kind))]
fn is_required(index: u32) -> bool
    ensures { result ≡ is_required (point_kind index) }
{
    match point_at(index) {
        Some(point) => matches!(point.kind, PointKind::Required),
        None => false,
    }
}

// Whether the newest event is a call of the cancellation point with an index.
fn is_call(index: u32, newest: Option<What>) -> bool
    ensures { result ≡ option_map_or (reports_call index) newest false }
{
    match newest {
        Some(What::Called(point)) => point == index,
        _ => false,
    }
}

fn calls_sem_wait(newest: Option<What>) -> bool
    ensures { result ≡ option_map_or calls_sem_wait newest false }
{
    match newest {
        Some(What::Called(point)) => is_sem_wait_point(point),
        _ => false,
    }
}

fn is_to_end(c: u32, m: u32, stage: WaitStage) -> bool
    ensures { result ≡ is_to_end c m stage }
{
    match stage {
        WaitStage::ToEnd { cond, mutex } => cond == c && mutex == m,
        _ => false,
    }
}
