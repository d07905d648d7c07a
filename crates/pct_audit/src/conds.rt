//! The law of mutexes and condition waits.

ghost use Rattle.std.specs.Prelude.{◌≡◌, ℕ, ◌<◌, ◌^◌, if◌then◌else◌, OnOk, nat_eq};
ghost use Rattle.pct_laws.specs.CondLaw.{has_just_left, may_hand_on};
ghost use Rattle.pct_laws.specs.KnownThreads.{makes_process};
ghost use Rattle.pct_laws.specs.MutexOwners.{owner_after};
ghost use Rattle.pct_laws.specs.WaitStages.{may_follow_stage, acquires, cancels_wait, cancels_wait_on, expires_wait, hands_on_signal, returns_from_wait, returns_timed_out, ends_in_wait, wait_point};
ghost use Rattle.pct_process_maps.specs.Values.{value_in};
ghost use Rattle.pct_audit.specs.CondTests.{listed};

use crate::changes::child_of;
use pct_io::NoMemory;
use pct_laws::WaitStage;
use pct_model::{COND_TIMEDWAIT_POINT, COND_WAIT_POINT, Caller, ETIMEDOUT, Event, What};
use pct_process_maps::ProcessMaps;

/// A fork gives the new process the owners of its parent.
pub fn fork_owners(owners: &mut ProcessMaps, pid: u32, what: What) -> Result<(), NoMemory>
    ensures { OnOk result ((q k : ℕ) → value_in owners.new q k ≡ (if makes_process q what then value_in owners.old pid k else value_in owners.old q k)) }
{
    match child_of(what) {
        Some(child) => owners.copy(pid, child),
        None => Ok(()),
    }
}

/// An event of a thread changes the owners of its process.
pub fn change_owners(
    owners: &mut ProcessMaps,
    pid: u32,
    tid: u32,
    what: What,
) -> Result<(), NoMemory>
    ensures { OnOk result ((q k : ℕ) → k < 2 ^ 32 → value_in owners.new q k ≡ (if nat_eq pid q then owner_after k tid what (value_in owners.old q k) else value_in owners.old q k)) }
{
    match what {
        What::Acquired(m) => owners.set(pid, m, tid),
        What::Released(m) => owners.set(pid, m, 0),
        _ => Ok(()),
    }
}

/// Whether an event may come next at a stage of a condition wait of its thread.
pub fn may_follow(stage: WaitStage, what: What) -> bool
    ensures { result ≡ may_follow_stage stage what }
{
    match stage {
        WaitStage::NoWait => true,
        WaitStage::AtCall { .. } => true,
        WaitStage::InWait { timed, mutex } => acquires(mutex, what)
            || cancels_wait(what)
            || (timed && expires_wait(what)),
        WaitStage::ToReturn { timed } => returns_from_wait(timed, what),
        WaitStage::Expired { cond, mutex } => acquires(mutex, what) || cancels_wait_on(cond, what),
        WaitStage::ToTimeOut => returns_timed_out(what),
        WaitStage::Leaving { cond, mutex, .. } => acquires(mutex, what)
            || hands_on_signal(cond, what),
        WaitStage::Left { mutex, .. } => acquires(mutex, what),
        WaitStage::ToEnd { cond, mutex } => ends_in_wait(cond, mutex, what),
    }
}

fn acquires(m: u32, what: What) -> bool
    ensures { result ≡ acquires m what }
{
    match what {
        What::Acquired(mutex) => mutex == m,
        _ => false,
    }
}

fn cancels_wait(what: What) -> bool
    ensures { result ≡ cancels_wait what }
{
    match what {
        What::WaitCanceled(_) => true,
        _ => false,
    }
}

fn cancels_wait_on(c: u32, what: What) -> bool
    ensures { result ≡ cancels_wait_on c what }
{
    match what {
        What::WaitCanceled(cond) => cond == c,
        _ => false,
    }
}

fn expires_wait(what: What) -> bool
    ensures { result ≡ expires_wait what }
{
    match what {
        What::WaitExpired(_) => true,
        _ => false,
    }
}

fn hands_on_signal(c: u32, what: What) -> bool
    ensures { result ≡ hands_on_signal c what }
{
    match what {
        What::HandedOn(cond, _) => cond == c,
        _ => false,
    }
}

// The cancellation point of pthread_cond_wait or, with the flag, of pthread_cond_timedwait.
fn wait_point(timed: bool) -> u32
    ensures { result ≡ wait_point timed }
{
    if timed {
        COND_TIMEDWAIT_POINT
    } else {
        COND_WAIT_POINT
    }
}

fn returns_from_wait(timed: bool, what: What) -> bool
    ensures { result ≡ returns_from_wait timed what }
{
    match what {
        What::Done(index) => index == wait_point(timed),
        _ => false,
    }
}

fn returns_timed_out(what: What) -> bool
    ensures { result ≡ returns_timed_out what }
{
    match what {
        What::Answer {
            call: Caller::CondTimedWait,
            number,
        } => number == ETIMEDOUT,
        _ => false,
    }
}

fn ends_in_wait(c: u32, m: u32, what: What) -> bool
    ensures { result ≡ ends_in_wait c m what }
{
    match what {
        What::EndingInWait(cond, mutex) => cond == c && mutex == m,
        _ => false,
    }
}

fn has_just_left(last: Option<Event>, pid: u32, tid: u32, c: u32) -> bool
    ensures { result ≡ has_just_left pid tid c (listed last) }
{
    match last {
        Some(event) => event.pid == pid && event.tid == tid && cancels_wait_on(c, event.what),
        None => false,
    }
}

/// Whether an event may come directly after the last one, if it hands a signal on.
pub fn may_hand_on(last: Option<Event>, event: Event) -> bool
    ensures { result ≡ may_hand_on event.what event.pid event.tid (listed last) }
{
    match event.what {
        What::HandedOn(c, _) => has_just_left(last, event.pid, event.tid, c),
        _ => true,
    }
}
