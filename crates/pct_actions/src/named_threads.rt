//! What a transition changes in the threads that it names.

ghost use Rattle.std.specs.Prelude.{◌≡◌, ◌+◌, ◌≤◌, IfSome, length, map, true};
ghost use Rattle.pct_model.specs.declared.state.Cause.TheVariants as cause;
ghost use Rattle.pct_model.specs.CondCalls.{unblocked};
ghost use Rattle.pct_threads.specs.Slots.{after_detach, after_change, with_change, freed};
ghost use Rattle.pct_threads.specs.Tables.{slot_named, is_occupied_at, is_reclaimable_at, on_held};
ghost use Rattle.pct_process.specs.Standings.{AreStandings, StandingsValue};
ghost use Rattle.pct_actions.specs.SharedChanges.{named_on, on_named, requested, woken_by, woken_from, records_of, waiting_slots, NameFits};
ghost use Rattle.pct_actions.specs.Stands.{stand_at};

use crate::stand::Stand;
use pct_model::{Cause, NamedAction, Status};
use pct_process::{Standing, Standings};
use pct_threads::{Steps, Threads};
use std::sync::ledger::Ledger;

/// Makes the change of an action, if there is one, in the threads that it names. Whom a thread joins is known by its status, and the
/// values of a key are deleted with it.
#[tactic(auto, unfolding(crate::specs::SharedChanges::named_on))]
pub(crate) fn act_on_named<L: Ledger>(
    threads: &mut Threads,
    standings: &mut Standings,
    action: Option<NamedAction>,
    steps: &mut Steps<L>,
)
    requires fits { NameFits action threads.old }
    requires standings { AreStandings standings.old threads.old }
    ensures table { threads.new ≡ named_on action threads.old }
    ensures length { length threads.new ≡ length threads.old }
    ensures standings { AreStandings standings.new threads.new }
    ensures count { steps.new ≤ steps.old + records_of action threads.old }
{
    match action {
        None | Some(NamedAction::ForgetKey(_)) => {}
        Some(NamedAction::EndJoin(id)) => end_join(threads, standings, id),
        Some(NamedAction::Request(id)) => request(threads, id, steps),
        Some(NamedAction::Detach(id)) => detach(threads, standings, id),
        Some(NamedAction::Wake(id)) => wake(threads, standings, id, steps),
        Some(NamedAction::WakeAll(cond)) => wake_all(threads, standings, cond, steps),
    }
}

// The thread with an id was joined, and gives back its slot.
fn end_join(threads: &mut Threads, standings: &mut Standings, id: u32)
    requires fits { IfSome (slot_named id threads.old) (λ target. is_reclaimable_at threads.old target ≡ true) }
    requires standings { AreStandings standings.old threads.old }
    ensures table { threads.new ≡ on_named id freed threads.old }
    ensures length { length threads.new ≡ length threads.old }
    ensures standings { AreStandings standings.new threads.new }
{
    // A table has at most 64 slots.
    let _count = threads.slot_count();
    if let Some(target) = threads.slot_named(id) {
        threads.reclaim(target);
        standings.put(target, Standing::Other, false);
    }
}

// A request for the thread with an id is pending, unless that thread has ended.
fn request<L: Ledger>(threads: &mut Threads, id: u32, steps: &mut Steps<L>)
    ensures table { threads.new ≡ on_named id (with_change requested) threads.old }
    ensures length { length threads.new ≡ length threads.old }
    ensures standings { (v : StandingsValue) → AreStandings v threads.old → AreStandings v threads.new }
    ensures count { steps.new ≤ steps.old + 1 }
{
    if let Some(target) = threads.slot_named(id) {
        request_on(threads, target, steps);
    }
}

// The thread with an id becomes detached.
fn detach(threads: &mut Threads, standings: &mut Standings, id: u32)
    requires { AreStandings standings.old threads.old }
    ensures table { threads.new ≡ on_named id (after_change after_detach) threads.old }
    ensures length { length threads.new ≡ length threads.old }
    ensures standings { AreStandings standings.new threads.new }
{
    // A table has at most 64 slots.
    let _count = threads.slot_count();
    if let Some(target) = threads.slot_named(id) {
        threads.detach(target);
        if !threads.is_occupied(target) {
            standings.put(target, Standing::Other, false);
        }
    }
}

// The thread with an id is unblocked by a signal, if it waits on a condition variable.
fn wake<L: Ledger>(threads: &mut Threads, standings: &mut Standings, id: u32, steps: &mut Steps<L>)
    requires { AreStandings standings.old threads.old }
    ensures table { threads.new ≡ on_named id (with_change (woken_by cause.Signalled)) threads.old }
    ensures length { length threads.new ≡ length threads.old }
    ensures standings { AreStandings standings.new threads.new }
    ensures count { steps.new ≤ steps.old + 1 }
{
    // A table has at most 64 slots.
    let _count = threads.slot_count();
    if let Some(target) = threads.slot_named(id) {
        let stand = wake_on(threads, target, Cause::Signalled, steps);
        standings.put(target, stand.standing, stand.unfinished);
    }
}

// Each thread that waits on a condition variable is unblocked by a broadcast.
fn wake_all<L: Ledger>(
    threads: &mut Threads,
    standings: &mut Standings,
    cond: u32,
    steps: &mut Steps<L>,
)
    requires { AreStandings standings.old threads.old }
    ensures table { threads.new ≡ map (with_change (woken_from cond)) threads.old }
    ensures length { length threads.new ≡ length threads.old }
    ensures standings { AreStandings standings.new threads.new }
    ensures count { steps.new ≤ steps.old + length (waiting_slots cond threads.old) }
{
    // A table has at most 64 slots.
    let _count = threads.slot_count();
    let mut rest = standings.waiters(cond);
    while let Some(slot) = rest.nth(0) {
        let stand = wake_on(threads, slot, Cause::Broadcast, steps);
        standings.put(slot, stand.standing, stand.unfinished);
        rest.remove(slot);
    }
}

// A request for the thread on a slot is pending, unless that thread has ended.
fn request_on<L: Ledger>(threads: &mut Threads, slot: u32, steps: &mut Steps<L>)
    requires { is_occupied_at threads.old slot ≡ true }
    ensures table { threads.new ≡ on_held slot requested threads.old }
    ensures length { length threads.new ≡ length threads.old }
    ensures count { steps.new ≡ steps.old + 1 }
{
    let thread = threads.write(slot, steps);
    if !thread.ended {
        thread.cancel.request();
    }
}

// The thread on a slot is unblocked, if it waits on a condition variable. Returns how the slot stands afterwards.
fn wake_on<L: Ledger>(threads: &mut Threads, slot: u32, why: Cause, steps: &mut Steps<L>) -> Stand
    requires { is_occupied_at threads.old slot ≡ true }
    ensures table { threads.new ≡ on_held slot (woken_by why) threads.old }
    ensures length { length threads.new ≡ length threads.old }
    ensures stand { result ≡ stand_at threads.new slot }
    ensures count { steps.new ≡ steps.old + 1 }
{
    let thread = threads.write(slot, steps);
    thread.status = unblocked(why, thread.status);
    Stand::of(thread)
}

// The status of a thread, after it was unblocked if it waited.
fn unblocked(why: Cause, status: Status) -> Status
    ensures { result ≡ unblocked why status }
{
    match status {
        Status::Waiting(cond, mutex) => Status::Reacquire(cond, mutex, why),
        _ => status,
    }
}
