//! What a transition changes in the thread that makes it, in the table of threads.

ghost use Rattle.std.specs.Prelude.{◌≡◌, ◌+◌, length, IfNone, IfSome, Some, true};
ghost use Rattle.pct_model.specs.declared.state.Status.TheVariants as status;
ghost use Rattle.pct_threads.specs.Slots.{Held, after_change, unless_reclaimed};
ghost use Rattle.pct_threads.specs.Tables.{held_at, is_occupied_at, on_slot};
ghost use Rattle.pct_engine_laws.specs.Fitting.{Fits};
ghost use Rattle.pct_actions.specs.OwnChanges.{on_record, own_moved, record_moved};
ghost use Rattle.pct_actions.specs.Stands.{stand_at, stand_by, TellsStand};

use crate::own_frames::move_frames;
use crate::own_record::change_record;
use crate::stand::Stand;
use pct_model::{Status, Transition};
use pct_process::Standing;
use pct_threads::{Steps, Thread, Threads};
use std::sync::ledger::Ledger;

/// Makes the changes of a transition in the thread on a slot, which makes it. The thread gives back its slot if it has ended and is
/// detached. Returns how the slot stands afterwards, or `None` if it stands as before.
pub(crate) fn move_own<L: Ledger>(
    threads: &mut Threads,
    slot: u32,
    transition: &Transition,
    steps: &mut Steps<L>,
) -> Option<Stand>
    requires occupied { is_occupied_at threads.old slot ≡ true }
    requires fits { (held : Held) → held_at threads.old slot ≡ Some held → Fits (length held.frames) (length held.thread.handlers) held.thread.pass transition.now.own }
    ensures table { threads.new ≡ own_moved slot transition.now threads.old }
    ensures stand { TellsStand result (stand_at threads.old slot) (stand_at threads.new slot) }
    ensures count { steps.new ≡ steps.old + 1 }
{
    move_frames(threads, slot, transition);
    match move_record(threads, slot, transition, steps) {
        None => None,
        Some(stand) => Some(settle(threads, slot, stand)),
    }
}

// The thread gives its slot back if it has ended and is detached. This is how the slot stands before, and the result how it does then.
fn settle(threads: &mut Threads, slot: u32, stand: Stand) -> Stand
    requires occupied { is_occupied_at threads.old slot ≡ true }
    requires stand { stand ≡ stand_at threads.old slot }
    ensures table { threads.new ≡ on_slot slot (after_change unless_reclaimed) threads.old }
    ensures stand { result ≡ stand_at threads.new slot }
{
    if let Standing::Ended(_) = stand.standing {
        threads.settle(slot);
        if !threads.is_occupied(slot) {
            return Stand::free();
        }
    }
    stand
}

// Makes the changes of a transition in the record of the thread. Returns how the slot then stands, or `None` if it stands as before and
// the thread runs.
fn move_record<L: Ledger>(
    threads: &mut Threads,
    slot: u32,
    transition: &Transition,
    steps: &mut Steps<L>,
) -> Option<Stand>
    requires occupied { is_occupied_at threads.old slot ≡ true }
    requires fits { (held : Held) → held_at threads.old slot ≡ Some held → Fits 0 (length held.thread.handlers) held.thread.pass transition.now.own }
    ensures table { threads.new ≡ on_record slot (record_moved transition.now) threads.old }
    ensures stand { TellsStand result (stand_at threads.old slot) (stand_at threads.new slot) }
    ensures count { steps.new ≡ steps.old + 1 }
{
    let thread = threads.write(slot, steps);
    let ran = is_running(thread);
    change_record(thread, transition);
    stand_after(thread, ran)
}

// How a thread stands, or `None` if it runs, as it did before if `ran`.
fn stand_after(thread: &Thread, ran: bool) -> Option<Stand>
    ensures none { IfNone result ((ran ≡ true) × (thread.now.status ≡ status.Running)) }
    ensures some { IfSome result (λ stand. stand ≡ stand_by thread.now) }
{
    if ran && is_running(thread) {
        None
    } else {
        Some(Stand::of(thread))
    }
}

// Whether a thread runs.
fn is_running(thread: &Thread) -> bool
    ensures { result ≡ true → thread.now.status ≡ status.Running }
{
    matches!(thread.status, Status::Running)
}
