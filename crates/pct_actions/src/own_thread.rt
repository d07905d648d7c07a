//! What a transition changes for the thread that makes it, and in the globals.

ghost use Rattle.std.specs.Prelude.{◌≡◌, ◌+◌, ◌<◌, ℕ, Some, length, option_map};
ghost use Rattle.std.specs.Option.{option_to_list};
ghost use Rattle.pct_model.specs.Actions.{globals_written, onces_after, written};
ghost use Rattle.pct_process.specs.ProcessViews.{thread_on_slot};
ghost use Rattle.pct_actions.specs.OwnChanges.{own_rows};
ghost use Rattle.pct_actions.specs.ProcessChanges.{KeyFits};
ghost use Rattle.pct_actions.specs.ProcessParts.{own_made, OwnFits};

use crate::own_actions::move_own;
use crate::stand::put_stand;
use pct_keys::{Keys, key_place};
use pct_model::{Dest, OwnAction, Transition, UpToThree};
use pct_process::{Numbers, OnceControls, ProcessState};
use pct_threads::Steps;
use std::sync::ledger::Ledger;

/// Makes the changes of a transition in the thread on a slot, which makes it, in the globals, and in the once controls.
pub(crate) fn make_own<L: Ledger>(
    process: &mut ProcessState,
    slot: u32,
    transition: &Transition,
    steps: &mut Steps<L>,
)
    requires { OwnFits slot transition.now process.old }
    ensures made { (tid : ℕ) → option_map (λ t. t.id) (thread_on_slot process.old.slots slot) ≡ Some tid → process.new ≡ own_made tid slot transition.now process.old }
    ensures count { steps.new ≡ steps.old + 1 }
{
    // A process has at most 64 slots.
    let _count = process.slot_count();
    let tid = process.id_on(slot);
    change_onces(&mut process.onces, tid, transition.own);
    let stand = move_own(&mut process.threads, slot, transition, steps);
    put_stand(&mut process.standings, slot, stand);
    change_data(&mut process.keys, slot, transition.own);
    write_globals(&mut process.globals, &transition.writes);
}

// Makes the change of the thread's action, if it has one, in its thread-specific data.
#[tactic(auto, unfolding(crate::specs::OwnChanges::own_rows), using(crate::proofs::OwnThread::key_here))]
fn change_data(keys: &mut Keys, slot: u32, action: Option<OwnAction>)
    requires row { slot < length keys.old.rows }
    requires fits { KeyFits action keys.old.places }
    ensures table { keys.new ≡ record keys.old { rows = own_rows slot action keys.old.rows } }
    ensures length { length keys.new.rows ≡ length keys.old.rows }
{
    match action {
        Some(OwnAction::SetSpecific(key, value)) => keys.set(slot, key_place(key), value),
        Some(OwnAction::BeginPass) => keys.begin_pass(slot),
        Some(OwnAction::RunDestructor { key, .. }) => keys.take_out(slot, key_place(key)),
        _ => {}
    }
}

// Makes the change of the action of the thread with this id, if it has one, in the once controls.
#[tactic(auto, unfolding(pct_model::specs::Actions::onces_after))]
fn change_onces(onces: &mut OnceControls, tid: u32, action: Option<OwnAction>)
    ensures { onces.new ≡ onces_after tid action onces.old }
{
    if let Some(OwnAction::BeginEnd(_)) = action {
        onces.abandon(tid);
    }
}

// Writes these values, in order, to their destinations that are globals.
fn write_globals(globals: &mut Numbers, writes: &UpToThree<(Dest, u32)>)
    ensures { globals.new ≡ written globals_written writes.now globals.old }
{
    for write in writes.as_slice() {
        write_global(globals, *write);
    }
}

// Writes a value to its destination, if it is a global.
fn write_global(globals: &mut Numbers, write: (Dest, u32))
    ensures { globals.new ≡ globals_written write.0 write.1 globals.old }
{
    if let (Dest::Global(i), value) = write {
        globals.set(i, value);
    }
}
