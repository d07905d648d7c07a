//! The records of threads, each read with a count of its own.

ghost use Rattle.std.specs.Prelude.{◌≡◌, ◌<◌, true, is_some, Some};
ghost use Rattle.pct_model.specs.World.{Thread};
ghost use Rattle.pct_process.specs.ProcessViews.{thread_on_slot};
ghost use Rattle.pct_threads.specs.Tables.{is_occupied_at, thread_at};
ghost use Rattle.pct_step_context.specs.ThreadRecords.{IsRecord};

use pct_process::ProcessState;
use pct_threads::{Steps, Thread as ThreadRecord, Threads};
use pct_transitions::record_of;
use std::marker::Brand;
use std::sync::ledger::{Blank, Ledger};

/// The record of the thread on a slot of a process.
pub(crate) fn record_on(state: &ProcessState, slot: u32) -> &ThreadRecord
    requires { is_some (thread_on_slot state.now.slots slot) ≡ true }
    ensures { (t : Thread) → thread_on_slot state.now.slots slot ≡ Some t → IsRecord result.now t }
{
    record_counted::<Brand>(state, slot, Blank::new(1))
}

// The same, with a count on a new ledger.
fn record_counted<'a, L: Ledger>(
    state: &'a ProcessState,
    slot: u32,
    blank: Blank,
) -> &'a ThreadRecord
    requires held { is_some (thread_on_slot state.now.slots slot) ≡ true }
    requires name { blank.name ≡ L.name }
    requires parts { blank.parts ≡ L.parts }
    requires some { 0 < blank.parts }
    ensures { (t : Thread) → thread_on_slot state.now.slots slot ≡ Some t → IsRecord result.now t }
{
    record_of(state, slot, &mut Steps::<L>::new(blank))
}

/// The record of the thread on a slot of a table.
pub(crate) fn read_on(threads: &Threads, slot: u32) -> &ThreadRecord
    requires { is_occupied_at threads.now slot ≡ true }
    ensures { thread_at threads.now slot ≡ Some result.now }
{
    read_counted::<Brand>(threads, slot, Blank::new(1))
}

// The same, with a count on a new ledger.
fn read_counted<'a, L: Ledger>(threads: &'a Threads, slot: u32, blank: Blank) -> &'a ThreadRecord
    requires occupied { is_occupied_at threads.now slot ≡ true }
    requires name { blank.name ≡ L.name }
    requires parts { blank.parts ≡ L.parts }
    requires some { 0 < blank.parts }
    ensures { thread_at threads.now slot ≡ Some result.now }
{
    threads.read(slot, &mut Steps::<L>::new(blank))
}
