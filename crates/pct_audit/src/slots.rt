//! The law of thread slots.

ghost use Rattle.std.specs.Prelude.{◌≡◌, ℕ, ◌<◌, ◌&&◌, false, OnOk, if◌then◌else◌, nat_eq};
ghost use Rattle.std.specs.Option.{option_map_or};
ghost use Rattle.pct_laws.specs.KnownThreads.{makes_process, reports_end};
ghost use Rattle.pct_model.specs.ThreadSlots.{slot_of};
ghost use Rattle.pct_holders.specs.Holds.{holds};
ghost use Rattle.pct_audit.specs.IsRow.{names};
ghost use Rattle.pct_audit.specs.JoinTests.{is_live};
ghost use Rattle.pct_audit.specs.Rows.{row_of};

use crate::changes::child_of;
use crate::rows::Rows;
use pct_holders::Holders;
use pct_io::NoMemory;
use pct_model::{Event, What};

/// The slot of a thread.
pub fn slot_of(slots: u32, tid: u32) -> u32
    requires { 0 < slots }
    ensures slot { result ≡ slot_of slots tid }
    ensures below { result < slots }
{
    tid.saturating_sub(1) % slots
}

// The thread that an event names.
fn named_by(what: What) -> Option<u32>
    ensures { (t : ℕ) → names t what ≡ option_map_or (λ id. nat_eq id t) result false }
{
    match what {
        What::Created { id, .. } => Some(id),
        What::Detached(id) => Some(id),
        What::Joined(id, _) => Some(id),
        _ => None,
    }
}

// Records whether a thread holds its slot, by its row.
fn refresh(
    holders: &mut Holders,
    rows: &Rows,
    slots: u32,
    pid: u32,
    tid: u32,
) -> Result<(), NoMemory>
    requires { 0 < slots }
    ensures { OnOk result ((p s t : ℕ) → holds holders.new p s t ≡ (if (nat_eq pid p && nat_eq tid t) && nat_eq (slot_of slots t) s then is_live (row_of rows.now p t) else holds holders.old p s t)) }
{
    let is_holder = rows.at(pid, tid).is_live();
    holders.set(pid, slot_of(slots, tid), tid, is_holder)
}

/// Records it of the thread of an event, if that is its end: its other events change nothing of it.
pub fn refresh_own(
    holders: &mut Holders,
    rows: &Rows,
    slots: u32,
    event: Event,
) -> Result<(), NoMemory>
    requires { 0 < slots }
    ensures { OnOk result ((p s t : ℕ) → holds holders.new p s t ≡ (if ((nat_eq event.pid p && nat_eq event.tid t) && reports_end event.what) && nat_eq (slot_of slots t) s then is_live (row_of rows.now p t) else holds holders.old p s t)) }
{
    match event.what {
        What::EndedWith(_) => refresh(holders, rows, slots, event.pid, event.tid),
        _ => Ok(()),
    }
}

/// Records it of the thread that an event names.
pub fn refresh_named(
    holders: &mut Holders,
    rows: &Rows,
    slots: u32,
    pid: u32,
    what: What,
) -> Result<(), NoMemory>
    requires { 0 < slots }
    ensures { OnOk result ((p s t : ℕ) → holds holders.new p s t ≡ (if (nat_eq pid p && names t what) && nat_eq (slot_of slots t) s then is_live (row_of rows.now p t) else holds holders.old p s t)) }
{
    match named_by(what) {
        Some(id) => refresh(holders, rows, slots, pid, id),
        None => Ok(()),
    }
}

/// Records it of the replica that an event makes.
pub fn refresh_replica(
    holders: &mut Holders,
    rows: &Rows,
    slots: u32,
    tid: u32,
    what: What,
) -> Result<(), NoMemory>
    requires { 0 < slots }
    ensures { OnOk result ((p s t : ℕ) → holds holders.new p s t ≡ (if (nat_eq tid t && makes_process p what) && nat_eq (slot_of slots t) s then is_live (row_of rows.now p t) else holds holders.old p s t)) }
{
    match child_of(what) {
        Some(child) => refresh(holders, rows, slots, child, tid),
        None => Ok(()),
    }
}
