//! The audit of events.

ghost use Rattle.std.specs.Prelude.{◌≡◌, ◌<◌, ◌^◌, IfOk, List, None, length};
ghost use Rattle.pct_model.specs.declared.event.Event.{Event as AnEvent};
ghost use Rattle.pct_audit.specs.AuditOf.{IsAuditOf, first_broken_by};
ghost use Rattle.pct_audit.specs.Tells.{Tells, slot_count};

use crate::judge::Judge;
use crate::law::{AuditFault, Law};
use pct_io::NoMemory;
use pct_model::Event;
use std::alloc::Global;

// The first law, in the order of the laws, that an event breaks.
fn broken_by(judge: &Judge, passes: u32, event: Event) -> Option<Law>
    requires told { (events : List AnEvent) × Tells judge.now events }
    ensures { (events : List AnEvent) → Tells judge.now events → result ≡ first_broken_by passes (slot_count judge.now) event events }
{
    if !judge.allows_once(passes, event) {
        Some(Law::Once)
    } else if !judge.allows_slot(event) {
        Some(Law::Slot)
    } else if !judge.allows_join(event) {
        Some(Law::Join)
    } else if !judge.allows_cond(event) {
        Some(Law::Cond)
    } else if !judge.allows_call_once(event) {
        Some(Law::CallOnce)
    } else {
        None
    }
}

/// The first event at which one of the laws fails, and the first law that fails there; `None` if the events keep the laws. The events
/// are listed oldest first, and are fewer than 2 ^ 32; `passes` is the limit on the passes over destructors, and `slots` the number of
/// thread slots of a process, at least 1.
///
/// `NoMemory` means that the memory for what is kept of the events ran out. An event costs a few searches in tables and a bounded amount
/// of memory, whatever the events are.
pub fn audit(
    alloc: Global,
    passes: u32,
    slots: u32,
    events: &[Event],
) -> Result<Option<AuditFault>, NoMemory>
    requires slots { 0 < slots }
    requires count { length events.now < 2 ^ 32 }
    ensures { IfOk result (λ found. IsAuditOf passes slots events.now found) }
{
    let mut judge = Judge::new(alloc, slots)?;
    for index in 0..events.len() {
        let event = events[index];
        if let Some(law) = broken_by(&judge, passes, event) {
            return Ok(Some(AuditFault {
                event: index as u32 + 1,
                law,
            }));
        }
        judge = judge.add(event)?;
    }
    Ok(None)
}
