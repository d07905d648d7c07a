//! The judgement of events.

ghost use Rattle.std.specs.Prelude.{◌<◌, ◌^◌, IfOk, length};
ghost use Rattle.pct_event_judge.specs.Findings.{AreFindings};

use crate::findings::Findings;
use crate::monitors::Monitors;
use pct_io::NoMemory;
use pct_model::Event;
use pct_process_monitors::first_unfollowed;
use std::alloc::Global;

/// For each law that is about events alone, the first event that it does not allow. The events are listed oldest first, and are fewer
/// than 2 ^ 32; `passes` is the limit on the passes over destructors, and `slots` the number of thread slots of a process, at least 1.
/// Each law is judged up to its own first event, whatever the others say.
///
/// `NoMemory` means that the memory for what is kept of the events ran out. An event costs a few searches in tables and a bounded amount
/// of memory, whatever the events are.
pub fn judge_events(
    alloc: Global,
    passes: u32,
    slots: u32,
    events: &[Event],
) -> Result<Findings, NoMemory>
    requires slots { 0 < slots }
    requires count { length events.now < 2 ^ 32 }
    ensures { IfOk result (AreFindings passes slots events.now) }
{
    let mut monitors = Monitors::new(alloc, slots)?;
    let mut found = Findings::ALL_KEPT;
    for index in 0..events.len() {
        let event = events[index];
        found = found.noted(monitors.allowed(passes, event), index as u32 + 1);
        monitors = monitors.add(event)?;
    }
    drop(monitors);
    Ok(Findings {
        leftover: first_unfollowed(events),
        ..found
    })
}
