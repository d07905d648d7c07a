//! The threads of a process that are ready, and the numbers that choose one of them.

ghost use Rattle.std.specs.Prelude.{◌≡◌, Some, map, length};
ghost use Rattle.pct_model.specs.Formats.{has_timeouts};
ghost use Rattle.pct_engine_laws.specs.SeenSteps.{ready_in};
ghost use Rattle.pct_process.specs.FamilyViews.{other_processes};
ghost use Rattle.pct_process.specs.ProcessViews.{thread_on_slot};
ghost use Rattle.pct_transitions.specs.ProcessSteps.{with_data};

use pct_process::ProcessState;
use pct_set::SlotSet;
use pct_step_context::Surroundings;
use pct_transitions::has_choice;

/// The numbers of a worker, which choose an entry.
#[derive(Clone, Copy, Debug)]
pub struct Draw {
    /// The worker.
    pub worker: u32,
    /// The number that chooses one of the threads that are ready.
    pub thread: u32,
    /// The number that chooses one of its choices.
    pub choice: u32,
}

/// The slots of the threads that are ready.
pub(crate) fn ready_slots(around: Surroundings, process: &ProcessState) -> SlotSet
    ensures { map (thread_on_slot process.now.slots) result ≡ map (λ t. Some t) (ready_in around.entry.program.now.script (has_timeouts around.entry.program.now.config.format) (length process.now.slots) (other_processes around.entry.family) (with_data process.now)) }
{
    // A process has at most 64 slots, with at most one thread on each.
    let _count = process.slot_count();
    let mut ready = SlotSet::new();
    let mut rest = process.occupied();
    while let Some(slot) = rest.nth(0) {
        if has_choice(around, process, slot) {
            ready.insert(slot);
        }
        rest.remove(slot);
    }
    ready
}
