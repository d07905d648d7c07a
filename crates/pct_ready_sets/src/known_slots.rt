//! The threads of a process that have a choice, by the sets of its slots.

ghost use Rattle.std.specs.Prelude.{◌≡◌, ◌&&◌, ◌||◌, ℕ, true, Some, is_some, length, map, not};
ghost use Rattle.pct_model.specs.Formats.{has_timeouts};
ghost use Rattle.pct_model.specs.World.{Thread};
ghost use Rattle.pct_set.specs.Slots.{slots_where, has_slot};
ghost use Rattle.pct_engine_laws.specs.SeenSteps.{environment_in, is_ready_in, ready_in};
ghost use Rattle.pct_process.specs.FamilyViews.{other_processes};
ghost use Rattle.pct_process.specs.ProcessViews.{thread_on_slot};
ghost use Rattle.pct_transitions.specs.ProcessSteps.{with_data};
ghost use Rattle.pct_transitions.specs.Readiness.{is_met};
ghost use Rattle.pct_ready_sets.specs.ReadyConditions.{Follows};
ghost use Rattle.pct_ready_sets.specs.ReadyGroups.{condition_on};

use crate::ready_sets::ReadySets;
use pct_process::ProcessState;
use pct_set::SlotSet;
use pct_step_context::Surroundings;
use pct_transitions::{ReadyWhen, has_choice as has_choice_on, is_met as is_met_by};

/// The slots of the threads that have a choice. The threads on slots that are stale are asked one by one.
#[inline(always)]
pub fn ready_slots(around: Surroundings, process: &ProcessState, sets: &ReadySets) -> SlotSet
    requires { Follows around.program.now.script (has_timeouts around.program.now.config.format) (with_data process.now) sets.now }
    ensures { map (thread_on_slot process.now.slots) result ≡ map (λ t. Some t) (ready_in around.entry.program.now.script (has_timeouts around.entry.program.now.config.format) (length process.now.slots) (other_processes around.entry.family) (with_data process.now)) }
{
    // A process has at most 64 slots, with at most one thread on each.
    let _count = process.slot_count();
    let mut ready = known_ready(around, process, sets).minus(&sets.stale());
    let mut rest = stale_threads(process, sets);
    while let Some(slot) = rest.nth(0) {
        if has_choice(around, process, slot) {
            ready.insert(slot);
        }
        rest.remove(slot);
    }
    ready
}

// The slots whose conditions hold. Slots with the same condition are looked at together.
#[inline(always)]
fn known_ready(around: Surroundings, process: &ProcessState, sets: &ReadySets) -> SlotSet
    ensures { (tid : ℕ) → result ≡ slots_where (λ k. is_met process.now.shared (environment_in (has_timeouts around.entry.program.now.config.format) (length process.now.slots) (other_processes around.entry.family) process.now.slots tid) (condition_on sets.now.conditions k)) }
{
    let mut ready = sets.ready_now();
    let mut rest = sets.conditional();
    while let Some(slot) = rest.nth(0) {
        let alike = sets.alike(slot);
        if is_met(around, process, sets.condition(slot)) {
            ready = ready.union(&alike);
        }
        rest = rest.minus(&alike);
    }
    ready
}

// The slots that are stale and that threads hold.
#[inline(always)]
fn stale_threads(process: &ProcessState, sets: &ReadySets) -> SlotSet
    ensures { result ≡ slots_where (λ k. is_some (thread_on_slot process.now.slots k) && has_slot sets.now.stale k) }
{
    let held = process.occupied();
    held.minus(&held.minus(&sets.stale()))
}

// Whether the thread on a slot has a choice. Few threads are asked: the loop above stays short.
#[inline(never)]
fn has_choice(around: Surroundings, process: &ProcessState, slot: u32) -> bool
    requires { is_some (thread_on_slot process.now.slots slot) ≡ true }
    ensures { (t : Thread) → thread_on_slot process.now.slots slot ≡ Some t → result ≡ is_ready_in around.entry.program.now.script (has_timeouts around.entry.program.now.config.format) (length process.now.slots) (other_processes around.entry.family) (with_data process.now) t }
{
    has_choice_on(around, process, slot)
}

// Whether a condition holds.
#[inline(always)]
fn is_met(around: Surroundings, process: &ProcessState, when: ReadyWhen) -> bool
    ensures { (tid : ℕ) → result ≡ is_met process.now.shared (environment_in (has_timeouts around.entry.program.now.config.format) (length process.now.slots) (other_processes around.entry.family) process.now.slots tid) when }
{
    is_met_by(around, process, when)
}
