//! The sets of slots of all processes of a machine.

ghost use Rattle.std.specs.Prelude.{◌≡◌, ◌<◌, ℕ, option_map, slice_get};
ghost use Rattle.pct_ready_sets.specs.ReadyGroups.{with_stale};

use crate::ready_sets::ReadySets;
use crate::refreshing::refresh;
use crate::touched_slots::touched_slots;
use pct_io::NoMemory;
use pct_model::{MAX_PROCESSES, Transition};
use pct_process::ProcessState;
use pct_set::SlotSet;
use pct_step_context::Program;
use std::alloc::Global;
use std::marker::Model;

/// The sets of slots of the processes of a machine, by the places of the processes. In a contract it is the list of them.
#[derive(Drop)]
pub struct AllReadySets {
    sets: Vec<ReadySets>,
    // Whether anything may be known of a slot.
    looked: bool,
}

impl Model for AllReadySets {
    ghost use Rattle.std.specs.Prelude.{◌≡◌, List, false, replicate};
    ghost use Rattle.pct_model.specs.declared.limits.TheConstants.{MAX_PROCESSES};
    ghost use Rattle.pct_ready_sets.specs.ReadyGroups.{ReadyValue, unknown};

    ghost Value = { List ReadyValue };

    ghost view = { λ all. all.sets.items };

    ghost invariant = { λ all. all.looked ≡ false → all.sets.items ≡ replicate MAX_PROCESSES unknown };
}

impl AllReadySets {
    ghost use Rattle.std.specs.Prelude.{◌≡◌, ◌≢◌, ◌<◌, ◌≤◌, ℕ, map, option_map, replicate, slice_get, IfOk};
    ghost use Rattle.pct_model.specs.Formats.{has_timeouts};
    ghost use Rattle.pct_model.specs.declared.limits.TheConstants.{MAX_PROCESSES, MAX_SLOTS};
    ghost use Rattle.pct_set.specs.Slots.{slots_where};
    ghost use Rattle.pct_transitions.specs.ProcessSteps.{with_data};
    ghost use Rattle.pct_ready_sets.specs.ReadyConditions.{touches, FollowsAt, IsFreshAt};
    ghost use Rattle.pct_ready_sets.specs.ReadyGroups.{unknown, with_stale, all_stale};

    /// The sets of eight processes, of which nothing is known. `NoMemory` is returned if they do not fit into memory.
    pub fn new(alloc: Global) -> Result<AllReadySets, NoMemory>
        ensures { IfOk result (λ all. all ≡ replicate MAX_PROCESSES unknown) }
    {
        let mut sets = Vec::with_capacity(alloc, MAX_PROCESSES)?;
        for _ in 0..MAX_PROCESSES {
            sets.push(ReadySets::new(alloc)?)?;
        }
        Ok(AllReadySets {
            sets,
            looked: false,
        })
    }

    /// The sets, by place.
    pub fn as_slice(&self) -> &[ReadySets]
        ensures { result.now ≡ self.now }
    {
        self.sets.as_slice()
    }

    /// Looks again at the slots of the process on a place that are stale. None is stale afterwards.
    pub fn refresh(&mut self, place: usize, program: &Program, process: &ProcessState)
        requires { FollowsAt program.now.script (has_timeouts program.now.config.format) (with_data process.now) place self.old }
        ensures here { FollowsAt program.now.script (has_timeouts program.now.config.format) (with_data process.now) place self.new }
        ensures fresh { IsFreshAt place self.new }
        ensures others { (i : ℕ) → i ≢ place → slice_get self.new i ≡ slice_get self.old i }
    {
        self.looked = true;
        if place < self.sets.len() {
            refresh(program, process, &mut self.sets[place]);
        }
    }

    /// The slots become stale that a transition of the thread with an id touches, in processes with 1 to 64 slots on the first `live`
    /// places.
    #[inline]
    pub fn mark(&mut self, live: usize, slots: u32, tid: u32, transition: &Transition)
        requires some { 1 ≤ slots }
        requires few { slots ≤ MAX_SLOTS }
        ensures { (i : ℕ) → i < live → slice_get self.new i ≡ option_map (with_stale (slots_where (touches slots tid transition.now))) (slice_get self.old i) }
    {
        if !self.looked {
            // Each slot is stale.
            return;
        }
        mark_places(&mut self.sets, live, &touched_slots(slots, tid, transition));
    }

    /// Each slot becomes stale: the processes move to other places.
    #[inline]
    pub fn mark_all(&mut self)
        ensures { self.new ≡ map all_stale self.old }
    {
        self.looked = true;
        for sets in self.sets.iter_mut() {
            sets.mark_all();
        }
    }
}

// These slots become stale on the first `live` places.
#[inline]
fn mark_places(sets: &mut Vec<ReadySets>, live: usize, touched: &SlotSet)
    ensures { (i : ℕ) → i < live → slice_get sets.new.items i ≡ option_map (with_stale touched.now) (slice_get sets.old.items i) }
{
    for place in 0..live {
        if place < sets.len() {
            sets[place].mark(touched);
        }
    }
}
