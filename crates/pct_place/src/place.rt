//! A process of a machine.

use crate::process_view::ProcessView;
use crate::scheduler::{Draw, ready_slots};
use pct_actions::make;
use pct_io::NoMemory;
use pct_model::{Entry, ProcessAction, Relative, Script, Transition};
use pct_process::ProcessState;
use pct_ready_sets::{AllReadySets, ReadySets, ready_slots as ready_by_sets};
use pct_set::SlotSet;
use pct_step_context::{Program, Surroundings};
use pct_threads::Steps;
use pct_transitions::{choice_by, transition_by_number, transition_if_offered};
use std::alloc::Global;
use std::marker::Model;
use std::sync::ledger::Ledger;

/// A place of a machine for a process. In a contract it is what is kept of the process.
#[derive(Drop)]
pub struct Place {
    /// The ids and the end of the process.
    relative: Relative,
    state: ProcessState,
}

impl Model for Place {
    ghost use Rattle.pct_engine_laws.specs.Seen.{SeenProcess};

    ghost Value = { SeenProcess };

    ghost view = { λ p. record { pid = p.relative.pid; parent = p.relative.parent; ended = p.relative.ended; slots = p.state.slots; shared = p.state.shared } };
}

impl Place {
    ghost use Rattle.std.specs.Prelude.{◌≡◌, ◌≢◌, ◌≤◌, ◌+◌, ℕ, slice_get, true, false, ◌&&◌, nat_eq, [], ◌∷◌, length, map, Some, is_some, if◌then◌else◌, IfSome};
    ghost use Rattle.pct_model.specs.Chosen.{entry_for};
    ghost use Rattle.pct_model.specs.declared.limits.TheConstants.{MAX_SLOTS};
    ghost use Rattle.pct_model.specs.Formats.{has_timeouts};
    ghost use Rattle.pct_model.specs.World.{Thread, first_process};
    ghost use Rattle.pct_engine_laws.specs.Seen.{is_live_seen, seen_process, relative_in, process_seen, child_seen};
    ghost use Rattle.pct_engine_laws.specs.SeenSteps.{ready_in, has_ready_in, candidate_in};
    ghost use Rattle.pct_process.specs.FamilyViews.{other_processes};
    ghost use Rattle.pct_process.specs.ProcessViews.{thread_on_slot};
    ghost use Rattle.pct_model.specs.declared.transition.ProcessAction.TheVariants as process_action;
    ghost use Rattle.pct_actions.specs.ProcessChanges.{woken};
    ghost use Rattle.pct_place.specs.ProcessSteps.{CanStep, HasThread, taken_in, some_if, takes_in, IsOnlySlot, process_changed, process_after_entry};
    ghost use Rattle.pct_place.specs.ShownProcesses.{ShowsProcess};
    ghost use Rattle.pct_ready_sets.specs.ReadyConditions.{Follows, FollowsAt, IsFreshAt};

    /// Makes this the first process before the first step, with 1 to 64 thread slots. No memory is taken.
    pub fn restart(&mut self, script: &Script, slots: u32)
        requires some { 1 ≤ slots }
        requires few { slots ≤ MAX_SLOTS }
        ensures { self.new ≡ seen_process slots (first_process script.now) }
    {
        self.relative = Relative {
            pid: 1,
            parent: 0,
            ended: None,
        };
        self.state.restart(script, slots);
    }

    /// A place that is free, with the memory for a process. `NoMemory` is returned if there is none.
    pub fn reserve(alloc: Global) -> Result<Place, NoMemory> {
        Ok(Place {
            relative: Relative {
                pid: 0,
                parent: 0,
                ended: None,
            },
            state: ProcessState::reserve(alloc)?,
        })
    }

    /// The id of the process.
    pub fn pid(&self) -> u32
        ensures { result ≡ self.now.pid }
    {
        self.relative.pid
    }

    /// The ids and the end of the process.
    pub fn relative(&self) -> Relative
        ensures { result ≡ relative_in self.now }
    {
        self.relative
    }

    /// Whether the process has this id and has not ended.
    pub fn is_live(&self, pid: u32) -> bool
        ensures { result ≡ is_live_seen pid self.now }
    {
        self.relative.pid == pid && self.relative.ended.is_none()
    }

    /// Whether the process has ended.
    pub fn has_ended(&self) -> bool
        ensures { result ≡ is_some self.now.ended }
    {
        self.relative.ended.is_some()
    }

    /// The slots of the threads that are ready. A process that has ended has none.
    pub fn ready(&self, around: Surroundings) -> SlotSet
        ensures { map (thread_on_slot self.now.slots) result ≡ map (λ t. Some t) (ready_in around.entry.program.now.script (has_timeouts around.entry.program.now.config.format) (length self.now.slots) (other_processes around.entry.family) self.now) }
    {
        if self.has_ended() {
            return SlotSet::new();
        }
        ready_slots(around, &self.state)
    }

    /// The same, by the sets of its slots.
    #[inline(always)]
    pub fn ready_by(&self, around: Surroundings, sets: &ReadySets) -> SlotSet
        requires { Follows around.program.now.script (has_timeouts around.program.now.config.format) self.now sets.now }
        ensures { map (thread_on_slot self.now.slots) result ≡ map (λ t. Some t) (ready_in around.entry.program.now.script (has_timeouts around.entry.program.now.config.format) (length self.now.slots) (other_processes around.entry.family) self.now) }
    {
        if self.has_ended() {
            return SlotSet::new();
        }
        ready_by_sets(around, &self.state, sets)
    }

    /// The slot of the only thread of the process. `None` if the process has ended, or has no thread or several.
    #[inline(always)]
    pub fn only_slot(&self) -> Option<u32>
        ensures { IfSome result (IsOnlySlot self.now) }
    {
        // A process has at most 64 slots, with at most one thread on each.
        let _count = self.state.slot_count();
        let occupied = self.state.occupied();
        if self.has_ended() || occupied.len() != 1 {
            return None;
        }
        occupied.nth(0)
    }

    /// Looks again at the slots that are stale, where this process is on a place. None is stale afterwards.
    #[inline(always)]
    pub fn refresh(&self, program: &Program, sets: &mut AllReadySets, place: usize)
        requires { FollowsAt program.now.script (has_timeouts program.now.config.format) self.now place sets.old }
        ensures here { FollowsAt program.now.script (has_timeouts program.now.config.format) self.now place sets.new }
        ensures fresh { IsFreshAt place sets.new }
        ensures others { (i : ℕ) → i ≢ place → slice_get sets.new i ≡ slice_get sets.old i }
    {
        sets.refresh(place, program, &self.state);
    }

    /// Whether a thread is ready.
    pub fn has_ready(&self, around: Surroundings) -> bool
        ensures { result ≡ has_ready_in around.entry.program.now.script (has_timeouts around.entry.program.now.config.format) (length self.now.slots) (other_processes around.entry.family) self.now }
    {
        self.ready(around).len() > 0
    }

    /// The entry that a worker's numbers choose for the thread on a slot of the process, which has not ended. `None` if the thread has
    /// no choice.
    pub fn entry_on(&self, around: Surroundings, slot: u32, draw: Draw) -> Option<Entry>
        requires can { CanStep around.program.now.config.slots self.now }
        requires held { is_some (thread_on_slot self.now.slots slot) ≡ true }
        requires live { is_some self.now.ended ≡ false }
        ensures value { (t : Thread) → thread_on_slot self.now.slots slot ≡ Some t → result ≡ entry_for draw.worker draw.choice (candidate_in around.entry.program.now.script (has_timeouts around.entry.program.now.config.format) (length self.now.slots) (other_processes around.entry.family) self.now t) }
        ensures taken { IfSome result (λ e. takes_in around.entry.program.now.script around.entry.program.now.config (other_processes around.entry.family) e self.now ≡ true) }
    {
        let alt = choice_by(around, &self.state, slot, draw.choice)?;
        Some(Entry {
            worker: draw.worker,
            pid: self.relative.pid,
            tid: self.state.id_on(slot),
            alt,
        })
    }

    /// Makes the step of the entry that a worker's numbers choose for the thread on a slot of the process, and writes the transition that
    /// it takes to `transition`. `None` if the thread has no choice, and then the process is as it was. What the transition changes beside
    /// the data of the process is left to the caller.
    #[inline(always)]
    pub fn advance<L: Ledger>(
        &mut self,
        around: Surroundings,
        slot: u32,
        draw: Draw,
        transition: &mut Transition,
        steps: &mut Steps<L>,
    ) -> Option<Entry>
        requires can { CanStep around.program.now.config.slots self.old }
        requires held { is_some (thread_on_slot self.old.slots slot) ≡ true }
        ensures chosen { (t : Thread) → thread_on_slot self.old.slots slot ≡ Some t → result ≡ entry_for draw.worker draw.choice (candidate_in around.entry.program.now.script (has_timeouts around.entry.program.now.config.format) (length self.old.slots) (other_processes around.entry.family) self.old t) }
        ensures worker { IfSome result (λ e. e.worker ≡ draw.worker) }
        ensures pid { IfSome result (λ e. e.pid ≡ self.old.pid) }
        ensures taken { IfSome result (λ e. taken_in around.entry.program.now.script around.entry.program.now.config (other_processes around.entry.family) self.old e ≡ Some transition.new) }
        ensures made { self.new ≡ process_after_entry around.entry.program.now.config.slots transition.new result self.old }
    {
        let alt = transition_by_number(around, &self.state, slot, draw.choice, transition, steps)?;
        let tid = self.state.id_on(slot);
        make(&mut self.state, slot, transition, steps);
        Some(Entry {
            worker: draw.worker,
            pid: self.relative.pid,
            tid,
            alt,
        })
    }

    /// The process, as it is shown.
    pub fn view<'a>(&'a self, around: Surroundings<'a>) -> ProcessView<'a>
        requires { CanStep around.program.now.config.slots self.now }
        ensures { ShowsProcess around.entry.program.now (other_processes around.entry.family) self.now result }
    {
        ProcessView {
            pid: self.relative.pid,
            has_ended: self.has_ended(),
            state: &self.state,
            around,
        }
    }

    /// Makes the step of an entry of a thread of the process, and writes the transition that it takes to `transition`. The result is
    /// false exactly if no thread with the id of the entry holds its slot or the choice is not offered, and then the process is as it
    /// was. What the transition changes beside the data of the process is left to the caller. At most three records of threads are lent, and
    /// one for each thread that a broadcast wakes.
    #[inline(always)]
    pub fn step<L: Ledger>(
        &mut self,
        around: Surroundings,
        entry: &Entry,
        transition: &mut Transition,
        steps: &mut Steps<L>,
    ) -> bool
        requires { CanStep around.program.now.config.slots self.old }
        ensures taken { taken_in around.entry.program.now.script around.entry.program.now.config (other_processes around.entry.family) self.old entry.now ≡ some_if result transition.new }
        ensures made { self.new ≡ (if result then process_seen around.entry.program.now.config.slots entry.now.tid transition.new self.old else self.old) }
        ensures count { steps.new ≤ steps.old + 3 + (if result then woken transition.new.named self.old.slots else 0) }
    {
        let Some(slot) = self.state.slot_with(entry.tid) else {
            return false;
        };
        if !transition_if_offered(around, &self.state, slot, entry.alt, transition, steps) {
            return false;
        }
        make(&mut self.state, slot, transition, steps);
        true
    }

    /// Makes this process the child with an id that a fork by the thread with an id of a process makes.
    pub fn inherit<L: Ledger>(&mut self, parent: &Place, tid: u32, pid: u32, steps: &mut Steps<L>)
        requires { HasThread tid parent.now.slots }
        ensures child { self.new ≡ child_seen tid pid parent.now }
        ensures count { steps.new ≤ steps.old + 1 }
    {
        let Some(slot) = parent.state.slot_with(tid) else {
            return;
        };
        self.relative = Relative {
            pid,
            parent: parent.relative.pid,
            ended: None,
        };
        self.state.inherit(&parent.state, slot, steps);
    }

    /// Makes a change of the list of processes by a thread of the process with this id in this process, which may be that process or
    /// another one. The result is false exactly if this process is reaped by it.
    #[tactic(auto, unfolding(pct_engine_laws::specs::Seen::own_kept, pct_engine_laws::specs::Seen::other_kept))]
    pub fn change(&mut self, pid: u32, change: ProcessAction) -> bool
        ensures { process_changed pid change self.old ≡ (if result then self.new ∷ [] else []) }
    {
        match change {
            ProcessAction::End(status) => self.end(pid, status),
            ProcessAction::Reap(child) => !self.is_ended(child),
            ProcessAction::Make(_) => true,
        }
    }

    // Makes the changes of the end of the process with this id, with a status.
    #[tactic(auto, unfolding(pct_engine_laws::specs::Seen::own_kept, pct_engine_laws::specs::Seen::other_kept))]
    fn end(&mut self, pid: u32, status: u32) -> bool
        ensures { process_changed pid (process_action.End status) self.old ≡ (if result then self.new ∷ [] else []) }
    {
        if self.is_live(pid) {
            self.relative.ended = Some(status);
            return self.relative.parent != 0;
        }
        if self.relative.parent != pid {
            return true;
        }
        self.relative.parent = 0;
        self.relative.ended.is_none()
    }

    // Whether the process has this id and has ended.
    fn is_ended(&self, pid: u32) -> bool
        ensures { result ≡ (nat_eq self.now.pid pid && is_some self.now.ended) }
    {
        self.relative.pid == pid && self.relative.ended.is_some()
    }
}
