//! The state of a run.

use crate::candidates::{all_ended, any_ready, pick};
use crate::processes::Processes;
use crate::scheduler::{Pick, Seat};
use pct_io::NoMemory;
use pct_model::{Entry, MAX_WORKER, Script, Transition, Verdict, Why};
use pct_place::{Draw, ProcessView};
use pct_ready_sets::AllReadySets;
use pct_step_context::Program;
use pct_threads::Steps;
use std::alloc::Global;
use std::marker::{Brand, Model};
use std::sync::ledger::{Blank, Ledger};

/// The state of a run. In a contract it is what is kept of the state of the machine: the processes that are not reaped, by rising id,
/// each with its slots and what its threads share; the number of processes ever made; and the reason of the stop, if the run was
/// stopped.
#[derive(Drop)]
pub struct Machine {
    processes: Processes,
    stop: Option<Why>,
}

impl Model for Machine {
    ghost use Rattle.pct_engine_laws.specs.Seen.{Seen};

    ghost Value = { Seen };

    ghost view = { λ m. record { processes = m.processes.processes; made = m.processes.made; stop = m.stop } };
}

impl Machine {
    ghost use Rattle.std.specs.Prelude.{◌≡◌, ◌≤◌, ◌<◌, ◌+◌, ℕ, true, false, if◌then◌else◌, is_some, length, slice_get, option_and_then, Some, IfOk, IfSome, IfNone};
    ghost use Rattle.pct_model.specs.declared.limits.TheConstants.{MAX_PROCESSES, MAX_SLOTS, MAX_WORKER};
    ghost use Rattle.pct_model.specs.Chosen.{entry_for};
    ghost use Rattle.pct_model.specs.World.{opening};
    ghost use Rattle.pct_engine_laws.specs.Seen.{seen, seen_after, family_in};
    ghost use Rattle.pct_engine_laws.specs.SeenSteps.{seen_chosen, seen_verdict};
    ghost use Rattle.pct_place.specs.ProcessSteps.{some_if};
    ghost use Rattle.pct_place.specs.ShownProcesses.{ShowsIfSome};
    ghost use Rattle.pct_machine.specs.Candidates.{candidate_on, IsSeat};
    ghost use Rattle.pct_machine.specs.ListChanges.{ChangeFits, list_in, list_moved, seen_finished};
    ghost use Rattle.pct_machine.specs.Places.{ProcessList};
    ghost use Rattle.pct_machine.specs.ProcessSteps.{AllCanStep, EachCanStep};
    ghost use Rattle.pct_machine.specs.MachineSteps.{legal_transition, woken_in};
    ghost use Rattle.pct_model.specs.Formats.{has_timeouts};
    ghost use Rattle.pct_ready_sets.specs.ReadyConditions.{AreFresh, FollowAll};

    /// The state before the first step, with 1 to 64 thread slots. `NoMemory` is returned if the tables of eight processes do not fit into
    /// memory: no other call takes memory.
    pub fn first(alloc: Global, script: &Script, slots: u32) -> Result<Machine, NoMemory>
        requires some { 1 ≤ slots }
        requires few { slots ≤ MAX_SLOTS }
        ensures { IfOk result (λ machine. machine ≡ seen slots (opening script.now)) }
    {
        Ok(Machine {
            processes: Processes::first(alloc, script, slots)?,
            stop: None,
        })
    }

    /// Makes this the state before the first step of a program, with 1 to 64 thread slots. No memory is taken.
    pub fn restart(&mut self, program: &Program)
        requires some { 1 ≤ program.now.config.slots }
        requires few { program.now.config.slots ≤ MAX_SLOTS }
        ensures { self.new ≡ seen program.now.config.slots (opening program.now.script) }
    {
        self.processes
            .restart(&program.script, program.config.slots);
        self.stop = None;
    }

    /// Makes the step of an entry, and writes the transition that it takes to `transition`. The result is false exactly if the entry is
    /// not legal, and then the machine is as it was. The slots that the step touches become stale. At most four records of threads are
    /// lent, and one for each thread that a broadcast wakes.
    pub fn step<L: Ledger>(
        &mut self,
        program: &Program,
        sets: &mut AllReadySets,
        entry: &Entry,
        transition: &mut Transition,
        steps: &mut Steps<L>,
    ) -> bool
        requires { AllCanStep program.now.config.slots self.old.processes self.old.made }
        ensures legal { legal_transition program.now.script program.now.config self.old entry.now ≡ some_if result transition.new }
        ensures made { self.new ≡ (if result then seen_after program.now.config.slots entry.now.pid entry.now.tid transition.new self.old else self.old) }
        ensures follow { FollowAll program.now.script (has_timeouts program.now.config.format) self.old.processes sets.old → FollowAll program.now.script (has_timeouts program.now.config.format) self.new.processes sets.new }
        ensures count { steps.new ≤ steps.old + 4 + woken_in entry.now.pid (some_if result transition.new) self.old.processes }
    {
        if self.stop.is_some() || entry.worker > MAX_WORKER {
            return false;
        }
        if !self.processes.step(program, entry, transition, steps) {
            return false;
        }
        self.finish(program, sets, entry, transition, steps);
        true
    }

    /// Makes the step of the entry that a worker's numbers choose, and writes the transition that it takes to `transition`: one number
    /// chooses a thread that is ready, the other one of its choices. The entry is legal. `None` exactly if the run was stopped or no thread
    /// is ready, and then the machine is as it was. The slots that were stale are looked at again, unless there is one process with one
    /// thread.
    pub fn advance(
        &mut self,
        program: &Program,
        sets: &mut AllReadySets,
        draw: Draw,
        transition: &mut Transition,
    ) -> Option<Entry>
        requires can { AllCanStep program.now.config.slots self.old.processes self.old.made }
        requires follow { FollowAll program.now.script (has_timeouts program.now.config.format) self.old.processes sets.old }
        requires worker { draw.worker ≤ MAX_WORKER }
        ensures value { result ≡ seen_chosen program.now.script program.now.config self.old draw.worker draw.thread draw.choice }
        ensures legal { IfSome result (λ e. legal_transition program.now.script program.now.config self.old e ≡ Some transition.new) }
        ensures made { IfSome result (λ e. self.new ≡ seen_after program.now.config.slots e.pid e.tid transition.new self.old) }
        ensures same { IfNone result (self.new ≡ self.old) }
        ensures follow { FollowAll program.now.script (has_timeouts program.now.config.format) self.new.processes sets.new }
    {
        self.advance_counted::<Brand>(program, sets, draw, transition, Blank::new(1))
    }

    // The same, where the records of threads that are lent are counted from 0 on.
    #[inline(always)]
    fn advance_counted<L: Ledger>(
        &mut self,
        program: &Program,
        sets: &mut AllReadySets,
        draw: Draw,
        transition: &mut Transition,
        blank: Blank,
    ) -> Option<Entry>
        requires name { blank.name ≡ L.name }
        requires parts { blank.parts ≡ L.parts }
        requires some { 0 < blank.parts }
        requires can { AllCanStep program.now.config.slots self.old.processes self.old.made }
        requires follow { FollowAll program.now.script (has_timeouts program.now.config.format) self.old.processes sets.old }
        requires worker { draw.worker ≤ MAX_WORKER }
        ensures value { result ≡ seen_chosen program.now.script program.now.config self.old draw.worker draw.thread draw.choice }
        ensures legal { IfSome result (λ e. legal_transition program.now.script program.now.config self.old e ≡ Some transition.new) }
        ensures made { IfSome result (λ e. self.new ≡ seen_after program.now.config.slots e.pid e.tid transition.new self.old) }
        ensures same { IfNone result (self.new ≡ self.old) }
        ensures follow { FollowAll program.now.script (has_timeouts program.now.config.format) self.new.processes sets.new }
    {
        if self.stop.is_some() {
            return None;
        }
        let seat = self.find_seat(program, sets, draw.thread)?;
        let mut steps = Steps::<L>::new(blank);
        let entry = self
            .processes
            .advance(program, seat, draw, transition, &mut steps)?;
        self.finish(program, sets, &entry, transition, &mut steps);
        Some(entry)
    }

    // Makes what a step of the thread of an entry changes beside the data of its process.
    #[inline(always)]
    fn finish<L: Ledger>(
        &mut self,
        program: &Program,
        sets: &mut AllReadySets,
        entry: &Entry,
        transition: &Transition,
        steps: &mut Steps<L>,
    )
        requires { IfSome transition.now.process (λ c. ChangeFits entry.now.pid entry.now.tid c (list_in self.old)) }
        ensures made { self.new ≡ seen_finished entry.now.pid entry.now.tid transition.now self.old }
        // If this is what is left of a step of these processes, which the sets followed.
        ensures follow { (before : ProcessList) → EachCanStep program.now.config.slots before.processes → list_in self.old ≡ list_moved program.now.config.slots entry.now.pid entry.now.tid transition.now before → FollowAll program.now.script (has_timeouts program.now.config.format) before.processes sets.old → FollowAll program.now.script (has_timeouts program.now.config.format) self.new.processes sets.new }
        ensures count { steps.new ≤ steps.old + 1 }
    {
        match transition.process {
            None => sets.mark(
                self.processes.as_slice().len(),
                program.config.slots,
                entry.tid,
                transition,
            ),
            Some(_) => sets.mark_all(),
        }
        self.processes
            .change(entry.pid, entry.tid, transition.process, steps);
        self.stop = transition.stop;
    }

    /// The verdict of a run of this many entries.
    pub fn verdict(&self, program: &Program, count: usize) -> Verdict
        requires { AllCanStep program.now.config.slots self.now.processes self.now.made }
        ensures { result ≡ seen_verdict program.now.script program.now.config self.now count }
    {
        if let Some(why) = self.stop {
            return Verdict::Undefined(why);
        }
        if all_ended(&self.processes) {
            Verdict::Complete
        } else if !any_ready(program, &self.processes) {
            Verdict::Deadlock
        } else if count == program.config.budget as usize {
            Verdict::Budget
        } else {
            Verdict::Open
        }
    }

    /// The entry that a worker's numbers choose: one chooses a thread that is ready, the other one of its choices. It is legal for a
    /// worker within the limit. `None` exactly if the run was stopped or no thread is ready.
    pub fn chosen(&self, program: &Program, sets: &AllReadySets, draw: Draw) -> Option<Entry>
        requires can { AllCanStep program.now.config.slots self.now.processes self.now.made }
        requires follow { FollowAll program.now.script (has_timeouts program.now.config.format) self.now.processes sets.now }
        ensures value { result ≡ seen_chosen program.now.script program.now.config self.now draw.worker draw.thread draw.choice }
        ensures legal { draw.worker ≤ MAX_WORKER → IfSome result (λ e. is_some (legal_transition program.now.script program.now.config self.now e) ≡ true) }
    {
        if self.stop.is_some() {
            return None;
        }
        let seat = self.seat(program, sets, draw.thread)?;
        self.processes.entry_on(program, seat, draw)
    }

    // The seat of a thread, where the run was not stopped: of the only thread of the only process, whether it is ready or not; where there
    // are others, of the thread that a number chooses among those that are ready, or `None` if none is. The sets are needed only then, and
    // the slots that are stale are looked at again before.
    #[inline(always)]
    fn find_seat(&self, program: &Program, sets: &mut AllReadySets, number: u32) -> Option<Seat>
        requires can { AllCanStep program.now.config.slots self.now.processes self.now.made }
        requires follow { FollowAll program.now.script (has_timeouts program.now.config.format) self.now.processes sets.old }
        requires running { is_some self.now.stop ≡ false }
        ensures value { (worker choice : ℕ) → option_and_then (entry_for worker choice) (option_and_then (candidate_on program.now.script (has_timeouts program.now.config.format) (family_in self.now) self.now.processes) result) ≡ seen_chosen program.now.script program.now.config self.now worker number choice }
        ensures seat { IfSome result (IsSeat self.now.processes) }
        ensures follow { FollowAll program.now.script (has_timeouts program.now.config.format) self.now.processes sets.new }
    {
        match self.processes.only_seat() {
            Some(seat) => Some(seat),
            None => {
                self.refresh(program, sets);
                self.seat(program, sets, number)
            }
        }
    }

    // The seat of the thread that a number chooses among those that are ready, where the run was not stopped. `None` if no thread is ready.
    #[inline(always)]
    fn seat(&self, program: &Program, sets: &AllReadySets, number: u32) -> Option<Seat>
        requires can { AllCanStep program.now.config.slots self.now.processes self.now.made }
        requires follow { FollowAll program.now.script (has_timeouts program.now.config.format) self.now.processes sets.now }
        requires running { is_some self.now.stop ≡ false }
        ensures value { (worker choice : ℕ) → option_and_then (entry_for worker choice) (option_and_then (candidate_on program.now.script (has_timeouts program.now.config.format) (family_in self.now) self.now.processes) result) ≡ seen_chosen program.now.script program.now.config self.now worker number choice }
        ensures seat { IfSome result (IsSeat self.now.processes) }
    {
        let places = self.processes.as_slice();
        match pick(program, &self.processes, places, sets.as_slice(), 0, number) {
            Pick::Here(seat) => Some(seat),
            Pick::Nobody => None,
            Pick::Before(_) => None,
        }
    }

    /// Looks again at the slots of each process that are stale. None of them is stale afterwards.
    pub fn refresh(&self, program: &Program, sets: &mut AllReadySets)
        requires { FollowAll program.now.script (has_timeouts program.now.config.format) self.now.processes sets.old }
        ensures follow { FollowAll program.now.script (has_timeouts program.now.config.format) self.now.processes sets.new }
        ensures fresh { AreFresh (length self.now.processes) sets.new }
    {
        let places = self.processes.as_slice();
        for index in 0..places.len() {
            places[index].refresh(program, sets, index);
        }
    }

    /// The process at an index among those that are not reaped, by rising id. `None` exactly if there are no more than that.
    pub fn process<'a>(&'a self, program: &'a Program, index: usize) -> Option<ProcessView<'a>>
        requires { AllCanStep program.now.config.slots self.now.processes self.now.made }
        ensures shown { ShowsIfSome program.now self.now (slice_get self.now.processes index) result }
        // This holds of all processes.
        ensures few { length self.now.processes ≤ MAX_PROCESSES }
    {
        let place = self.processes.as_slice().get(index)?;
        Some(place.view(self.processes.around(program, place.pid())))
    }
}
