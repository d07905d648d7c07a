//! The processes of a run.

ghost use Rattle.std.specs.Prelude.{◌≡◌, ◌+◌, ◌<◌, ◌≤◌, ◌^◌, [], ◌∷◌, ◌++◌, length, map, take, slice_get, Some, IfOk};
ghost use Rattle.std.specs.List.{flat_map};
ghost use Rattle.pct_model.specs.declared.limits.TheConstants.{MAX_SLOTS, MAX_PROCESSES};
ghost use Rattle.pct_model.specs.OtherProcesses.{family_among};
ghost use Rattle.pct_model.specs.World.{first_process};
ghost use Rattle.pct_engine_laws.specs.Seen.{SeenProcess, seen_process, relative_in, child_seen};
ghost use Rattle.pct_process.specs.FamilyViews.{other_processes};
ghost use Rattle.pct_place.specs.ProcessSteps.{HasThread, process_changed};

use crate::scheduler::Seat;
use pct_io::NoMemory;
use pct_model::{Entry, MAX_PROCESSES, ProcessAction, Relative, Script, Transition};
use pct_place::{Draw, Place};
use pct_process::{Family, Relatives};
use pct_step_context::{Program, Surroundings};
use pct_threads::Steps;
use std::alloc::Global;
use std::marker::Model;
use std::sync::ledger::Ledger;

/// The processes of a run. In a contract it is the list of those that are not reaped, by rising id, and the number of processes ever made.
#[derive(Drop)]
pub(crate) struct Processes {
    // MAX_PROCESSES (8) places. The processes are on the first `live` places; the others are free.
    places: Vec<Place>,
    live: usize,
    made: u32,
    // The ids and the ends of the processes.
    relatives: Relatives,
}

impl Model for Processes {
    ghost use Rattle.std.specs.Prelude.{take};
    ghost use Rattle.pct_machine.specs.Places.{ProcessList, AreSound};

    ghost Value = { ProcessList };

    ghost view = { λ p. record { processes = take p.live p.places.items; made = p.made } };

    ghost invariant = { λ p. AreSound p.live p.made p.relatives p.places.items };
}

impl Processes {
    ghost use Rattle.std.specs.Prelude.{◌≡◌, ◌+◌, ◌<◌, ◌≤◌, ◌^◌, [], ◌∷◌, length, true, if◌then◌else◌, is_some, option_and_then, Some, IfOk, IfSome, position};
    ghost use Rattle.pct_model.specs.Chosen.{entry_for};
    ghost use Rattle.pct_model.specs.Formats.{has_timeouts};
    ghost use Rattle.std.specs.List.{flat_map};
    ghost use Rattle.pct_model.specs.declared.limits.TheConstants.{MAX_SLOTS, MAX_PROCESSES};
    ghost use Rattle.pct_model.specs.World.{first_process};
    ghost use Rattle.pct_engine_laws.specs.Seen.{seen_process, is_live_seen};
    ghost use Rattle.pct_process.specs.FamilyViews.{other_processes};
    ghost use Rattle.pct_place.specs.ProcessSteps.{some_if, process_changed};
    ghost use Rattle.pct_machine.specs.Places.{RiseWithin, families};
    ghost use Rattle.pct_machine.specs.Candidates.{candidate_on, IsSeat, IsOnlySeat};
    ghost use Rattle.pct_machine.specs.ProcessSteps.{AllCanStep};
    ghost use Rattle.pct_machine.specs.MachineSteps.{woken_in};
    ghost use Rattle.pct_machine.specs.ListChanges.{taken_among, list_moved, list_after_entry, list_changed, list_with_child, ChildFits, ChangeFits};

    /// The processes before the first step, with 1 to 64 thread slots. `NoMemory` is returned if the tables of eight processes do not fit
    /// into memory: no other call takes memory.
    pub fn first(alloc: Global, script: &Script, slots: u32) -> Result<Processes, NoMemory>
        requires some { 1 ≤ slots }
        requires few { slots ≤ MAX_SLOTS }
        ensures { IfOk result (λ list. list ≡ record { processes = seen_process slots (first_process script.now) ∷ []; made = 1 }) }
    {
        let mut list = Processes {
            places: reserved_places(alloc)?,
            live: 0,
            made: 0,
            relatives: Relatives::new(),
        };
        list.restart(script, slots);
        Ok(list)
    }

    /// Makes these the processes before the first step, with 1 to 64 thread slots. No memory is taken.
    pub fn restart(&mut self, script: &Script, slots: u32)
        requires some { 1 ≤ slots }
        requires few { slots ≤ MAX_SLOTS }
        ensures { self.new ≡ record { processes = seen_process slots (first_process script.now) ∷ []; made = 1 } }
    {
        self.places[0].restart(script, slots);
        self.live = 1;
        self.made = 1;
        self.relatives.clear();
        self.relatives.push(self.places[0].relative());
    }

    /// The places of the processes.
    pub fn as_slice(&self) -> &[Place]
        ensures value { result.now ≡ self.now.processes }
        ensures few { length result.now ≤ MAX_PROCESSES }
        // This holds of all processes.
        ensures rising { RiseWithin 0 self.now.made self.now.processes }
    {
        self.places.as_slice().split_at(self.live).0
    }

    /// What a step of the process with this id depends on beside it.
    pub fn around<'a>(&'a self, program: &'a Program, pid: u32) -> Surroundings<'a>
        requires { self.now.made + 1 < 2 ^ 32 }
        ensures program { result.program.now ≡ program.now }
        ensures family { other_processes result.family ≡ families self.now pid }
    {
        surroundings(program, &self.relatives, self.made, pid)
    }

    /// Makes the step of an entry of a thread in its process, and writes the transition that it takes to `transition`. The result is
    /// false exactly if there is no process with the id of the entry that has not ended, no thread with the id of the entry holds its
    /// slot there, or the choice is not offered, and then the processes are as they were. The changes of the list of processes are left
    /// to the caller. At most three records of threads are lent, and one for each thread that a broadcast wakes.
    pub fn step<L: Ledger>(
        &mut self,
        program: &Program,
        entry: &Entry,
        transition: &mut Transition,
        steps: &mut Steps<L>,
    ) -> bool
        requires { AllCanStep program.now.config.slots self.old.processes self.old.made }
        ensures taken { taken_among program.now.script program.now.config self.old entry.now ≡ some_if result transition.new }
        ensures moved { self.new ≡ (if result then list_moved program.now.config.slots entry.now.pid entry.now.tid transition.new self.old else self.old) }
        ensures count { steps.new ≤ steps.old + 3 + woken_in entry.now.pid (some_if result transition.new) self.old.processes }
    {
        let Some(index) = self.index_of(entry.pid) else {
            return false;
        };
        let around = surroundings(program, &self.relatives, self.made, entry.pid);
        self.places[index].step(around, entry, transition, steps)
    }

    /// The seat of the only thread of the only process. `None` if there is another process, or if the process has ended, or has no thread
    /// or several.
    #[inline(always)]
    pub fn only_seat(&self) -> Option<Seat>
        ensures { IfSome result (IsOnlySeat self.now.processes) }
    {
        if self.live != 1 {
            return None;
        }
        let slot = self.places[0].only_slot()?;
        Some(Seat { place: 0, slot })
    }

    /// The entry that a worker's numbers choose for the thread on a seat. `None` if the thread has no choice.
    pub fn entry_on(&self, program: &Program, seat: Seat, draw: Draw) -> Option<Entry>
        requires can { AllCanStep program.now.config.slots self.now.processes self.now.made }
        requires seat { IsSeat self.now.processes seat }
        ensures value { result ≡ option_and_then (entry_for draw.worker draw.choice) (candidate_on program.now.script (has_timeouts program.now.config.format) (families self.now) self.now.processes seat) }
        ensures taken { IfSome result (λ e. is_some (taken_among program.now.script program.now.config self.now e) ≡ true) }
    {
        let place = &self.places[seat.place];
        place.entry_on(self.around(program, place.pid()), seat.slot, draw)
    }

    /// Makes the step of the entry that a worker's numbers choose for the thread on a seat, and writes the transition that it takes to
    /// `transition`. `None` if the thread has no choice, and then the processes are as they were. The changes of the list of processes are
    /// left to the caller.
    pub fn advance<L: Ledger>(
        &mut self,
        program: &Program,
        seat: Seat,
        draw: Draw,
        transition: &mut Transition,
        steps: &mut Steps<L>,
    ) -> Option<Entry>
        requires can { AllCanStep program.now.config.slots self.old.processes self.old.made }
        requires seat { IsSeat self.old.processes seat }
        ensures chosen { result ≡ option_and_then (entry_for draw.worker draw.choice) (candidate_on program.now.script (has_timeouts program.now.config.format) (families self.old) self.old.processes seat) }
        ensures worker { IfSome result (λ e. e.worker ≡ draw.worker) }
        ensures taken { IfSome result (λ e. taken_among program.now.script program.now.config self.old e ≡ Some transition.new) }
        ensures moved { self.new ≡ list_after_entry program.now.config.slots transition.new result self.old }
    {
        let pid = self.places[seat.place].pid();
        let around = surroundings(program, &self.relatives, self.made, pid);
        self.places[seat.place].advance(around, seat.slot, draw, transition, steps)
    }

    /// Makes a change of the list by the thread with an id of the process with an id, if there is such a change. One record of a thread
    /// is lent at most.
    #[inline(always)]
    pub fn change<L: Ledger>(
        &mut self,
        pid: u32,
        tid: u32,
        change: Option<ProcessAction>,
        steps: &mut Steps<L>,
    )
        requires { IfSome change (λ c. ChangeFits pid tid c self.old) }
        ensures changed { self.new ≡ list_changed pid tid change self.old }
        ensures count { steps.new ≤ steps.old + 1 }
    {
        match change {
            None => {}
            Some(ProcessAction::End(status)) => self.keep(pid, ProcessAction::End(status)),
            Some(ProcessAction::Reap(child)) => self.keep(pid, ProcessAction::Reap(child)),
            Some(ProcessAction::Make(child)) => self.fork(pid, tid, child, steps),
        }
    }

    // Makes a change that makes no process. The processes that are kept stay in their order.
    #[inline(never)]
    fn keep(&mut self, pid: u32, change: ProcessAction)
        ensures { self.new ≡ record self.old { processes = flat_map (process_changed pid change) self.old.processes } }
    {
        self.live = keep_places(&mut self.places, self.live, pid, change);
        let (processes, _) = self.places.as_slice().split_at(self.live);
        renew(&mut self.relatives, processes);
    }

    // Makes the child process with an id, which inherits the thread with this id.
    #[inline(never)]
    fn fork<L: Ledger>(&mut self, pid: u32, tid: u32, child: u32, steps: &mut Steps<L>)
        requires { ChildFits pid tid child self.old }
        ensures child { self.new ≡ list_with_child pid tid child self.old }
        ensures count { steps.new ≤ steps.old + 1 }
    {
        let Some(index) = self.index_of(pid) else {
            return;
        };
        fork_place(
            self.places.as_mut_slice(),
            self.live,
            index,
            tid,
            child,
            steps,
        );
        self.live += 1;
        self.made = child;
        let (processes, _) = self.places.as_slice().split_at(self.live);
        renew(&mut self.relatives, processes);
    }

    // The place of the process with an id that has not ended.
    fn index_of(&self, pid: u32) -> Option<usize>
        ensures { result ≡ position (is_live_seen pid) self.now.processes }
    {
        self.as_slice().iter().position(|place| place.is_live(pid))
    }
}

// What a step of the process with this id depends on beside it, where these processes were not reaped, of this many that were made.
fn surroundings<'a>(
    program: &'a Program,
    relatives: &'a Relatives,
    made: u32,
    pid: u32,
) -> Surroundings<'a>
    requires { made + 1 < 2 ^ 32 }
    ensures program { result.program.now ≡ program.now }
    ensures family { other_processes result.family ≡ family_among made relatives.now pid }
{
    Surroundings {
        program,
        family: Family::new(relatives, made, pid),
    }
}

// MAX_PROCESSES places, each of them free.
fn reserved_places(alloc: Global) -> Result<Vec<Place>, NoMemory>
    ensures { IfOk result (λ places. length places.items ≡ MAX_PROCESSES) }
{
    let mut places = Vec::with_capacity(alloc, MAX_PROCESSES)?;
    for _ in 0..MAX_PROCESSES {
        places.push(Place::reserve(alloc)?)?;
    }
    Ok(places)
}

// Makes a change that makes no process, where the processes are on the first `live` places. Those that are kept are then on the first
// places, in their order. Their number is the result.
fn keep_places(places: &mut Vec<Place>, live: usize, pid: u32, change: ProcessAction) -> usize
    requires { live ≤ length places.old.items }
    ensures kept { take result places.new.items ≡ flat_map (process_changed pid change) (take live places.old.items) }
    ensures few { result ≤ live }
    ensures all { length places.new.items ≡ length places.old.items }
{
    let mut kept = 0;
    for index in 0..live {
        if places[index].change(pid, change) {
            places.swap(index, kept);
            kept += 1;
        }
    }
    kept
}

// Makes the child process with an id on the place after the first `live` ones: the thread with an id, of the process on a place before
// it, forks.
fn fork_place<L: Ledger>(
    places: &mut [Place],
    live: usize,
    index: usize,
    tid: u32,
    pid: u32,
    steps: &mut Steps<L>,
)
    requires within { index < live }
    requires room { live < length places.old }
    requires thread { (p : SeenProcess) → slice_get places.old index ≡ Some p → HasThread tid p.slots }
    ensures child { (p : SeenProcess) → slice_get places.old index ≡ Some p → take (live + 1) places.new ≡ take live places.old ++ child_seen tid pid p ∷ [] }
    ensures count { steps.new ≤ steps.old + 1 }
{
    let (processes, free) = places.split_at_mut(live);
    free[0].inherit(&processes[index], tid, pid, steps);
}

// Writes the ids and the ends of the processes anew.
fn renew(relatives: &mut Relatives, processes: &[Place])
    requires { length processes.now ≤ MAX_PROCESSES }
    ensures { relatives.new ≡ map relative_in processes.now }
{
    relatives.clear();
    for process in processes {
        relatives.push(process.relative());
    }
}
