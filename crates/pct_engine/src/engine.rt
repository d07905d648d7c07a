//! The engine: a run of a script, step by step.

ghost use Rattle.std.specs.Prelude.{◌≡◌, ◌↔◌, ◌≤◌, ◌+◌, true, [], ◌∷◌, ◌++◌, Some, IsOk, OnOk, OnErr, drop, is_ok, is_some, if◌then◌else◌};
ghost use Rattle.pct_model.specs.Run.{Run, run};
ghost use Rattle.pct_model.specs.Formats.{has_timeouts};
ghost use Rattle.pct_engine.specs.EngineStates.{StandsFor, woken_by};
ghost use Rattle.pct_ready_sets.specs.ReadyConditions.{FollowAll};

use crate::planned_run::PlannedRun;
use crate::trace::Trace;
use pct_io::NoMemory;
use pct_machine::Machine;
use pct_model::{Config, Entry, Event, Script, Transition, Verdict};
use pct_place::{Draw, ProcessView};
use pct_ready_sets::AllReadySets;
use pct_step_context::Program;
use pct_threads::Steps;
use std::alloc::Global;
use std::marker::Model;
use std::sync::ledger::Ledger;

/// The error of an entry that is not legal, or for which the budget has no step left.
#[derive(Clone, Copy, Debug, PartialEq, Eq)]
pub struct NotLegal;

/// A run of a script, made step by step. In a contract it is the script, the configuration and the entries so far: the run of
/// these entries is defined for every engine.
#[derive(Drop)]
pub struct Engine {
    program: Program,
    machine: Machine,
    work: Workspace,
    trace: Trace,
}

/// What a step works with beside the state of the run.
#[derive(Drop)]
pub(crate) struct Workspace {
    /// What is known of the threads that have a choice.
    pub sets: AllReadySets,
    /// The transition of the last step: the next one is written to the same place.
    pub transition: Transition,
}

impl Model for Engine {
    ghost use Rattle.pct_model.specs.Formats.{has_timeouts};
    ghost use Rattle.pct_engine.specs.EngineStates.{EngineValue, StandsFor};
    ghost use Rattle.pct_ready_sets.specs.ReadyConditions.{FollowAll};

    ghost Value = { EngineValue };

    ghost view = { λ e. record { script = e.program.script; config = e.program.config; history = e.trace.history } };

    ghost invariant = { λ e. StandsFor e.program e.trace e.machine × FollowAll e.program.script (has_timeouts e.program.config.format) e.machine.processes e.work.sets };
}

impl Engine {
    ghost use Rattle.std.specs.Prelude.{◌≡◌, ◌↔◌, ◌+◌, ◌*◌, ◌≤◌, [], ◌∷◌, ◌++◌, length, reverse, IfOk, IfNone, IfSome, IsOk, OnOk, OnErr, IsTrue, slice_get};
    ghost use Rattle.pct_model.specs.declared.limits.TheConstants.{MAX_PROCESSES, MAX_WORKER};
    ghost use Rattle.pct_model.specs.Run.{Run, is_config, verdict_of};
    ghost use Rattle.pct_engine_laws.specs.Seen.{seen};
    ghost use Rattle.pct_place.specs.ShownProcesses.{ShowsIfSome};
    ghost use Rattle.pct_engine.specs.EngineStates.{IsRunOf, IsRunWith, IsAllowed, IsChoice, KeepsLaws, woken_by};

    /// The engine of the run without entries. It takes the memory of the whole run: `budget` entries, three events for each,
    /// and all tables; no other call takes memory. `NoMemory` is returned if that does not fit into memory.
    pub fn open(alloc: Global, script: Script, config: Config) -> Result<Engine, NoMemory>
        requires { IsTrue (is_config config) }
        ensures { IfOk result (λ engine. engine ≡ record { script = script; config = config; history = [] }) }
    {
        Ok(PlannedRun::open(alloc, script, config, Vec::new(alloc))?.into_engine())
    }

    /// Makes this the engine of the run without entries, of the same script under the same configuration. No memory is taken or given back.
    pub fn restart(&mut self)
        ensures { self.new ≡ record self.old { history = [] } }
    {
        self.machine.restart(&self.program);
        self.work.sets.mark_all();
        self.trace.restart();
    }

    /// The engine with these parts.
    pub(crate) fn of_parts(
        program: Program,
        machine: Machine,
        work: Workspace,
        trace: Trace,
    ) -> Engine
        requires stands { StandsFor program trace machine }
        requires follow { FollowAll program.script (has_timeouts program.config.format) machine.processes work.sets }
        ensures { result ≡ record { script = program.script; config = program.config; history = trace.history } }
    {
        Engine {
            program,
            machine,
            work,
            trace,
        }
    }

    /// Makes the step of an entry, and records the entry and its events. `NotLegal` is returned exactly if the verdict is not
    /// `Open` or the entry is not legal, and then the run is as it was. However many threads there are, at most four records of threads
    /// are lent, and one for each thread that a broadcast wakes: that of the thread itself twice, that of a thread that its step names,
    /// and that of the replica that a fork makes.
    pub fn step<L: Ledger>(&mut self, entry: Entry, steps: &mut Steps<L>) -> Result<(), NotLegal>
        ensures made { OnOk result (self.new ≡ record self.old { history = self.old.history ++ entry ∷ [] }) }
        ensures legal { IsOk result ↔ IsRunWith self.old entry }
        ensures cause { (after : Run) → IsRunOf self.old after → IsOk result ↔ IsAllowed self.old after entry }
        ensures same { OnErr result (self.new ≡ self.old) }
        // Of every legal schedule: the run keeps the laws, and its state keeps the invariant.
        ensures laws { (after : Run) → IsRunOf self.new after → KeepsLaws self.new after }
        ensures count { (before : Run) → IsRunOf self.old before → steps.new ≤ steps.old + 4 + woken_by self.old.script self.old.config before.world entry }
    {
        step_with(
            &self.program,
            &mut self.machine,
            &mut self.work,
            &mut self.trace,
            entry,
            steps,
        )
    }

    /// The entry that two numbers choose for a worker, at most `MAX_WORKER`. Of the threads that are ready, by rising process
    /// id and then by rising slot, it is the one at index `a` modulo their number; of its choices, `go` first and then by rising
    /// slot or place, the one at index `b` modulo their number. The entry is legal. `None` is returned exactly if the verdict is
    /// not `Open`.
    pub fn choose(&self, worker: u32, a: u32, b: u32) -> Option<Entry>
        requires { worker ≤ MAX_WORKER }
        ensures choice { (after : Run) → IsRunOf self.now after → IsChoice self.now after worker a b result }
        // The run of the entries is defined, for every engine.
        ensures runs { (after : Run) × IsRunOf self.now after }
    {
        if !self.trace.has_room() {
            return None;
        }
        let draw = Draw {
            worker,
            thread: a,
            choice: b,
        };
        self.machine.chosen(&self.program, &self.work.sets, draw)
    }

    /// Makes the step of the entry that `choose` gives for these numbers, and returns the entry. `None` is returned exactly if the verdict is
    /// not `Open`, and then the run is as it was. A run that is made by this call looks at few threads before each step, however many there
    /// are.
    pub fn advance(&mut self, worker: u32, a: u32, b: u32) -> Option<Entry>
        requires { worker ≤ MAX_WORKER }
        ensures choice { (after : Run) → IsRunOf self.old after → IsChoice self.old after worker a b result }
        ensures made { IfSome result (λ entry. self.new ≡ record self.old { history = self.old.history ++ entry ∷ [] }) }
        ensures same { IfNone result (self.new ≡ self.old) }
        // Of every legal schedule, as of `step`.
        ensures laws { (after : Run) → IsRunOf self.new after → KeepsLaws self.new after }
        // The run of the entries is defined, for every engine.
        ensures runs { (after : Run) × IsRunOf self.old after }
    {
        if !self.trace.has_room() {
            return None;
        }
        let draw = Draw {
            worker,
            thread: a,
            choice: b,
        };
        let entry = self.machine.advance(
            &self.program,
            &mut self.work.sets,
            draw,
            &mut self.work.transition,
        )?;
        self.trace.record_step(&entry, &self.work.transition.events);
        Some(entry)
    }

    /// The verdict of the run so far: `Undefined` if the run was stopped, else `Complete` if all processes have ended, else
    /// `Deadlock` if no thread is ready, else `Budget` if the run has as many entries as its budget allows, else `Open`.
    pub fn verdict(&self) -> Verdict
        ensures value { (after : Run) → IsRunOf self.now after → result ≡ verdict_of self.now.script self.now.config after.world (length self.now.history) }
        // The run of the entries is defined, for every engine.
        ensures runs { (after : Run) × IsRunOf self.now after }
    {
        self.machine
            .verdict(&self.program, self.trace.history().len())
    }

    /// The process at an index among those that are not reaped, by rising id, in the state of the run so far. `None` exactly if there are
    /// no more than that.
    pub fn process(&self, index: usize) -> Option<ProcessView<'_>>
        ensures shown { (after : Run) → IsRunOf self.now after
            → ShowsIfSome (record { script = self.now.script; config = self.now.config }) (seen self.now.config.slots after.world) (slice_get (seen self.now.config.slots after.world).processes index) result }
        ensures few { (after : Run) → IsRunOf self.now after → length (seen self.now.config.slots after.world).processes ≤ MAX_PROCESSES }
    {
        self.machine.process(&self.program, index)
    }

    /// The entries of the run so far, in order. There are at most as many as the budget allows.
    pub fn history(&self) -> &[Entry]
        ensures value { result.now ≡ self.now.history }
        ensures within { length self.now.history ≤ self.now.config.budget }
    {
        self.trace.history()
    }

    /// The events of the run so far, in order. There are at most three for each entry.
    pub fn events(&self) -> &[Event]
        ensures value { (after : Run) → IsRunOf self.now after → result.now ≡ reverse after.events }
        ensures few { length result.now ≤ 3 * length self.now.history }
        // The run of the entries is defined, for every engine.
        ensures runs { (after : Run) × IsRunOf self.now after }
    {
        self.trace.events()
    }

    /// The script that is run.
    pub fn script(&self) -> &Script
        ensures { result.now ≡ self.now.script }
    {
        &self.program.script
    }

    /// The configuration of the run.
    pub fn config(&self) -> Config
        ensures value { result ≡ self.now.config }
        ensures within { IsTrue (is_config result) }
    {
        self.program.config
    }
}

/// Makes the step of an entry, and records it with its events.
pub(crate) fn step_with<L: Ledger>(
    program: &Program,
    machine: &mut Machine,
    work: &mut Workspace,
    trace: &mut Trace,
    entry: Entry,
    steps: &mut Steps<L>,
) -> Result<(), NotLegal>
    requires stands { StandsFor program.now trace.old machine.old }
    requires follow { FollowAll program.now.script (has_timeouts program.now.config.format) machine.old.processes work.old.sets }
    ensures made { OnOk result (trace.new.history ≡ trace.old.history ++ entry ∷ []) }
    ensures planned { trace.new.planned ≡ (if is_ok result then drop 1 trace.old.planned else trace.old.planned) }
    ensures legal { IsOk result ↔ (is_some (run program.now.script program.now.config (trace.old.history ++ entry ∷ [])) ≡ true) }
    ensures same { OnErr result (trace.new.history ≡ trace.old.history) }
    ensures stands { StandsFor program.now trace.new machine.new }
    ensures follow { FollowAll program.now.script (has_timeouts program.now.config.format) machine.new.processes work.new.sets }
    ensures count { (before : Run) → run program.now.script program.now.config trace.old.history ≡ Some before → steps.new ≤ steps.old + 4 + woken_by program.now.script program.now.config before.world entry }
{
    if !trace.has_room() {
        return Err(NotLegal);
    }
    if !machine.step(program, &mut work.sets, &entry, &mut work.transition, steps) {
        return Err(NotLegal);
    }
    trace.record_step(&entry, &work.transition.events);
    Ok(())
}
