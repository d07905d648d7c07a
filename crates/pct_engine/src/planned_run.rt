//! A run whose entries are given before it is made.

use crate::engine::{Engine, NotLegal, Workspace, step_with};
use crate::trace::Trace;
use pct_ending_calls::transitions::no_change;
use pct_io::NoMemory;
use pct_machine::Machine;
use pct_model::{Config, Entry, Script};
use pct_ready_sets::AllReadySets;
use pct_step_context::Program;
use pct_threads::Steps;
use std::alloc::Global;
use std::marker::Model;
use std::sync::ledger::Ledger;

/// A run of a script under a schedule, made step by step: the engine of the entries so far, and those that are planned. An entry has one
/// place in memory, where it is planned and where it is part of the run.
#[derive(Drop)]
pub struct PlannedRun {
    program: Program,
    machine: Machine,
    work: Workspace,
    trace: Trace,
}

impl Model for PlannedRun {
    ghost use Rattle.pct_model.specs.Formats.{has_timeouts};
    ghost use Rattle.pct_engine.specs.EngineStates.{StandsFor};
    ghost use Rattle.pct_engine.specs.PlannedRuns.{PlannedValue};
    ghost use Rattle.pct_ready_sets.specs.ReadyConditions.{FollowAll};

    ghost Value = { PlannedValue };

    ghost view = { λ r. record { engine = record { script = r.program.script; config = r.program.config; history = r.trace.history }; planned = r.trace.planned } };

    ghost invariant = { λ r. StandsFor r.program r.trace r.machine × FollowAll r.program.script (has_timeouts r.program.config.format) r.machine.processes r.work.sets };
}

impl PlannedRun {
    ghost use Rattle.std.specs.Prelude.{◌≡◌, ◌↔◌, ◌<◌, ◌≤◌, ◌++◌, [], drop, length, take, vec_len, IfOk, IsOk, IsTrue, OnOk, OnErr};
    ghost use Rattle.pct_model.specs.Run.{Run, is_config, run};
    ghost use Rattle.pct_engine.specs.PlannedRuns.{IsNextLegal};

    /// The run without entries, for which these are planned: at most as many as the budget allows. It takes the memory of the whole run, as
    /// `Engine::open` does. `NoMemory` is returned if that does not fit into memory.
    pub fn open(
        alloc: Global,
        script: Script,
        config: Config,
        planned: Vec<Entry>,
    ) -> Result<PlannedRun, NoMemory>
        requires config { IsTrue (is_config config) }
        requires few { vec_len planned ≤ config.budget }
        ensures { IfOk result (λ opened. opened ≡ record { engine = record { script = script; config = config; history = [] }; planned = planned.items }) }
    {
        let trace = Trace::new(alloc, config.budget, planned)?;
        let machine = Machine::first(alloc, &script, config.slots)?;
        let sets = AllReadySets::new(alloc)?;
        let program = Program::new(alloc, script, config)?;
        Ok(PlannedRun {
            program,
            machine,
            work: Workspace {
                sets,
                transition: no_change(),
            },
            trace,
        })
    }

    /// Makes the step of the next planned entry. `NotLegal` is returned exactly if the verdict is not `Open` or the entry is not legal, and
    /// then the run is as it was, and the entry is still planned.
    pub fn step<L: Ledger>(&mut self, steps: &mut Steps<L>) -> Result<(), NotLegal>
        requires { 0 < length self.old.planned }
        ensures made { OnOk result (self.new ≡ record { engine = record self.old.engine { history = self.old.engine.history ++ take 1 self.old.planned }; planned = drop 1 self.old.planned }) }
        ensures legal { IsOk result ↔ IsNextLegal self.old }
        ensures same { OnErr result (self.new ≡ self.old) }
    {
        let entry = self.trace.next();
        step_with(
            &self.program,
            &mut self.machine,
            &mut self.work,
            &mut self.trace,
            entry,
            steps,
        )
    }

    /// The engine of the entries so far. What is planned is forgotten.
    pub fn into_engine(self) -> Engine
        ensures { result ≡ self.engine }
    {
        Engine::of_parts(self.program, self.machine, self.work, self.trace)
    }
}
