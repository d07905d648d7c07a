//! The run of a script under a given schedule.

ghost use Rattle.std.specs.Prelude.{◌≡◌, ◌≤◌, ◌<◌, true, [], length, IfErr, IfOk, IsTrue};
ghost use Rattle.pct_model.specs.Run.{Run, is_config};
ghost use Rattle.pct_engine.specs.EngineStates.{IsRunOf, KeepsLaws};
ghost use Rattle.pct_history.specs.Replays.{Follows, StopsReplay};

use crate::replay_fault::ReplayFault;
use pct_engine::{Engine, NotLegal, PlannedRun};
use pct_io::NoMemory;
use pct_model::{Config, Script};
use pct_schedule_reader::Entries;
use pct_threads::Steps;
use std::alloc::Global;
use std::marker::Brand;
use std::sync::ledger::{Blank, Ledger};

/// Runs a script under a schedule: it makes the step of each entry in turn. The engine that is returned has made them all,
/// and may make further steps. It takes over the memory of the entries.
///
/// `NotLegal` is returned if an entry is not legal at its turn, with the number of the first such entry, counted from 1.
/// `NoMemory` is returned if the run does not fit into memory; all memory is taken before the first step.
pub fn replay(
    alloc: Global,
    script: Script,
    config: Config,
    entries: Entries,
) -> Result<Engine, ReplayFault>
    requires config { IsTrue (is_config config) }
    requires few { length entries ≤ config.budget }
    ensures ran { IfOk result (λ engine. engine ≡ record { script = script; config = config; history = entries }) }
    ensures runs { IfOk result (λ engine. (after : Run) × IsRunOf engine after) }
    // Of every legal schedule: the run keeps the laws, and its state keeps the invariant.
    ensures laws { IfOk result (λ engine. (after : Run) → IsRunOf engine after → KeepsLaws engine after) }
    ensures stopped { IfErr result (λ fault. StopsReplay script config entries fault) }
{
    match follow(alloc, script, config, entries)? {
        (engine, None) => Ok(engine),
        (_, Some(entry_number)) => Err(ReplayFault::NotLegal { entry_number }),
    }
}

/// Runs a script under the entries of a schedule up to the first that is not legal: it makes the step of each entry before that
/// one. It returns the engine, which may make further steps, and the number of the entry that is not legal, counted from 1. It takes
/// over the memory of the entries.
///
/// `NoMemory` is returned if the run does not fit into memory; all memory is taken before the first step.
pub fn follow(
    alloc: Global,
    script: Script,
    config: Config,
    entries: Entries,
) -> Result<(Engine, Option<u32>), NoMemory>
    requires config { IsTrue (is_config config) }
    requires few { length entries ≤ config.budget }
    ensures followed { IfOk result (λ parts. Follows script config entries parts.0 parts.1) }
    ensures runs { IfOk result (λ parts. (after : Run) × IsRunOf parts.0 after) }
{
    let planned = entries.into_vec();
    let count = planned.len();
    let mut run = PlannedRun::open(alloc, script, config, planned)?;
    let illegal = make_steps::<Brand>(&mut run, count, Blank::new(1));
    Ok((run.into_engine(), illegal))
}

// Makes the steps of the planned entries, of which there are so many, up to the first that is not legal, and returns the number of that
// one, counted from 1. The records of threads that are lent are counted from 0 on.
fn make_steps<L: Ledger>(run: &mut PlannedRun, count: usize, blank: Blank) -> Option<u32>
    requires name { blank.name ≡ L.name }
    requires parts { blank.parts ≡ L.parts }
    requires some { 0 < blank.parts }
    requires opened { run.old.engine.history ≡ [] }
    requires config { IsTrue (is_config run.old.engine.config) }
    requires all { count ≡ length run.old.planned }
    requires few { count ≤ run.old.engine.config.budget }
    ensures follows { Follows run.old.engine.script run.old.engine.config run.old.planned run.new.engine result }
    ensures runs { (after : Run) × IsRunOf run.new.engine after }
{
    let mut steps = Steps::<L>::new(blank);
    for index in 0..count {
        if let Err(NotLegal) = run.step(&mut steps) {
            return Some(index as u32 + 1);
        }
    }
    None
}
