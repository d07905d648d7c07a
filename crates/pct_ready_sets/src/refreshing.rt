//! Looking again at the slots that are stale.

ghost use Rattle.std.specs.Prelude.{◌≡◌, ◌<◌, []};
ghost use Rattle.pct_model.specs.Formats.{has_timeouts};
ghost use Rattle.pct_set.specs.Slots.{without_slot};
ghost use Rattle.pct_transitions.specs.ProcessSteps.{with_data};
ghost use Rattle.pct_ready_sets.specs.ReadyConditions.{condition_of_slot, Follows};

use crate::ready_sets::ReadySets;
use pct_process::ProcessState;
use pct_step_context::Program;
use pct_threads::Steps;
use pct_transitions::{ReadyWhen, ready_when};
use std::marker::Brand;
use std::sync::ledger::{Blank, Ledger};

/// Looks again at each slot that is stale. None is stale afterwards.
pub(crate) fn refresh(program: &Program, process: &ProcessState, sets: &mut ReadySets)
    requires { Follows program.now.script (has_timeouts program.now.config.format) (with_data process.now) sets.old }
    ensures follows { Follows program.now.script (has_timeouts program.now.config.format) (with_data process.now) sets.new }
    ensures fresh { sets.new.stale ≡ [] }
{
    let mut rest = sets.stale();
    // A set is determined by its slots.
    let _count = rest.len();
    while let Some(slot) = rest.nth(0) {
        refresh_slot(program, process, sets, slot);
        rest.remove(slot);
    }
}

// Looks again at a slot. It is not stale afterwards.
fn refresh_slot(program: &Program, process: &ProcessState, sets: &mut ReadySets, slot: u32)
    requires slot { slot < 64 }
    requires follows { Follows program.now.script (has_timeouts program.now.config.format) (with_data process.now) sets.old }
    ensures follows { Follows program.now.script (has_timeouts program.now.config.format) (with_data process.now) sets.new }
    ensures stale { sets.new.stale ≡ without_slot slot sets.old.stale }
{
    // There are 64 conditions.
    let _stale = sets.stale();
    let condition = condition_of::<Brand>(program, process, slot, Blank::new(1));
    sets.put(slot, condition);
}

// The condition under which the thread on a slot has a choice; without a thread none ever has. The records that it reads are counted from
// 0 on.
fn condition_of<L: Ledger>(
    program: &Program,
    process: &ProcessState,
    slot: u32,
    blank: Blank,
) -> ReadyWhen
    requires slot { slot < 64 }
    requires name { blank.name ≡ L.name }
    requires parts { blank.parts ≡ L.parts }
    requires some { 0 < blank.parts }
    ensures { result ≡ condition_of_slot program.now.script (has_timeouts program.now.config.format) (with_data process.now) slot }
{
    if process.occupied().contains(slot) {
        ready_when(program, process, slot, &mut Steps::<L>::new(blank))
    } else {
        ReadyWhen::Never
    }
}
