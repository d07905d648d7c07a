//! What a transition of a thread changes in its process.

ghost use Rattle.std.specs.Prelude.{◌≡◌, ◌+◌, ◌≤◌, ℕ};
ghost use Rattle.pct_process.specs.ProcessViews.{HoldsOneSlot};
ghost use Rattle.pct_actions.specs.ProcessChanges.{data_moved, woken, Makes};
ghost use Rattle.pct_actions.specs.ProcessParts.{created_made, NewFits};

use crate::own_thread::make_own;
use crate::shared_actions::act_on_others;
use pct_model::{NewThread, Transition};
use pct_process::{ProcessState, Standing};
use pct_threads::Steps;
use std::sync::ledger::Ledger;

/// Makes the changes of a transition of the thread on a slot, which fits the process. The end of the process, a process that is made
/// or reaped, and the stop of the run are not among them. At most two records of threads are lent, and one for each thread that a
/// broadcast wakes.
pub fn make<L: Ledger>(
    process: &mut ProcessState,
    slot: u32,
    transition: &Transition,
    steps: &mut Steps<L>,
)
    requires { Makes slot transition.now process.old }
    ensures made { (tid : ℕ) → HoldsOneSlot tid slot process.old.slots → process.new ≡ data_moved tid transition.now process.old }
    ensures count { steps.new ≤ steps.old + 2 + woken transition.now.named process.old.slots }
{
    // A slot has at most one thread.
    let _count = process.slot_count();
    make_own(process, slot, transition, steps);
    act_on_others(process, transition, steps);
    create(process, transition.created);
}

// Creates the thread that a transition creates, if it does. It has no thread-specific data.
fn create(process: &mut ProcessState, created: Option<NewThread>)
    requires { NewFits created process.old }
    ensures { process.new ≡ created_made created process.old }
{
    if let Some(new) = created {
        let slot = process.threads.slot_of(new.id);
        process
            .threads
            .create(slot, new.func, new.arg, new.detached);
        process.standings.put(slot, Standing::Other, true);
        process.keys.clear_row(slot);
    }
}
