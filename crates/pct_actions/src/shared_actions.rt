//! What a transition changes in what the threads of a process share, and in the threads that it names.

ghost use Rattle.std.specs.Prelude.{◌≡◌, ◌+◌, ◌≤◌, Some};
ghost use Rattle.pct_model.specs.Actions.{shared_after};
ghost use Rattle.pct_model.specs.Keys.{key_place, without_key};
ghost use Rattle.pct_actions.specs.ProcessChanges.{deleted_key, SharedFits};
ghost use Rattle.pct_actions.specs.ProcessParts.{others_made, taken, OthersFit};
ghost use Rattle.pct_actions.specs.SharedChanges.{forgotten};

use crate::named_threads::act_on_named;
use pct_keys::key_place;
use pct_model::{SharedAction, Transition};
use pct_process::ProcessState;
use pct_threads::Steps;
use std::sync::ledger::Ledger;

/// Makes the change of a transition in what the threads share, and in the threads that it names. A key that is
/// deleted is deleted with all its values.
pub(crate) fn act_on_others<L: Ledger>(
    process: &mut ProcessState,
    transition: &Transition,
    steps: &mut Steps<L>,
)
    requires { OthersFit transition.now process.old }
    ensures made { process.new ≡ others_made transition.now process.old }
    ensures count { steps.new ≤ steps.old + taken transition.now.named process.old.slots }
{
    act_on_shared(process, transition.shared);
    // A process has at most 64 slots.
    let _count = process.slot_count();
    act_on_named(
        &mut process.threads,
        &mut process.standings,
        transition.named,
        steps,
    );
}

// Makes the change of an action, if there is one, in what the threads share.
#[tactic(auto, unfolding(pct_model::specs::Actions::shared_after))]
fn act_on_shared(process: &mut ProcessState, action: Option<SharedAction>)
    requires { SharedFits action process.old.shared }
    ensures { process.new ≡ record { slots = forgotten (deleted_key action) process.old.slots; shared = shared_after action process.old.shared } }
{
    match action {
        None => {}
        Some(SharedAction::MakeKey(key, dtor)) => {
            let _made = process.keys.create(key_place(key), dtor);
        }
        Some(SharedAction::DeleteKey(key)) => delete_key(process, key),
        Some(SharedAction::OwnMutex(mutex, id)) => process.owners.set(mutex, id),
        Some(SharedAction::SetCount(sem, count)) => process.counts.set(sem, count),
        Some(SharedAction::SetOnce(once, state)) => process.onces.set(once, state),
        Some(SharedAction::AddForkHandlers(handlers)) => process.fork_handlers.push(handlers),
        Some(SharedAction::AddExit(func)) => process.exit_functions.push(func),
        Some(SharedAction::TakeExit) => process.exit_functions.pop(),
        Some(SharedAction::BeginExit(value)) => process.exit_value = Some(value),
    }
}

// Deletes a key. No thread keeps its value of it.
fn delete_key(process: &mut ProcessState, key: u32)
    ensures { process.new ≡ record { slots = forgotten (Some key) process.old.slots; shared = record process.old.shared { keys = without_key (key_place key) process.old.shared.keys } } }
{
    process.keys.delete(key_place(key));
}
