//! The owners of mutexes, and the transitions of pthread_mutex_lock and pthread_mutex_unlock. `next` is the program counter of the next
//! statement.

ghost use Rattle.std.specs.Prelude.{◌≡◌};
ghost use Rattle.pct_model.specs.MutexCalls.{owns, is_free_mutex, locks, unlocks};
ghost use Rattle.pct_model.specs.World.{SharedState};

use crate::transitions::goes_on;
use pct_model::{SharedAction, Transition, UpToThree, What};

/// Whether the thread with an id owns the mutex with this index, by the owners of all mutexes.
pub fn owns(owners: &[u32], mutex: u32, id: u32) -> bool
    ensures { (shared : SharedState) → owners.now ≡ shared.owners → result ≡ owns id mutex shared }
{
    owners.get(mutex as usize).copied().unwrap_or(0) == id
}

/// Whether no thread owns the mutex with this index, by the owners of all mutexes.
pub fn is_free_mutex(owners: &[u32], mutex: u32) -> bool
    ensures { (shared : SharedState) → owners.now ≡ shared.owners → result ≡ is_free_mutex mutex shared }
{
    owns(owners, mutex, 0)
}

/// pthread_mutex_lock of the mutex with this index: the thread with this id owns it.
#[tactic(auto, unfolding(pct_model::specs::MutexCalls::locks))]
pub fn locks(next: u32, mutex: u32, id: u32) -> Transition
    ensures { result ≡ locks next mutex id }
{
    Transition {
        shared: Some(SharedAction::OwnMutex(mutex, id)),
        ..goes_on(next, UpToThree::one(What::Acquired(mutex)))
    }
}

/// pthread_mutex_unlock of the mutex with this index: it has no owner.
#[tactic(auto, unfolding(pct_model::specs::MutexCalls::unlocks))]
pub fn unlocks(next: u32, mutex: u32) -> Transition
    ensures { result ≡ unlocks next mutex }
{
    Transition {
        shared: Some(SharedAction::OwnMutex(mutex, 0)),
        ..goes_on(next, UpToThree::one(What::Released(mutex)))
    }
}
