//! The slots that a transition makes stale.

ghost use Rattle.std.specs.Prelude.{◌≡◌, ◌≤◌};
ghost use Rattle.pct_model.specs.declared.limits.TheConstants.{MAX_SLOTS};
ghost use Rattle.pct_set.specs.Slots.{slots_where};
ghost use Rattle.pct_ready_sets.specs.ReadyConditions.{touches, creates_on, names_slot};

use crate::ready_sets::only;
use pct_model::{NamedAction, NewThread, Transition};
use pct_set::SlotSet;
use pct_threads::slot_of;

/// The slots whose threads can have a choice under another condition after a transition of the thread with an id, in a process with 1 to
/// 64 slots: that of the thread itself, that of a thread that it creates, and those of the threads that it changes.
#[inline]
pub(crate) fn touched_slots(slots: u32, tid: u32, transition: &Transition) -> SlotSet
    requires some { 1 ≤ slots }
    requires few { slots ≤ MAX_SLOTS }
    ensures { result ≡ slots_where (touches slots tid transition.now) }
{
    let named = named_slots(slots, transition.named);
    let changed = created_slots(slots, transition.created).union(&named);
    only(slot_of(slots, tid)).union(&changed)
}

// The slots of the threads that an action names.
#[inline]
fn named_slots(slots: u32, named: Option<NamedAction>) -> SlotSet
    requires some { 1 ≤ slots }
    requires few { slots ≤ MAX_SLOTS }
    ensures { result ≡ slots_where (λ k. names_slot slots k named) }
{
    match named {
        None | Some(NamedAction::ForgetKey(_)) => SlotSet::new(),
        Some(
            NamedAction::EndJoin(id)
            | NamedAction::Request(id)
            | NamedAction::Detach(id)
            | NamedAction::Wake(id),
        ) => only(slot_of(slots, id)),
        Some(NamedAction::WakeAll(_)) => SlotSet::all(),
    }
}

// The slot of the thread that is created, if one is.
#[inline]
fn created_slots(slots: u32, created: Option<NewThread>) -> SlotSet
    requires some { 1 ≤ slots }
    requires few { slots ≤ MAX_SLOTS }
    ensures { result ≡ slots_where (λ k. creates_on slots k created) }
{
    match created {
        None => SlotSet::new(),
        Some(new) => only(slot_of(slots, new.id)),
    }
}
