//! Sets of slots. No call allocates memory.
#![tactic(auto)]

mod keyed_sets;
mod slot_set;

pub use keyed_sets::{KEYS, KeyedSets, NO_KEY};
pub use slot_set::SlotSet;
