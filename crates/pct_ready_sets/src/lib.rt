//! The threads that have a choice, by what their choices depend on: sets of the slots of a process that a step of one thread changes in few
//! places, so that the other threads need not be asked before each step.
#![tactic(auto)]

mod all_ready_sets;
mod known_slots;
mod ready_sets;
mod refreshing;
mod touched_slots;

pub use all_ready_sets::AllReadySets;
pub use known_slots::ready_slots;
pub use ready_sets::ReadySets;
