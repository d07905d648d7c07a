//! The laws of runs, and the invariant of the states that they reach. A law of events is a test of an event against those before
//! it, or of a list whose events of one kind are directly followed by others. The crate has no code but the stages of condition waits.
#![tactic(auto)]

mod stage;

pub use stage::WaitStage;
