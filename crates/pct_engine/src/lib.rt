//! The engine: a run of a script, step by step.
#![tactic(auto)]

mod engine;
mod planned_run;
mod trace;

pub use engine::{Engine, NotLegal};
pub use planned_run::PlannedRun;
