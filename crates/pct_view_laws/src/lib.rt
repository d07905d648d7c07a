//! What is shown of a run: where a thread is, what it waits for, its choices, and the steps of a run; and the theorems on them. The crate has
//! data and definitions, and no code that runs.
#![tactic(auto)]

mod law;
mod position;
mod wait;

pub use law::views_show_runs;
pub use position::{Position, StepStart};
pub use wait::Wait;
