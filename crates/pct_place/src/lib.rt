//! One process of a run: its steps, its threads that are ready, and how it is shown.
#![tactic(auto)]

mod place;
mod process_view;
mod scheduler;

pub use place::Place;
pub use process_view::ProcessView;
pub use scheduler::Draw;
