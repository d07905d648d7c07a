//! What the next step of a thread depends on: the program, where the thread stands in it, how the other threads of its process
//! stand, what they share, and the other processes.
#![tactic(auto)]

mod context;
mod current;
mod other_processes;
mod other_threads;
mod position;
mod program;

pub use context::{Context, Surroundings};
pub use current::{At, is_timed_next, next_of, next_pc, value_of, variable_value};
pub use other_threads::ended_value;
pub use position::Position;
pub use program::Program;
