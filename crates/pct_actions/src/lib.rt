//! What a transition changes in a process.
#![tactic(auto)]

mod made;
mod named_threads;
mod own_actions;
mod own_frames;
mod own_record;
mod own_thread;
mod shared_actions;
mod stand;

pub use made::make;
