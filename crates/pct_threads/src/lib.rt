//! The table of the threads of one process: the slots, and the thread that holds each (XSH 2.9, pthread_create,
//! pthread_join, pthread_detach). Only `Threads::new` allocates memory.
#![tactic(auto)]

mod frame_ref;
mod frame_words;
mod held;
mod record;
mod row;
mod steps;
mod threads;

pub use frame_ref::{FrameRef, Frames};
pub use record::{Place, Thread};
pub use row::MAX_DEPTH;
pub use steps::Steps;
pub use threads::{Threads, slot_of};
