//! The shared host: workers step one run, one at a time under a turn.
#![tactic(auto)]

mod pass;
mod shared;
mod turns;
mod view;
mod worker;

pub use pass::Pass;
pub use shared::{Shared, Turn};
pub use worker::Worker;
