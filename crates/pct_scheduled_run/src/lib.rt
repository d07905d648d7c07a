//! Runs that go on as a scheduler chooses: a worker steps an engine, and the two numbers of each turn choose the entry.
#![tactic(auto)]

mod continuing;
mod scheduler;
mod stream;

pub use continuing::continue_run;
pub use scheduler::Scheduler;
pub use stream::stream_of;
