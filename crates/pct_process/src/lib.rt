//! The data of one process: its threads, and what they share.
#![tactic(auto)]

mod exit_functions;
mod family;
mod fork_registrations;
mod process_state;
mod relatives;
mod standings;
mod values;

pub use exit_functions::ExitFunctions;
pub use family::Family;
pub use fork_registrations::ForkRegistrations;
pub use process_state::ProcessState;
pub use relatives::Relatives;
pub use standings::{Standing, Standings, standing_of};
pub use values::{Numbers, OnceControls, Values};
