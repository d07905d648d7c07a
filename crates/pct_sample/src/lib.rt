//! Runs of one script under many seeds, and what is counted of them.
#![tactic(auto)]

mod law;
mod sampling;
mod seed_run;

pub use law::{seeds_are_options, sums_are_tallies, tallies_are_one};
pub use sampling::sample;
pub use seed_run::run_again;
