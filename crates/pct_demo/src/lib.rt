//! What the command `demo` does with a script: the run whose choices are made by the number of its entries, and the summary of such a
//! run.
#![tactic(auto)]

mod counted_run;
mod summary;

pub use counted_run::run_counted;
pub use summary::write_summary;
