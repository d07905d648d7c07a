//! The theorem that the report of every run keeps each law that is about events alone.
#![tactic(auto)]

mod law;

pub use law::reports_of_runs_keep_laws;
