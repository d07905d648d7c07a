//! The audit of the events of a report: the first event at which one of five laws fails, whoever wrote the report.
#![tactic(auto)]

mod auditor;
mod changes;
mod cleanup;
mod conds;
mod controls;
mod destroyed;
mod joins;
mod judge;
mod law;
mod rows;
mod slots;
mod snapshot;
mod stacks;

pub use auditor::audit;
pub use judge::Judge;
pub use law::{AuditFault, Law};
pub use stacks::Stacks;
