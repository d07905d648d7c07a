//! What the law of handlers that ran needs to know of the events so far, whoever wrote them.
#![tactic(auto)]

mod events;
mod left;
mod monitor;
mod ran;

pub use monitor::HandlerMonitor;
