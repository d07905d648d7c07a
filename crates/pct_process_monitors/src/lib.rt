//! What is kept of the events so far to decide at the next event whether the laws of keys and of processes allow it; and the test of the
//! events that values are left. The events are any list, whoever wrote them.
#![tactic(auto)]

mod changes;
mod facts;
mod keys;
mod leftovers;
mod processes;

pub use facts::ThreadFacts;
pub use keys::KeyMonitor;
pub use leftovers::first_unfollowed;
pub use processes::ProcessMonitor;
