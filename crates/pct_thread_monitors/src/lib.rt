//! The monitors of two laws of events: that of requests, and that of what follows the end of a thread. A monitor is what is kept of the
//! events so far, of any report, to decide a law at the next event.
#![tactic(auto)]

mod after_end;
mod monitor;
mod note;
mod requests;

pub use monitor::ThreadMonitor;
