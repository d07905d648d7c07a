//! The transitions of cancellation and of what it goes through: cancelability, condition variables and their mutexes, cleanup
//! handlers, the end of a thread with its destructors, fork and its handlers. Nothing is changed here.
#![tactic(auto)]

pub mod cancel_calls;
pub mod cleanup_handlers;
pub mod cond_calls;
pub mod fork_calls;
pub mod mutex_calls;
pub mod thread_ends;
pub mod transitions;
