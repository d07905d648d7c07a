//! The cleanup handlers of a thread (pthread_cleanup_push, pthread_cleanup_pop). No call allocates memory.
#![tactic(auto)]

mod handlers;

pub use handlers::{Full, Handlers};
