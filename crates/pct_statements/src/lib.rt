//! The transitions of the other statements: those of the language itself, the creation and the join of threads, semaphores,
//! thread-specific data keys, pthread_once, and the exit of a process. Nothing is changed here.
#![tactic(auto)]

pub mod key_calls;
pub mod once_calls;
pub mod process_exit;
pub mod script_statements;
pub mod sem_calls;
pub mod thread_calls;
