//! Every run keeps the law of wake-ups, which says who is unblocked in a condition wait and what a step leaves of other threads, and the
//! law of what the threads of a process share. The crate has no code.
#![tactic(auto)]
