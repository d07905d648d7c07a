//! Every run keeps the law of pthread_once, and the clauses of the invariant on once controls and on the threads in their init routines.
//! The crate has no code.
#![tactic(auto)]
