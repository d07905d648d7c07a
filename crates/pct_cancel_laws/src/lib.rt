//! Every run keeps the law of cancellation and that of mutexes and condition waits, and the clauses of the invariant on requests,
//! cancelability, owners and waits. The crate has no code.
#![tactic(auto)]
