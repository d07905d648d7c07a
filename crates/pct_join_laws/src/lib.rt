//! Every run keeps the laws of joins, and of the ids and slots of new threads, and the clauses of the invariant on known, joined,
//! detached and joining threads. The crate has no code.
#![tactic(auto)]
