//! Every run keeps the law of processes, and the clauses of the invariant on the ends of processes and on forks. The crate has no
//! code.
#![tactic(auto)]
