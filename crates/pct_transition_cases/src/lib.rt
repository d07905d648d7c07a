//! The cases of the transition table: what a transition can be, for each statement and status of a thread. The crate has no
//! code: it holds lemmas on the definitions of pct_model, which the proofs of other crates use.
#![tactic(auto)]
