//! The names that the proofs of the crates above import, in one list: those of the definitions in pct_model and of the kit. The crate has no
//! code.
#![tactic(auto)]
