//! Rows of the definitions that no run of the program can show: lists of events that the laws of runs refuse, contents that no
//! text spells, states that no run reaches. And two worked examples, from the text of a script to the report of its
//! run. Each file in `proofs/` has a group of rows, which the prover computes: a wrong expected value is a compile error. No other
//! crate depends on these, so that a reader can check the definitions without checking the host.
#![tactic(auto)]

mod examples;

pub use examples::worked_examples;
