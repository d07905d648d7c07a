//! The theorems that join the engine's tables to the state of the machine. The crate has no code that runs: the engine cites
//! its definitions and lemmas.
#![tactic(auto)]

mod law;

pub use law::seen_parts_decide;
