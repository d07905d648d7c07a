//! The jump table of a script: `Jumps` finds the statement that closes a block, and the one that opened it.
#![tactic(auto)]

mod jump_table;

pub use jump_table::Jumps;
