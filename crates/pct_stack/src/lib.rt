//! Memory for the stacks of threads: a block of slots of equal size, which are taken and given back.
#![tactic(auto)]

mod cells;
mod grid;
mod stack_block;
mod words;
mod words_from;

pub use stack_block::StackBlock;
pub use words_from::WordsFrom;
