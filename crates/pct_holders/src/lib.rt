//! The threads that hold their slots.
#![tactic(auto)]

mod holders;

pub use holders::Holders;
