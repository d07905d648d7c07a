//! The generated scripts: `generate` makes the script of a number.
#![tactic(auto)]

mod calls;
mod functions;
mod names;
mod script;

pub use script::generate;
