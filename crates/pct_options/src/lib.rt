//! Reads the options of the command `run`, and the text of a seed. No call allocates memory.
#![tactic(auto)]

mod given_values;
mod option_text;
mod reading;

pub use option_text::read_seed;
pub use reading::read_options;
