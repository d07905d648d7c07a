//! Numbers of names, by the order of their first occurrences.
#![tactic(auto)]

mod name_numbers;

pub use name_numbers::NameNumbers;
