//! A map from numbers to numbers for each process, which a fork copies.
#![tactic(auto)]

mod process_maps;

pub use process_maps::ProcessMaps;
