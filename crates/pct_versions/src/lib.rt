//! Persistent maps from numbers to numbers: a change makes a new map, which shares what it can with the map before it.
#![tactic(auto)]

mod versions;

pub use versions::Versions;
