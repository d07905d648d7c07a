//! The tests of the crates below pct_command that no clause and no case of pct_cases can stand for: what streams of std answer, in
//! which order stack slots are handed out, and what the table of a child process has after one call. They stand in a crate of their own,
//! since the tests of a crate prove it a second time.
#![tactic(auto)]

#[cfg(test)]
mod replicas;
#[cfg(test)]
mod stack_slots;
#[cfg(test)]
mod std_streams;
