//! The tests of `command` and `answer` that cannot be cases of pct_cases: reads and writes that fail, words that no line has,
//! inputs in memory, several workers, and gates.
#![tactic(auto)]

#[cfg(test)]
mod failing_streams;
#[cfg(test)]
mod in_memory;
#[cfg(test)]
mod workers;
