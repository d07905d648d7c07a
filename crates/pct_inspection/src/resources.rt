//! What an inspection takes from its surroundings.

use std::alloc::Global;

/// Threads and memory.
#[derive(Drop)]
pub(crate) struct Resources<'a, R> {
    pub(crate) rt: &'a R,
    pub(crate) alloc: Global,
}
