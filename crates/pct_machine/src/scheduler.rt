//! The seats of threads among several processes, and what a number chooses of the candidates there.

/// Where a thread is, among some places of processes.
#[derive(Clone, Copy)]
pub(crate) struct Seat {
    /// The index of the place of its process.
    pub place: usize,
    /// The slot that it holds.
    pub slot: u32,
}

/// What a number chooses of some candidates and of others before them.
#[derive(Clone, Copy)]
pub(crate) enum Pick {
    /// None, since there are no candidates.
    Nobody,
    /// One of the candidates.
    Here(Seat),
    /// One of those before them, by its index among them.
    Before(u32),
}
