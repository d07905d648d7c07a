//! Errors of sources, sinks and the allocator.
ghost use Rattle.std.specs.Prelude.{◌≡◌};
ghost use Rattle.pct_io.specs.declared.failed.ReadEnd.TheVariants as read_end;

use std::alloc::{AllocError, AllocFailed};

/// A read or a write failed. The source or sink has recorded the error.
#[derive(Clone, Copy, Debug, PartialEq, Eq)]
pub struct Failed;

/// Out of memory.
#[derive(Clone, Copy, Debug, PartialEq, Eq)]
pub struct NoMemory;

impl From<AllocError> for NoMemory {
    fn from(_: AllocError) -> Self {
        NoMemory
    }
}

impl<T: Drop> From<AllocFailed<T>> for NoMemory {
    fn from(_: AllocFailed<T>) -> Self {
        NoMemory
    }
}

/// Why `read_all` returns no bytes.
#[derive(Clone, Copy, Debug, PartialEq, Eq)]
pub enum ReadEnd {
    /// A read failed.
    Failed,
    /// The input has more bytes than the limit.
    TooLong,
    /// There was not enough memory to hold the bytes.
    NoMemory,
}

impl From<Failed> for ReadEnd {
    ghost from_gives = { λ _ e. e ≡ read_end.Failed };

    fn from(_: Failed) -> Self {
        ReadEnd::Failed
    }
}

impl From<AllocError> for ReadEnd {
    ghost from_gives = { λ _ e. e ≡ read_end.NoMemory };

    fn from(_: AllocError) -> Self {
        ReadEnd::NoMemory
    }
}
