//! How far a condition wait is.

/// How far the newest condition wait of a thread is, as the events of the thread report it. The flag distinguishes pthread_cond_timedwait
/// from pthread_cond_wait; condition variables and mutexes are given by their indexes in the script.
#[derive(Clone, Copy)]
pub enum WaitStage {
    /// No wait is unfinished.
    NoWait,
    /// The function was called.
    AtCall { timed: bool },
    /// It released this mutex, and has neither acquired it again nor acted upon a request, and its time has not expired.
    InWait { timed: bool, mutex: u32 },
    /// It acquired the mutex again, and returns next.
    ToReturn { timed: bool },
    /// Its time expired, on this condition variable, with this mutex.
    Expired { cond: u32, mutex: u32 },
    /// And it acquired the mutex again, and returns ETIMEDOUT next.
    ToTimeOut,
    /// A request was acted upon: the wait is left, and may hand on a signal.
    Leaving { timed: bool, cond: u32, mutex: u32 },
    /// It is left, and hands on no signal any more.
    Left { timed: bool, cond: u32, mutex: u32 },
    /// It acquired the mutex again, and begins to end next.
    ToEnd { cond: u32, mutex: u32 },
}
