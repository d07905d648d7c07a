//! The state of a thread.

/// A cancelability state (XSH 2.9.5.1, pthread_setcancelstate).
#[derive(Clone, Copy, Debug, PartialEq, Eq)]
pub enum State {
    Enable,
    Disable,
}

/// A cancelability type (XSH 2.9.5.1, pthread_setcanceltype).
#[derive(Clone, Copy, Debug, PartialEq, Eq)]
pub enum Mode {
    Deferred,
    Asynchronous,
}

/// The phase of a fork: which fork handlers it runs (XSH pthread_atfork).
#[derive(Clone, Copy, Debug)]
pub enum Phase {
    Prepare,
    Parent,
    Child,
}

/// Why a thread is no longer blocked on a condition variable.
#[derive(Clone, Copy, Debug)]
pub enum Cause {
    Signalled,
    Broadcast,
    Canceled,
    /// The time of pthread_cond_timedwait expired.
    TimedOut,
}

/// The state of a once control (XSH pthread_once).
#[derive(Clone, Copy, Debug, Default)]
pub enum OnceState {
    /// The init routine was not called, or it is as if it was not.
    #[default]
    Fresh,
    /// The thread with this id called the init routine, which has not returned.
    Busy(u32),
    /// The init routine has returned.
    Done,
}

/// Why a thread began to end; `None` for a thread that did not.
#[derive(Clone, Copy, Debug)]
pub enum Reason {
    None,
    Exit(u32),
    Canceled,
}

/// The status of a thread.
#[derive(Clone, Copy, Debug)]
pub enum Status {
    Running,
    /// Suspended at the cancellation point with this index.
    AtPoint(u32),
    /// Suspended in pthread_join, for the thread with this id.
    Joining(u32),
    /// Suspended in sem_wait or sem_timedwait, for the semaphore with this index.
    InSem(u32),
    /// Suspended in waitpid, for the process with this id.
    InWaitPid(u32),
    /// Suspended in pthread_cond_wait or pthread_cond_timedwait, with the indexes of the condition variable and the mutex.
    Waiting(u32, u32),
    /// The same, until it owns the mutex again.
    Reacquire(u32, u32, Cause),
    Ending,
    /// In fork.
    Forking(ForkAt),
    Exiting,
    Ended(u32),
}

/// How far a thread is in a fork.
#[derive(Clone, Copy, Debug)]
pub struct ForkAt {
    pub phase: Phase,
    /// Before the fork, the handlers of the registrations below this index are left; after it, those from this index on.
    pub next: u32,
    /// The number of registrations of fork handlers as fork was called.
    pub length: u32,
    /// The id of the child. It is 0 before the fork, after one that failed, and in the child itself.
    pub answer: u32,
}

/// Why a function was called.
#[derive(Clone, Copy, Debug, Default)]
pub enum FrameKind {
    /// It is `main`, in the initial thread.
    Main,
    /// It is the start routine of a thread.
    Start,
    /// By the statement `do`.
    #[default]
    Call,
    /// A cleanup handler, by pthread_cleanup_pop.
    PopHandler,
    /// A cleanup handler, as the thread ends.
    Handler,
    /// A destructor of thread-specific data, as the thread ends.
    Destructor,
    /// A fork handler, by fork.
    ForkFn,
    /// A function registered by atexit, by exit.
    ExitFn,
    /// An init routine, by pthread_once of the once control with this index.
    OnceFn(u32),
}
