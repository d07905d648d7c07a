//! The data of a thread in a table: its record, and its place.

ghost use Rattle.std.specs.Prelude.{◌≡◌};
ghost use Rattle.pct_model.specs.CondCalls.{is_waiting_on};
ghost use Rattle.pct_threads.specs.Records.{new_record};

use pct_cancel::Cancel;
use pct_cleanup::Handlers;
use pct_model::{ForkAt, Reason, Status};

/// The record of a thread (XSH 2.9): the part of its state that `Threads::write` lends for changes.
#[derive(Clone, Debug, Drop)]
pub struct Thread {
    pub status: Status,
    /// The cancelability state and type, and whether a request is pending (XSH 2.9.5).
    pub cancel: Cancel,
    /// The cleanup handlers.
    pub handlers: Handlers,
    /// Why the thread began to end.
    pub reason: Reason,
    /// The number of the current pass over the destructors, 0 before the first.
    pub pass: u32,
    /// The values of a fork in progress, while one of its fork handlers runs.
    pub kept: Option<ForkAt>,
    /// The thread has ended. This stays true where the last thread of a process goes on to exit it.
    pub ended: bool,
}

/// The place of a thread: the part of its state that calls of `Threads` alone change.
#[derive(Clone, Copy, Debug, PartialEq, Eq)]
pub struct Place {
    pub id: u32,
    pub detached: bool,
    /// The number of frames.
    pub depth: u32,
}

impl Thread {
    /// The record of a new thread: running, cancelability enabled and deferred, no request pending, no handlers
    /// (pthread_create, pthread_setcancelstate).
    pub(crate) fn new() -> Thread
        ensures { result ≡ new_record }
    {
        Thread {
            status: Status::Running,
            cancel: Cancel::new(),
            handlers: Handlers::new(),
            reason: Reason::None,
            pass: 0,
            kept: None,
            ended: false,
        }
    }

    /// Whether the thread waits on the condition variable with this index.
    pub fn is_waiting_on(&self, cond: u32) -> bool
        ensures { result ≡ is_waiting_on cond self.now.status }
    {
        match self.status {
            Status::Waiting(waited, _) => waited == cond,
            _ => false,
        }
    }

    /// A copy of the record.
    pub(crate) fn copy(&self) -> Thread
        ensures { result ≡ self.now }
    {
        match self.clone() {
            Ok(copy) => copy,
            Err(_) => unreachable!(),
        }
    }
}
