//! The events of a run. Its trace is the list of them, and the report has one line for each.

use crate::stop::Why;

/// A call whose failure is an event, with the error number.
#[derive(Clone, Copy)]
pub enum Caller {
    Create,
    KeyCreate,
    AtFork,
    Fork,
    WaitPid,
    AtExit,
    CondTimedWait,
    SemTimedWait,
}

/// What happened. Functions, mutexes, condition variables, semaphores and once controls are given by their indexes in the script, and
/// cancellation points by their indexes in the table of points.
#[derive(Clone, Copy)]
pub enum What {
    Emit(u32),
    Created { id: u32, detached: bool },
    Answer { call: Caller, number: u32 },
    Pushed(u32, u32),
    Popped { f: u32, a: u32, run: bool },
    Request(u32),
    Detached(u32),
    StateSet(bool),
    ModeSet(bool),
    Called(u32),
    Done(u32),
    Joined(u32, u32),
    EndingExit(u32),
    EndingCanceled,
    EndingInWait(u32, u32),
    HandlerRun(u32, u32),
    PassBegun(u32),
    DtorRun { pass: u32, key: u32, f: u32, v: u32 },
    Leftover(u32),
    EndedWith(u32),
    KeyMade(u32),
    KeyGone(u32),
    Acquired(u32),
    Released(u32),
    Signalled(u32, u32),
    BroadcastTo(u32, u32),
    WaitCanceled(u32),
    WaitExpired(u32),
    HandedOn(u32, u32),
    Taken(u32),
    Posted(u32),
    OnceCalled(u32),
    OnceDone(u32),
    Forked(u32),
    PrepareRun(u32),
    ParentRun(u32),
    ChildRun(u32),
    ExitBegun(u32),
    ExitRun(u32),
    ProcessEnded(u32),
    Reaped(u32, u32),
    Stopped(Why),
}

/// An event of a thread of a process.
#[derive(Clone, Copy)]
pub struct Event {
    pub pid: u32,
    pub tid: u32,
    pub what: What,
}
