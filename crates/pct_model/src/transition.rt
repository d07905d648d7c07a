//! Transitions of the machine: what a thread does in one step.

use crate::event::What;
use crate::process::ForkHandlers;
use crate::state::{ForkAt, FrameKind, Mode, OnceState, Reason, State, Status};
use crate::statement::Dest;
use crate::stop::Why;
use crate::up_to_three::UpToThree;

/// An action of a thread on itself. As it begins to end, the once controls that are busy with it change, too.
#[derive(Clone, Copy)]
pub enum OwnAction {
    /// It calls a function with an argument, and runs in the new frame.
    Call {
        func: u32,
        arg: u32,
        kind: FrameKind,
    },
    /// Its newest cleanup handler, this function and this argument, is removed and called.
    CallHandler(u32, u32),
    /// The same, as the thread ends: the new frame is its only one.
    RunHandler(u32, u32),
    /// The key with this number is taken out of its pass, its value of the key becomes NULL, and the destructor is called with the value:
    /// the new frame is its only one.
    RunDestructor {
        key: u32,
        func: u32,
        value: u32,
    },
    /// A function that was registered with atexit is called: the new frame is its only one.
    RunExitFunction(u32),
    /// A fork handler is called. The thread keeps these values of its fork while it is in it.
    CallForkHandler(ForkAt, u32),
    /// It leaves its top frame and gets this status.
    Leave(Status),
    /// It gets this status: it is suspended in a call, or is in fork.
    SetStatus(Status),
    /// A cleanup handler is pushed: a function and its argument.
    PushHandler(u32, u32),
    /// Its newest cleanup handler is removed.
    PopHandler,
    /// It gets a cancelability state.
    SetState(State),
    /// It gets a cancelability type.
    SetMode(Mode),
    /// Its value of the key with this number becomes the second number.
    SetSpecific(u32, u32),
    /// It begins a pass over the destructors of its thread-specific data.
    BeginPass,
    /// It begins to end, for a reason: it leaves all its frames, and its cancelability is disabled and deferred. Each once control that is
    /// busy with it is fresh again.
    BeginEnd(Reason),
    /// It ends with a value.
    EndThread(u32),
    /// It begins to exit its process: it leaves all its frames, and its cancelability is disabled and deferred.
    BeginExit,
    /// The same, of the last thread of a process, which counts as ended.
    EndLast,
}

/// An action on what the threads of a process share.
#[derive(Clone, Copy)]
pub enum SharedAction {
    /// A key of thread-specific data is made: its number, and its destructor, if it has one.
    MakeKey(u32, Option<u32>),
    /// The key with this number is deleted.
    DeleteKey(u32),
    /// The mutex with this index gets another owner: the thread with this id, or none if it is 0.
    OwnMutex(u32, u32),
    /// The semaphore with this index gets this count.
    SetCount(u32, u32),
    /// The once control with this index gets this state.
    SetOnce(u32, OnceState),
    /// Fork handlers are registered.
    AddForkHandlers(ForkHandlers),
    /// A function is registered, to be called as the process exits.
    AddExit(u32),
    /// The newest function that is registered is removed.
    TakeExit,
    /// The exit of the process begins with a value.
    BeginExit(u32),
}

/// An action on threads of the process that it names. The thread itself may be among them.
#[derive(Clone, Copy)]
pub enum NamedAction {
    /// The thread with this id was joined.
    EndJoin(u32),
    /// A cancellation request for the thread with this id is pending, unless that thread has ended.
    Request(u32),
    /// The thread with this id becomes detached.
    Detach(u32),
    /// The thread with this id is unblocked by a signal, if it waits on a condition variable.
    Wake(u32),
    /// Each thread that waits on the condition variable with this index is unblocked by a broadcast.
    WakeAll(u32),
    /// No thread keeps its value of the key with this number.
    ForgetKey(u32),
}

/// An action on the processes.
#[derive(Clone, Copy)]
pub enum ProcessAction {
    /// The process of the thread ends with a status.
    End(u32),
    /// Its child with this id, which has ended, is reaped.
    Reap(u32),
    /// A child with this id is made. It inherits the thread.
    Make(u32),
}

/// A new thread (pthread_create): its id, whether it is detached, its start routine and the argument.
#[derive(Clone, Copy)]
pub struct NewThread {
    pub id: u32,
    pub detached: bool,
    pub func: u32,
    pub arg: u32,
}

/// A transition: the program counter at which the thread goes on, if it does; the values that are written to locals of its top frame and
/// to globals, in order; the thread that it creates, its actions and the stop of the run, if there are any; and its events, in order.
#[derive(Drop)]
pub struct Transition {
    pub next: Option<u32>,
    pub writes: UpToThree<(Dest, u32)>,
    pub own: Option<OwnAction>,
    pub created: Option<NewThread>,
    pub shared: Option<SharedAction>,
    pub named: Option<NamedAction>,
    pub process: Option<ProcessAction>,
    pub stop: Option<Why>,
    pub events: UpToThree<What>,
}
