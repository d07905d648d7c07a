//! The statements of a script: those of the script language, and calls of POSIX functions.

ghost use Rattle.std.specs.Prelude.{◌≡◌};
ghost use Rattle.pct_model.specs.Formats.{is_timed};

/// An operand: a value that a statement reads.
#[derive(Clone, Copy)]
pub enum Operand {
    Num(u32),
    /// A local of the function, by index.
    Local(u32),
    /// A global, by index.
    Global(u32),
}

/// A destination: where a statement writes a value.
#[derive(Clone, Copy)]
pub enum Dest {
    /// The value is dropped.
    Drop,
    Local(u32),
    Global(u32),
}

/// A statement. Functions, mutexes, condition variables, semaphores and once controls are given by their indexes in the script, and
/// cancellation points by their indexes in the table of points.
#[derive(Clone, Copy)]
pub enum Stmt {
    Emit(Operand),
    Set(Dest, Operand),
    Add(Dest, Operand),
    Nop,
    If(Operand),
    Else,
    While(Operand),
    /// Closes an `if`, an `else`, a `while` or the function.
    End,
    Do(u32, Operand),
    Return(Operand),
    /// pthread_create
    Create {
        result: Dest,
        id: Dest,
        func: u32,
        arg: Operand,
        detached: bool,
    },
    /// pthread_join
    Join {
        id: Operand,
        value: Dest,
    },
    /// pthread_detach
    Detach(Operand),
    /// pthread_cancel
    CancelThread(Operand),
    /// pthread_self
    SelfId(Dest),
    /// pthread_exit
    ThreadExit(Operand),
    /// pthread_testcancel
    TestCancel,
    /// pthread_setcancelstate
    SetState {
        enable: bool,
        old: Dest,
    },
    /// pthread_setcanceltype
    SetMode {
        asynchronous: bool,
        old: Dest,
    },
    /// pthread_cleanup_push
    Push(u32, Operand),
    /// pthread_cleanup_pop
    Pop(Operand),
    /// pthread_key_create
    KeyCreate {
        result: Dest,
        key: Dest,
        dtor: Option<u32>,
    },
    /// pthread_key_delete
    KeyDelete(Operand),
    /// pthread_setspecific
    SetSpecific(Operand, Operand),
    /// pthread_getspecific
    GetSpecific(Dest, Operand),
    /// pthread_mutex_lock
    Lock(u32),
    /// pthread_mutex_unlock
    Unlock(u32),
    /// pthread_cond_wait
    CondWait {
        cond: u32,
        mutex: u32,
    },
    /// pthread_cond_timedwait
    CondTimedWait {
        result: Dest,
        cond: u32,
        mutex: u32,
    },
    /// pthread_cond_signal
    Signal(u32),
    /// pthread_cond_broadcast
    Broadcast(u32),
    /// sem_wait
    SemWait(u32),
    /// sem_timedwait
    SemTimedWait {
        result: Dest,
        sem: u32,
    },
    /// sem_post
    SemPost(u32),
    /// pthread_once
    CallOnce {
        once: u32,
        func: u32,
    },
    /// pthread_atfork
    AtFork {
        result: Dest,
        prepare: Option<u32>,
        parent: Option<u32>,
        child: Option<u32>,
    },
    /// fork
    Fork {
        result: Dest,
        child: Dest,
    },
    /// waitpid
    WaitPid {
        result: Dest,
        pid: Operand,
        value: Dest,
    },
    /// atexit
    AtExit {
        result: Dest,
        func: u32,
    },
    /// exit
    ProcExit(Operand),
    /// _exit
    ProcExitNow(Operand),
    /// A generic cancellation point.
    PointCall(u32),
}

impl Stmt {
    /// Whether it is a wait with a time (XSH pthread_cond_timedwait, sem_timedwait).
    pub fn is_timed(&self) -> bool
        ensures { result ≡ is_timed self.now }
    {
        match self {
            Stmt::CondTimedWait { .. } | Stmt::SemTimedWait { .. } => true,
            _ => false,
        }
    }
}
