//! The kinds of lines in a script, and the kinds of their arguments.

/// What a declaration declares.
#[derive(Clone, Copy)]
pub enum SymbolKind {
    Global,
    Mutex,
    Cond,
    Sem,
    Once,
    Function,
}

/// The kind of an argument: which words are allowed, and what a name refers to.
#[derive(Clone, Copy)]
pub enum ArgumentKind {
    /// A name that the line declares in the script.
    Declared,
    /// The name of a local of the function that the line declares; the first is its parameter.
    Local,
    /// The initial count of a semaphore.
    Count,
    /// A value: a number, or the name of a variable.
    Operand,
    /// The name of a variable.
    Variable,
    /// The name of a variable that gets a value, or `-` where the value is dropped.
    Dest,
    /// The name of a function, mutex, condition variable, semaphore or once control.
    Item(SymbolKind),
    /// The name of a function, or `-` where there is none.
    OptionalFunction,
    /// The name of a plain function.
    PlainFunction,
    /// The name of a plain function, or `-` where there is none.
    OptionalPlainFunction,
    /// `enable` or `disable`.
    State,
    /// `asynchronous` or `deferred`.
    Mode,
    /// `detached`.
    Detached,
}

/// The kind of a line: a declaration, or a statement.
#[derive(Clone, Copy)]
pub enum LineKind {
    Declares(SymbolKind),
    Emit,
    Set,
    Add,
    Nop,
    If,
    Else,
    While,
    End,
    Do,
    Return,
    /// pthread_create
    Create,
    /// pthread_join
    Join,
    /// pthread_detach
    Detach,
    /// pthread_cancel
    CancelThread,
    /// pthread_self
    SelfId,
    /// pthread_exit
    ThreadExit,
    /// pthread_testcancel
    TestCancel,
    /// pthread_setcancelstate
    SetState,
    /// pthread_setcanceltype
    SetMode,
    /// pthread_cleanup_push
    Push,
    /// pthread_cleanup_pop
    Pop,
    /// pthread_key_create
    KeyCreate,
    /// pthread_key_delete
    KeyDelete,
    /// pthread_setspecific
    SetSpecific,
    /// pthread_getspecific
    GetSpecific,
    /// pthread_mutex_lock
    Lock,
    /// pthread_mutex_unlock
    Unlock,
    /// pthread_cond_wait
    CondWait,
    /// pthread_cond_timedwait
    CondTimedWait,
    /// pthread_cond_signal
    Signal,
    /// pthread_cond_broadcast
    Broadcast,
    /// sem_wait
    SemWait,
    /// sem_timedwait
    SemTimedWait,
    /// sem_post
    SemPost,
    /// pthread_once
    CallOnce,
    /// pthread_atfork
    AtFork,
    /// fork
    Fork,
    /// waitpid
    WaitPid,
    /// atexit
    AtExit,
    /// exit
    ProcExit,
    /// _exit
    ProcExitNow,
    /// A generic cancellation point, by its index in the table of points. Its keyword is its name, and it has no
    /// arguments.
    Point(u32),
}

/// The line kinds with a keyword of their own, in the order of `line_kinds`: all but the cancellation points.
pub static LINE_KINDS: [LineKind; 47] = [
    LineKind::Declares(SymbolKind::Global),
    LineKind::Declares(SymbolKind::Mutex),
    LineKind::Declares(SymbolKind::Cond),
    LineKind::Declares(SymbolKind::Sem),
    LineKind::Declares(SymbolKind::Once),
    LineKind::Declares(SymbolKind::Function),
    LineKind::Emit,
    LineKind::Set,
    LineKind::Add,
    LineKind::Nop,
    LineKind::If,
    LineKind::Else,
    LineKind::While,
    LineKind::End,
    LineKind::Do,
    LineKind::Return,
    LineKind::Create,
    LineKind::Join,
    LineKind::Detach,
    LineKind::CancelThread,
    LineKind::SelfId,
    LineKind::ThreadExit,
    LineKind::TestCancel,
    LineKind::SetState,
    LineKind::SetMode,
    LineKind::Push,
    LineKind::Pop,
    LineKind::KeyCreate,
    LineKind::KeyDelete,
    LineKind::SetSpecific,
    LineKind::GetSpecific,
    LineKind::Lock,
    LineKind::Unlock,
    LineKind::CondWait,
    LineKind::CondTimedWait,
    LineKind::Signal,
    LineKind::Broadcast,
    LineKind::SemWait,
    LineKind::SemTimedWait,
    LineKind::SemPost,
    LineKind::CallOnce,
    LineKind::AtFork,
    LineKind::Fork,
    LineKind::WaitPid,
    LineKind::AtExit,
    LineKind::ProcExit,
    LineKind::ProcExitNow,
];
