//! What a process sees of the other processes, and its fork handlers.

/// A process that was not reaped: its id, the id of its parent, 0 if it has none, and its status, if it has ended.
#[derive(Clone, Copy)]
pub struct Relative {
    pub pid: u32,
    pub parent: u32,
    pub ended: Option<u32>,
}

/// The fork handlers of one call of pthread_atfork: functions that fork calls before it, and after it in the parent and in the child.
#[derive(Clone, Copy, Default)]
pub struct ForkHandlers {
    pub prepare: Option<u32>,
    pub parent: Option<u32>,
    pub child: Option<u32>,
}

/// A call of a fork handler: the index of its registration, and the function.
#[derive(Clone, Copy)]
pub struct HandlerCall {
    pub index: u32,
    pub func: u32,
}

/// A child process that was not reaped: its status, if it has ended.
#[derive(Clone, Copy)]
pub struct Child {
    pub ended: Option<u32>,
}
