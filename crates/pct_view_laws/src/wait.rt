//! What a thread waits for.

/// What a thread waits for: the event that has to occur before it has the choice `go`.
#[derive(Clone, Copy)]
pub enum Wait {
    /// The unlock of a mutex: its index, and the id of the thread that owns it.
    Mutex { mutex: u32, owner: u32 },
    /// The return of the init routine of a once control: its index, and the id of the thread that called the routine.
    Once { once: u32, caller: u32 },
    /// The end of the thread of its process with this id.
    Thread(u32),
    /// The end of the process with this id.
    Process(u32),
    /// A post of the semaphore with this index.
    Semaphore(u32),
    /// A signal or a broadcast of the condition variable with this index.
    Condition(u32),
    /// A signal, which is never delivered.
    Signal,
}
