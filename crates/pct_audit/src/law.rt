//! The laws that are judged.

/// A law, in the order in which the laws are asked.
#[derive(Clone, Copy)]
pub enum Law {
    /// The law of cleanup handlers and destructors: each runs at most once, the newest handler first.
    Once,
    /// The law of thread ids and slots.
    Slot,
    /// The law of joins.
    Join,
    /// The law of mutexes and condition waits.
    Cond,
    /// The law of pthread_once.
    CallOnce,
}

/// The first event at which a law fails, and the first law that fails there. Events are numbered from 1.
#[derive(Clone, Copy)]
pub struct AuditFault {
    pub event: u32,
    pub law: Law,
}
