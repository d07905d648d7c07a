//! The numbers that POSIX names and leaves to a host, as this host has them: the errors that a call returns, and an exit value.

/// There is no room for one more now (XSH 2.3).
pub const EAGAIN: u32 = 1;
/// There is no memory for one more (XSH 2.3).
pub const ENOMEM: u32 = 2;
/// There is no such child process (XSH 2.3).
pub const ECHILD: u32 = 3;
/// The time of a wait expired (XSH 2.3).
pub const ETIMEDOUT: u32 = 4;
/// The exit value of a thread that was canceled (XSH pthread_join, 2.9.5.3).
pub const PTHREAD_CANCELED: u32 = 4_294_967_295;
