//! The names of threads.

/// A thread of a process, written `PID.TID`.
#[derive(Clone, Copy)]
pub(crate) struct ThreadId {
    pub(crate) process: usize,
    pub(crate) thread: usize,
}

impl ThreadId {
    /// The thread with which a run begins.
    pub(crate) const MAIN: ThreadId = ThreadId {
        process: 1,
        thread: 1,
    };

    /// The thread that this text names. It is none that is there where the text is not of the form `PID.TID`.
    pub(crate) fn parse(text: &str) -> ThreadId {
        let (process, thread) = text.split_once('.').unwrap_or(("", ""));
        ThreadId {
            process: number_in(process),
            thread: number_in(thread),
        }
    }

    /// The number of characters of `PID.TID`.
    pub(crate) fn len(self) -> usize {
        digits(self.process)
            .saturating_add(digits(self.thread))
            .saturating_add(1)
    }
}

/// The number that a text is. It is 0, the number of no process and of no thread, if the text is none.
pub(crate) fn number_in(text: &str) -> usize {
    text.parse().unwrap_or(0)
}

fn digits(number: usize) -> usize {
    match number.checked_ilog10() {
        None => 1,
        Some(power) => (power as usize).saturating_add(1),
    }
}
