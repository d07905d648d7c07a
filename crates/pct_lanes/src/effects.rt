//! What the events of a step do to threads, mutexes and once controls.

use crate::thread_id::{ThreadId, number_in};
use crate::trace_lines::word_of;

/// What an event does.
#[derive(Clone, Copy)]
pub(crate) enum Event {
    /// It makes a thread.
    Create,
    /// It makes a process, with a replica of the thread of the step.
    Fork,
    /// It requests the end of a thread.
    Request,
    /// It signals a thread, or hands a signal on to it.
    Signal,
    /// It unblocks the threads that wait on a condition variable.
    Broadcast,
    /// The thread of the step has joined a thread.
    Joined,
    /// The thread of the step is suspended in a call.
    Call,
    /// The thread of the step owns a mutex.
    Acquire,
    /// The thread of the step owns a mutex no more.
    Release,
    /// The thread of the step calls the init routine of a once control.
    OnceCall,
    /// The init routine of a once control returns in the thread of the step.
    OnceDone,
    /// The thread of the step begins to end.
    Ending,
    /// The thread of the step has ended.
    Ended,
    /// The process of the step has ended.
    ProcessEnd,
}

/// An event of a step that does something to threads, mutexes or once controls.
#[derive(Clone, Copy)]
pub(crate) struct Effect<'a> {
    pub(crate) event: Event,
    /// What it names: a mutex, a condition variable, a once control, a number, or how the thread ends.
    pub(crate) name: &'a str,
    /// The thread with that number in the process of the step. Of a fork it is the replica, in the process with that number.
    pub(crate) other: ThreadId,
}

// The first word of each. The last word of an event of a once control says which of the two it is.
const EVENTS: [(&str, Event); 14] = [
    ("create", Event::Create),
    ("fork", Event::Fork),
    ("request", Event::Request),
    ("signal", Event::Signal),
    ("handon", Event::Signal),
    ("broadcast", Event::Broadcast),
    ("joined", Event::Joined),
    ("call", Event::Call),
    ("acquire", Event::Acquire),
    ("release", Event::Release),
    ("once", Event::OnceCall),
    ("ending", Event::Ending),
    ("ended", Event::Ended),
    ("process_end", Event::ProcessEnd),
];

impl<'a> Effect<'a> {
    /// The effect of this event of a step that the thread `by` makes. It is `None` for an event that concerns no other thread, no mutex and
    /// no once control, and ends nothing.
    pub(crate) fn parse(text: &'a str, by: ThreadId) -> Option<Effect<'a>> {
        let event = match find_event(word_of(text, 0))? {
            Event::OnceCall if word_of(text, 2) == "done" => Event::OnceDone,
            event => event,
        };
        let name = match event {
            Event::Signal => word_of(text, 2),
            _ => word_of(text, 1),
        };
        let number = number_in(name);
        let other = match event {
            Event::Fork => ThreadId {
                process: number,
                ..by
            },
            _ => ThreadId {
                thread: number,
                ..by
            },
        };
        Some(Effect { event, name, other })
    }
}

fn find_event(name: &str) -> Option<Event> {
    for (word, event) in EVENTS.iter() {
        if *word == name {
            return Some(*event);
        }
    }
    None
}
