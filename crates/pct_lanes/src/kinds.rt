//! The kinds of things in a picture.

use crate::trace_lines::{Step, word_of};

/// A kind of a mark, of an arrow, of an end or of a line.
#[derive(Clone, Copy)]
pub(crate) enum Kind {
    // The marks of steps.
    Step,
    Act,
    Lock,
    Unlock,
    Handler,
    Destructor,
    Stop,
    // The arrows.
    Create,
    Fork,
    Request,
    Signal,
    Join,
    // What lanes have.
    Waiting,
    Owner,
    Ended,
    End,
    ProcessEnd,
    CutOff,
}

/// The number of kinds.
pub(crate) const KIND_COUNT: usize = 18;

/// All kinds, in their order.
pub(crate) const KINDS: [Kind; KIND_COUNT] = [
    Kind::Step,
    Kind::Act,
    Kind::Lock,
    Kind::Unlock,
    Kind::Handler,
    Kind::Destructor,
    Kind::Stop,
    Kind::Create,
    Kind::Fork,
    Kind::Request,
    Kind::Signal,
    Kind::Join,
    Kind::Waiting,
    Kind::Owner,
    Kind::Ended,
    Kind::End,
    Kind::ProcessEnd,
    Kind::CutOff,
];

// The classes of each kind in the document, the form that is drawn at a point, and its words in the legend.
//
// The form is of path data, relative to the point. Of an arrow and of a line it is that in the legend.
const LOOKS: [(&str, &str, &str); KIND_COUNT] = [
    ("mark step", "m-4 0a4 4 0 1 0 8 0a4 4 0 1 0-8 0z", "a step"),
    (
        "mark act",
        "m-4 0a4 4 0 1 0 8 0a4 4 0 1 0-8 0z",
        "acts on a request",
    ),
    ("mark lock", "m0-5l5 9h-10z", "acquires a mutex"),
    ("mark unlock", "m0 5l5-9h-10z", "unlocks a mutex"),
    (
        "mark handler",
        "m0-6l6 6l-6 6l-6-6z",
        "calls a handler, or is in one",
    ),
    (
        "mark destructor",
        "m-4-4h8v8h-8z",
        "calls a destructor, or is in one",
    ),
    (
        "mark stop",
        "m-5-5h10v10h-10zl10 10m0-10l-10 10",
        "stops the run",
    ),
    ("arrow create", "m-14 0h28l-7-3v6l7-3", "creates a thread"),
    ("arrow fork", "m-14 0h28l-7-3v6l7-3", "forks a process"),
    (
        "arrow request",
        "m-14 0h28l-7-3v6l7-3",
        "requests cancellation",
    ),
    ("arrow signal", "m-14 0h28l-7-3v6l7-3", "signals a thread"),
    ("arrow join", "m-14 0h28m0 0l-8-4m0 8l8-4", "is joined"),
    ("waiting", "m0-8v16", "is in a call, or waits"),
    ("owner", "m-2-7h4v14h-4z", "owns the mutex"),
    ("ended", "m0-8v16", "has ended"),
    ("end", "m-6 0h12", "the thread ends"),
    ("end process", "m-6-2h12m-12 4h12", "the process ends"),
    ("end cut", "m-4-4l8 8m-8 0l8-8", "ends with its process"),
];

// The first word of the first event of a step, and its kind.
const FIRST_WORDS: [(&str, Kind); 10] = [
    ("acquire", Kind::Lock),
    ("release", Kind::Unlock),
    ("handler", Kind::Handler),
    ("at_exit", Kind::Handler),
    ("prepare", Kind::Handler),
    ("parent", Kind::Handler),
    ("child", Kind::Handler),
    ("dtor", Kind::Destructor),
    ("undefined", Kind::Stop),
    ("profile", Kind::Stop),
];

impl Kind {
    /// The kind of a step, if it does not depend on the function that the thread is in.
    pub(crate) fn of_step(step: &Step) -> Kind {
        if step.acts_on_request() {
            return Kind::Act;
        }
        if step.events.starts_with("pop ") && step.events.contains(" run") {
            return Kind::Handler;
        }
        let first = word_of(step.events, 0);
        for (word, kind) in FIRST_WORDS.iter() {
            if *word == first {
                return *kind;
            }
        }
        Kind::Step
    }

    /// Its classes in the document, the form that is drawn at a point, and its words in the legend.
    pub(crate) fn look(self) -> (&'static str, &'static str, &'static str) {
        match LOOKS.get(self as usize) {
            Some(look) => *look,
            None => ("", "", ""),
        }
    }

    /// The head of an arrow that points to the right side, and of one to the left: that of `join` is open.
    pub(crate) fn heads(self) -> (&'static str, &'static str) {
        match self {
            Kind::Join => ("l-8-4m0 8l8-4", "l8-4m0 8l-8-4"),
            _ => ("l-7-3v6l7-3", "l7-3v6l-7-3"),
        }
    }
}
