//! What is kept of a thread.

ghost use Rattle.std.specs.Prelude.{◌≡◌, ◌&&◌, not};

use pct_model::What;

/// What the events so far report of a thread.
#[derive(Clone, Copy)]
pub(crate) struct Note {
    /// Whether its end was requested.
    pub(crate) requested: bool,
    /// Whether its newest call of pthread_setcancelstate enabled cancelability, or there was none.
    pub(crate) enabled: bool,
    /// Whether it has begun to end, has begun to exit its process, and has ended.
    pub(crate) begun: bool,
    pub(crate) exiting: bool,
    pub(crate) ended: bool,
    /// Whether the thread is known.
    pub(crate) known: bool,
    /// Its newest event.
    pub(crate) newest: Option<What>,
}

impl Note {
    ghost use Rattle.pct_thread_monitors.specs.Notes.{has_not_begun, has_to_act, is_unended, next_note};

    /// The note after an event of the thread.
    pub(crate) fn after(&self, what: What) -> Note
        ensures { result ≡ next_note what self.now }
    {
        let note = Note {
            newest: Some(what),
            ..*self
        };
        match what {
            What::StateSet(enable) => Note {
                enabled: enable,
                ..note
            },
            What::EndingExit(_) | What::EndingCanceled | What::EndingInWait(_, _) => Note {
                begun: true,
                ..note
            },
            What::ExitBegun(_) => Note {
                exiting: true,
                ..note
            },
            What::EndedWith(_) => Note {
                ended: true,
                ..note
            },
            _ => note,
        }
    }

    /// Whether the thread is known and has not ended.
    pub(crate) fn is_unended(&self) -> bool
        ensures { result ≡ is_unended self.now }
    {
        self.known && !self.ended
    }

    /// Whether the thread has neither begun to end nor begun to exit its process.
    pub(crate) fn has_not_begun(&self) -> bool
        ensures { result ≡ has_not_begun self.now }
    {
        !self.begun && !self.exiting
    }

    /// Whether the thread acts on a request at the next cancellation point that it calls.
    pub(crate) fn has_to_act(&self) -> bool
        ensures { result ≡ has_to_act self.now }
    {
        self.requested && self.enabled && self.has_not_begun()
    }
}
