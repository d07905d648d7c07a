//! The cancelability of a thread (XSH 2.9.5).

ghost use Rattle.std.specs.Prelude.{◌≡◌, true, false};
ghost use Rattle.pct_model.specs.declared.state.State.TheVariants.{Enable};
ghost use Rattle.pct_model.specs.declared.state.Mode.TheVariants.{Deferred};
ghost use Rattle.pct_model.specs.Cancelability.{is_deliverable, is_asynchronous, ending_state, ending_mode};

use crate::{Mode, State};

/// A thread's cancelability state and type, and whether a cancellation request is pending.
#[derive(Clone, Copy, Debug, PartialEq, Eq)]
pub struct Cancel {
    pub state: State,
    pub mode: Mode,
    pub pending: bool,
}

impl Cancel {
    /// The cancelability of a new thread: enabled, deferred, no request pending (pthread_setcancelstate).
    pub fn new() -> Cancel
        ensures { result ≡ record { state = Enable; mode = Deferred; pending = false } }
    {
        Cancel {
            state: State::Enable,
            mode: Mode::Deferred,
            pending: false,
        }
    }

    /// Makes a request pending (pthread_cancel). A second request changes nothing.
    pub fn request(&mut self)
        ensures { self.new ≡ record self.old { pending = true } }
    {
        self.pending = true;
    }

    /// Sets the state, and returns the previous one (pthread_setcancelstate).
    pub fn set_state(&mut self, state: State) -> State
        ensures answer { result ≡ self.old.state }
        ensures set { self.new ≡ record self.old { state = state } }
    {
        let old = self.state;
        self.state = state;
        old
    }

    /// Sets the type, and returns the previous one (pthread_setcanceltype, on the page pthread_setcancelstate).
    pub fn set_mode(&mut self, mode: Mode) -> Mode
        ensures answer { result ≡ self.old.mode }
        ensures set { self.new ≡ record self.old { mode = mode } }
    {
        let old = self.mode;
        self.mode = mode;
        old
    }

    /// Whether the thread acts on a request at a cancellation point: one is pending, and the state is enabled
    /// (XSH 2.9.5.2, pthread_testcancel).
    pub fn deliverable(&self) -> bool
        ensures { result ≡ is_deliverable self.now.state self.now.pending }
    {
        self.state == State::Enable && self.pending
    }

    /// Whether the thread may act on a request at any time: the state is enabled and the type asynchronous, whether or
    /// not a request is pending (XSH 2.9.5).
    pub fn async_on(&self) -> bool
        ensures { result ≡ is_asynchronous self.now.state self.now.mode }
    {
        self.state == State::Enable && self.mode == Mode::Asynchronous
    }

    /// Sets the state and the type of a thread that begins to end: disabled and deferred (XSH 2.9.5.3, pthread_exit). A
    /// pending request stays pending.
    pub fn begin_end(&mut self)
        ensures { self.new ≡ record self.old { state = ending_state; mode = ending_mode } }
    {
        self.state = State::Disable;
        self.mode = Mode::Deferred;
    }
}
