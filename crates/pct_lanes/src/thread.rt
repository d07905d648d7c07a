//! A thread of a run.

use crate::kinds::Kind;
use crate::thread_id::ThreadId;
use crate::trace_lines::Step;

/// A thread, and when it is there. Rows count the steps from 0.
#[derive(Clone, Copy)]
pub(crate) struct Thread<'a> {
    pub(crate) id: ThreadId,
    /// The function with which it begins.
    pub(crate) function: &'a str,
    /// Whether it has a lane.
    pub(crate) is_shown: bool,
    /// The row of the step that makes it.
    pub(crate) first: usize,
    /// The row of the step with which it ends, if it ends.
    pub(crate) last: Option<usize>,
    /// Whether it has not ended by itself, but with its process, in a step of another thread.
    pub(crate) is_cut_off: bool,
    /// The last row in which it makes a step, or an arrow comes from it or leads to it.
    pub(crate) last_seen: usize,
    /// The row since which it is where it is: that of its last step, or of the step that unblocked it.
    pub(crate) since: usize,
    /// Whether it is suspended in a call since that row.
    pub(crate) is_in_call: bool,
    /// The row up to which its last wait was, or in which it came into being.
    pub(crate) waited: usize,
    /// What it waits for after the last step, as `waits for mutex m`, or nothing.
    pub(crate) wait: &'a str,
    /// Whether a request is pending after the last step, and it does not end by one already.
    pub(crate) has_request: bool,
    /// Whether it ends by cancellation.
    pub(crate) is_canceled: bool,
    /// The greatest number of mutexes that it owns at once.
    pub(crate) most_owned: usize,
    // The places beside the lane that have a mutex which it owns, a bit each.
    owned: u32,
    /// Its last step at a statement, if it has made one.
    pub(crate) at: Option<Step<'a>>,
    // Where its last `fork` is.
    fork_place: &'a str,
    // The kind of the function that it is in, if it is a handler or a destructor.
    inside: Option<Kind>,
    // The function to which it returns from there. It is empty if it is in none then.
    outside: &'a str,
}

impl<'a> Thread<'a> {
    /// A thread that comes into being in this row.
    pub(crate) fn new(id: ThreadId, function: &'a str, is_shown: bool, first: usize) -> Thread<'a> {
        Thread {
            id,
            function,
            is_shown,
            first,
            last: None,
            is_cut_off: false,
            last_seen: first,
            since: first,
            is_in_call: false,
            waited: first,
            wait: "",
            has_request: false,
            is_canceled: false,
            most_owned: 0,
            owned: 0,
            at: None,
            fork_place: "",
            inside: None,
            outside: "",
        }
    }

    /// The replica of this thread in the child of a fork, which comes into being in this row.
    pub(crate) fn replica(&self, id: ThreadId, is_shown: bool, first: usize) -> Thread<'a> {
        Thread {
            at: self.at,
            fork_place: self.fork_place,
            inside: self.inside,
            outside: self.outside,
            ..Thread::new(id, self.function, is_shown, first)
        }
    }

    /// Whether the thread is there in this row.
    pub(crate) fn is_there(&self, row: usize) -> bool {
        self.first <= row && row <= self.last.unwrap_or(usize::MAX)
    }

    /// Whether a text stands at the end of its lane.
    pub(crate) fn has_last_text(&self) -> bool {
        self.is_shown && (self.has_request || !self.wait.is_empty())
    }

    /// Whether the lane has a line in this row.
    pub(crate) fn is_drawn(&self, row: usize) -> bool {
        self.is_shown && (self.is_there(row) || (self.first <= row && row <= self.last_seen))
    }

    /// Adds a mutex to those that it owns, and returns its place beside the lane, which is the first free one.
    pub(crate) fn own(&mut self) -> u32 {
        let place = !self.owned & self.owned.wrapping_add(1);
        self.owned |= place;
        self.most_owned = self.most_owned.max(bars_up_to(place));
        place
    }

    /// Removes the mutex with this place.
    pub(crate) fn disown(&mut self, place: u32) {
        self.owned &= !place;
    }

    /// The number of bars beside its lane now, with those that are missing between two of them.
    pub(crate) fn bars(&self) -> usize {
        bars_up_to(self.owned)
    }

    /// Notes a step of the thread, and returns its kind and `FUNC:LINE` of its statement, if it has one.
    pub(crate) fn note_step(&mut self, step: Step<'a>) -> (Kind, &'a str) {
        if step.is_at_statement() {
            self.at = Some(step);
            if step.word(0) == "fork" {
                self.fork_place = step.place;
            }
        }
        self.leave_handler(&step);
        let kind = self.enter_handler(&step);
        (kind, self.place_of(&step))
    }

    // `FUNC:LINE` of the statement of a step. A step in a call has that of the step which made the call.
    fn place_of(&self, step: &Step<'a>) -> &'a str {
        if !step.is_in_call() {
            return step.place;
        }
        if step.word(0) == "fork" {
            return self.fork_place;
        }
        match self.at {
            Some(at) => at.place,
            None => "",
        }
    }

    // A thread that is where it called a handler or a destructor has returned from it.
    fn leave_handler(&mut self, step: &Step) {
        let has_returned = if step.is_at_statement() {
            function_in(step.place) == self.outside
        } else if step.is_in_call() {
            self.outside.is_empty() && step.word(0) == "fork"
        } else {
            true
        };
        if has_returned {
            self.inside = None;
        }
    }

    // The kind of a step, which may call a handler or a destructor.
    fn enter_handler(&mut self, step: &Step<'a>) -> Kind {
        let kind = Kind::of_step(step);
        match kind {
            Kind::Handler | Kind::Destructor => {
                if self.inside.is_none() {
                    self.inside = Some(kind);
                    self.outside = if step.is_at_statement() {
                        function_in(step.place)
                    } else {
                        ""
                    };
                }
                kind
            }
            Kind::Step => self.inside.unwrap_or(kind),
            _ => kind,
        }
    }
}

/// The number of bars beside a lane up to the last of these places. Each place is a bit, and a process has 32 mutexes.
pub(crate) fn bars_up_to(places: u32) -> usize {
    match places.checked_ilog2() {
        None => 0,
        Some(last) => (last as usize).saturating_add(1),
    }
}

// The function of a place.
fn function_in(place: &str) -> &str {
    match place.split_once(':') {
        Some((function, _)) => function,
        None => "",
    }
}
