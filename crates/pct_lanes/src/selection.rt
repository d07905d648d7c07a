//! The part of a run that is shown.

use crate::thread_id::ThreadId;
use crate::trace_lines::Step;
use std::str;

/// Which steps and which threads are shown.
#[derive(Clone, Copy)]
pub struct Selection<'a> {
    /// The numbers of the first and of the last step. If it is `None` no step is left out for its number.
    pub steps: Option<(u32, u32)>,
    /// The text of the threads, each `P.T`, separated by commas. If it is `None` no thread is left out.
    pub threads: Option<&'a [u8]>,
    /// Whether a step without an event is left out.
    pub events: bool,
}

impl<'a> Selection<'a> {
    /// Nothing is left out.
    pub const ALL: Selection<'static> = Selection {
        steps: None,
        threads: None,
        events: false,
    };

    /// Whether this thread is shown.
    pub(crate) fn has_thread(&self, id: ThreadId) -> bool {
        let Some(threads) = self.threads else {
            return true;
        };
        for name in str::from_utf8(threads).unwrap_or("").split(',') {
            let shown = ThreadId::parse(name);
            if shown.process == id.process && shown.thread == id.thread {
                return true;
            }
        }
        false
    }

    /// The numbers of the first and of the last step that are not left out for their number. If there is none the first one is above the
    /// last one.
    pub(crate) fn range(&self) -> (usize, usize) {
        match self.steps {
            None => (1, usize::MAX),
            Some((first, last)) => (first as usize, last as usize),
        }
    }

    /// Whether the step in this row is shown, if its thread is. Rows count the steps from 0.
    pub(crate) fn has_step(&self, row: usize, step: &Step) -> bool {
        let (first, last) = self.range();
        first <= row.saturating_add(1) && row < last && !(self.events && step.events().is_empty())
    }
}
