//! A text of a picture.

use crate::run::Row;

// The value of a canceled thread, as events have it.
const CANCELED_VALUE: &str = "4294967295";

/// A text in parts. Where it has more characters than the limit it is cut.
#[derive(Clone, Copy)]
pub(crate) struct Caption<'a> {
    pub(crate) before: &'a str,
    pub(crate) text: &'a str,
    pub(crate) after: &'a str,
    pub(crate) limit: usize,
}

impl<'a> Caption<'a> {
    /// A text with at most so many characters.
    pub(crate) fn new(text: &'a str, limit: usize) -> Caption<'a> {
        Caption {
            before: "",
            text,
            after: "",
            limit,
        }
    }

    /// The events of a step. The value of a thread that was canceled is `PTHREAD_CANCELED`.
    pub(crate) fn of_events(row: &Row<'a>, limit: usize) -> Caption<'a> {
        let events = row.step.events();
        match events.split_once(CANCELED_VALUE) {
            Some((before, after)) if row.has_canceled => Caption {
                before,
                text: "PTHREAD_CANCELED",
                after,
                limit,
            },
            _ => Caption::new(events, limit),
        }
    }

    /// The statement of a step. If the thread is in a call, `in` stands before it, and what has become of the call after it. It is empty
    /// if the thread is in no function.
    pub(crate) fn of_statement(row: &Row<'a>, limit: usize) -> Caption<'a> {
        if row.step.is_at_statement() {
            Caption::new(row.step.statement, limit)
        } else if row.step.is_in_call() {
            Caption {
                before: "in ",
                text: row.step.statement,
                after: row.step.outcome(),
                limit,
            }
        } else {
            Caption::new("", limit)
        }
    }

    /// Its number of characters, before it is cut.
    pub(crate) fn total(&self) -> usize {
        self.before
            .len()
            .saturating_add(self.text.len())
            .saturating_add(self.after.len())
    }

    /// Its number of characters.
    pub(crate) fn len(&self) -> usize {
        self.total().min(self.limit)
    }
}
