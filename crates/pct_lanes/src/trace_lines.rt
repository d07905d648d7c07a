//! The lines of a trace, and those of `choices`.

/// A step of a run: the fields of its line.
#[derive(Clone, Copy)]
pub(crate) struct Step<'a> {
    /// The number of the step, from 1.
    pub(crate) number: &'a str,
    /// The thread that makes it, `PID.TID`.
    pub(crate) thread: &'a str,
    /// Where the thread was: `FUNC:LINE`, or its status.
    pub(crate) place: &'a str,
    /// The statement of the script, or `-`.
    pub(crate) statement: &'a str,
    /// The choice, as in a schedule.
    pub(crate) choice: &'a str,
    /// The events, separated by commas, or `-`.
    pub(crate) events: &'a str,
}

impl<'a> Step<'a> {
    /// The step of this line. It is `None` where the line has fewer than six fields, as that of the verdict.
    pub(crate) fn parse(line: &'a str) -> Option<Step<'a>> {
        line.split('\t').nth(5)?;
        Some(Step {
            number: field(line, 0),
            thread: field(line, 1),
            place: field(line, 2),
            statement: field(line, 3),
            choice: field(line, 4),
            events: field(line, 5),
        })
    }

    /// The events, or nothing.
    pub(crate) fn events(&self) -> &'a str {
        if self.events == "-" { "" } else { self.events }
    }

    /// What the table shows of the step: its events; if it has none, the statement; if there is none, where the thread was.
    pub(crate) fn summary(&self) -> &'a str {
        if self.events == "-" && self.statement == "-" {
            self.place
        } else if self.events == "-" {
            self.statement
        } else {
            self.events
        }
    }

    /// Whether the thread was at a statement of the script, `FUNC:LINE`, and had no other status.
    pub(crate) fn is_at_statement(&self) -> bool {
        self.place.contains(':')
    }

    /// Whether the thread was in a call.
    pub(crate) fn is_in_call(&self) -> bool {
        self.place.starts_with("in ")
    }

    /// What has become of the call that the thread was in, after a comma, or nothing.
    pub(crate) fn outcome(&self) -> &'a str {
        match self.place.split_once(',') {
            None => "",
            Some((call, _)) => self.place.strip_prefix(call).unwrap_or(""),
        }
    }

    /// Whether the thread acts on a request in this step.
    pub(crate) fn acts_on_request(&self) -> bool {
        self.choice.starts_with("act")
    }

    /// Whether the process ends with this step.
    pub(crate) fn ends_process(&self) -> bool {
        self.events.contains("process_end ")
    }

    /// The word of the statement with this index, or nothing.
    pub(crate) fn word(&self, index: usize) -> &'a str {
        word_of(self.statement, index)
    }

    /// The condition variable and the mutex of the statement, if it is a wait on a condition variable.
    pub(crate) fn condition_wait(&self) -> Option<(&'a str, &'a str)> {
        match self.word(0) {
            "pthread_cond_wait" => Some((self.word(1), self.word(2))),
            "pthread_cond_timedwait" => Some((self.word(2), self.word(3))),
            _ => None,
        }
    }
}

/// The word of a text with this index, or nothing.
pub(crate) fn word_of(text: &str, index: usize) -> &str {
    text.split_ascii_whitespace().nth(index).unwrap_or("")
}

// The field of a line with this index, or nothing.
fn field(line: &str, index: usize) -> &str {
    line.split('\t').nth(index).unwrap_or("")
}

/// Where a thread is after the last step: its line of `choices`.
#[derive(Clone, Copy)]
pub(crate) struct State<'a> {
    /// The step that it would make: its statement, with its status as the place.
    pub(crate) step: Step<'a>,
    // Its cancelability state and type, and whether a request is pending.
    request: &'a str,
}

impl<'a> State<'a> {
    /// The state of this line. It is `None` where the line has fewer than five fields.
    pub(crate) fn parse(line: &'a str) -> Option<State<'a>> {
        line.split('\t').nth(4)?;
        Some(State {
            step: Step {
                number: "",
                thread: field(line, 0),
                place: field(line, 3),
                statement: field(line, 2),
                choice: "",
                events: "",
            },
            request: field(line, 4),
        })
    }

    /// What the thread waits for, as `waits for mutex m`, or nothing.
    pub(crate) fn wait(&self) -> &'a str {
        for phrase in self.step.place.split(',') {
            let phrase = phrase.strip_prefix(' ').unwrap_or(phrase);
            if phrase.starts_with("waits for") {
                return phrase;
            }
        }
        ""
    }

    /// Whether a request is pending.
    pub(crate) fn has_request(&self) -> bool {
        self.request.contains("request pending")
    }
}
