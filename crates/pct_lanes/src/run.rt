//! The run of a trace: its steps, its threads, when each of them is there, waits, and owns a mutex.

use crate::effects::{Effect, Event};
use crate::kinds::Kind;
use crate::selection::Selection;
use crate::thread::Thread;
use crate::thread_id::ThreadId;
use crate::trace_lines::{State, Step};
use crate::waits::{Owner, Wait};
use pct_io::NoMemory;
use std::alloc::Global;
use std::collections::BTreeMap;
use std::str;

/// In a row, something goes from one thread to another.
#[derive(Clone, Copy)]
pub(crate) struct Arrow {
    pub(crate) row: usize,
    pub(crate) kind: Kind,
    /// The index of the thread from which it comes.
    pub(crate) from: usize,
    /// The index of the thread to which it leads.
    pub(crate) to: usize,
    /// The number of bars beside the lane of the second of the two threads.
    pub(crate) bars: usize,
}

/// A step, and its thread.
#[derive(Clone, Copy)]
pub(crate) struct Row<'a> {
    pub(crate) step: Step<'a>,
    /// The index of its thread.
    pub(crate) thread: Option<usize>,
    pub(crate) kind: Kind,
    /// `FUNC:LINE` of its statement, or where its thread was.
    pub(crate) place: &'a str,
    /// The greatest index of a thread that has the mark or an end of an arrow in this row.
    pub(crate) reach: usize,
    /// The least index above that of its thread of one that has an end of an arrow in this row.
    pub(crate) near: Option<usize>,
    /// The index of the first owner of a mutex whose bar begins at its position.
    pub(crate) owners: usize,
    /// Whether it shows the value of a canceled thread, which is PTHREAD_CANCELED.
    pub(crate) has_canceled: bool,
    /// Whether it is shown.
    pub(crate) is_shown: bool,
    /// The number of rows before it that are shown.
    pub(crate) position: usize,
}

/// A run.
#[derive(Drop)]
pub(crate) struct Run<'a> {
    /// Which part of it is shown.
    pub(crate) selection: Selection<'a>,
    /// The steps.
    pub(crate) rows: Vec<Row<'a>>,
    /// The number of rows that are shown.
    pub(crate) shown_rows: usize,
    /// The threads, in the order in which they come into being. The first one is there from the beginning.
    pub(crate) threads: Vec<Thread<'a>>,
    /// The number of threads that have a lane.
    pub(crate) shown_threads: usize,
    /// What goes between threads, by rising row.
    pub(crate) arrows: Vec<Arrow>,
    /// Who owns a mutex, and when, or when a once control is busy, by rising first row.
    pub(crate) owners: Vec<Owner<'a>>,
    /// When a thread waits, for each thread by rising rows.
    pub(crate) waits: Vec<Wait>,
    /// The lines after the steps: the verdict, and a notice.
    pub(crate) closing: Vec<&'a str>,
    // Whether there was memory for all of it.
    is_whole: bool,
    // The index of each thread, by its process and its number.
    indices: BTreeMap<(usize, usize), usize>,
    // The row in which each process has ended.
    process_ends: BTreeMap<usize, usize>,
}

impl<'a> Run<'a> {
    /// The run of a trace, with what is waited for after it: the texts of `trace` and of `choices`. They are ASCII text, and one that is not
    /// even UTF-8 counts as empty.
    pub(crate) fn parse(
        alloc: Global,
        trace: &'a [u8],
        choices: &'a [u8],
        selection: Selection<'a>,
    ) -> Result<Run<'a>, NoMemory> {
        let mut run = Run {
            selection,
            rows: Vec::new(alloc),
            shown_rows: 0,
            threads: Vec::new(alloc),
            shown_threads: 0,
            arrows: Vec::new(alloc),
            owners: Vec::new(alloc),
            waits: Vec::new(alloc),
            closing: Vec::new(alloc),
            is_whole: true,
            indices: BTreeMap::new(alloc),
            process_ends: BTreeMap::new(alloc),
        };
        run.add_all(trace, choices);
        if run.is_whole { Ok(run) } else { Err(NoMemory) }
    }

    fn add_all(&mut self, trace: &'a [u8], choices: &'a [u8]) {
        let is_shown = self.selection.has_thread(ThreadId::MAIN);
        self.add_thread(Thread::new(ThreadId::MAIN, "main", is_shown, 0));
        self.add_lines(str::from_utf8(trace).unwrap_or(""));
        self.end_processes();
        self.add_choices(str::from_utf8(choices).unwrap_or(""));
        self.add_open_calls();
    }

    fn add_lines(&mut self, trace: &'a str) {
        for line in trace.split('\n') {
            if let Some(step) = Step::parse(line) {
                self.add_step(step);
            } else if !line.is_empty() {
                let is_added = self.closing.push(line).is_ok();
                self.note_memory(is_added);
            }
        }
    }

    /// Notes whether there was memory for a part of the run. It is whole if there was for each.
    pub(crate) fn note_memory(&mut self, is_added: bool) {
        self.is_whole = self.is_whole && is_added;
    }

    // ---- steps

    fn add_step(&mut self, step: Step<'a>) {
        let index = self.rows.len();
        let mut row = Row {
            step,
            thread: None,
            kind: Kind::Step,
            place: step.place,
            reach: 0,
            near: None,
            owners: self.first_owner(),
            has_canceled: false,
            is_shown: self.selection.has_step(index, &step),
            position: self.shown_rows,
        };
        self.note_thread(&mut row);
        if row.is_shown {
            self.shown_rows = self.shown_rows.saturating_add(1);
        }
        let is_added = self.rows.push(row).is_ok();
        self.note_memory(is_added);
    }

    // Notes what the step of a row does, and completes the row.
    fn note_thread(&mut self, row: &mut Row<'a>) {
        let by = ThreadId::parse(row.step.thread);
        let Some(index) = self.index_of(by) else {
            return;
        };
        self.see(index);
        self.end_wait(index, &row.step);
        if let Some(thread) = self.threads.get_mut(index) {
            let (kind, place) = thread.note_step(row.step);
            thread.since = self.rows.len();
            row.thread = Some(index);
            row.kind = kind;
            row.place = place;
            row.is_shown = row.is_shown && thread.is_shown;
        }
        self.add_events(row, index, by);
    }

    // Adds the events of a step of this thread, and notes the threads that its arrows concern.
    fn add_events(&mut self, row: &mut Row<'a>, index: usize, by: ThreadId) {
        let first_arrow = self.arrows.len();
        for event in row.step.events.split(',') {
            if let Some(effect) = Effect::parse(event, by) {
                self.apply(effect, row, index, by);
            }
        }
        row.reach = index;
        for at in first_arrow..self.arrows.len() {
            let Some(arrow) = self.arrows.get(at) else {
                break;
            };
            let other = arrow.from.max(arrow.to);
            if other > index && self.has_lane(other) {
                row.reach = row.reach.max(other);
                row.near = match row.near {
                    Some(near) => Some(near.min(other)),
                    None => Some(other),
                };
            }
        }
    }

    fn apply(&mut self, effect: Effect<'a>, row: &mut Row<'a>, index: usize, by: ThreadId) {
        let other = self.index_of(effect.other);
        match effect.event {
            Event::Create => self.make_thread(Kind::Create, effect.other, row, index),
            Event::Fork => self.make_thread(Kind::Fork, effect.other, row, index),
            Event::Request => self.add_arrow(Kind::Request, index, other),
            Event::Signal => self.unblock(index, other),
            Event::Broadcast => self.unblock_all(index, by.process, effect.name),
            Event::Joined => {
                if let Some(from) = other {
                    row.has_canceled = self.is_canceled(from);
                    self.add_arrow(Kind::Join, from, Some(index));
                }
            }
            Event::Call => {
                if let Some(thread) = self.threads.get_mut(index) {
                    thread.is_in_call = true;
                }
            }
            Event::Acquire => self.acquire(index, by.process, effect.name),
            Event::OnceCall => self.begin_once(index, by.process, effect.name),
            Event::Release | Event::OnceDone => self.release(index, by.process, effect.name),
            Event::Ending => {
                self.give_up_controls(index);
                if let Some(thread) = self.threads.get_mut(index) {
                    thread.is_canceled = effect.name == "canceled";
                }
            }
            Event::Ended => {
                row.has_canceled = self.is_canceled(index);
                self.end_thread(index);
            }
            Event::ProcessEnd => self.end_process(index, by.process),
        }
    }

    // The process ends by a step of the thread with this index.
    fn end_process(&mut self, index: usize, process: usize) {
        self.end_thread(index);
        let is_added = self.process_ends.insert(process, self.rows.len()).is_ok();
        self.note_memory(is_added);
    }

    /// Adds an arrow between the threads with these indices.
    pub(crate) fn add_arrow(&mut self, kind: Kind, from: usize, to: Option<usize>) {
        let row = self.rows.len();
        if let Some(to) = to {
            self.see(from);
            self.see(to);
            let bars = match self.threads.get(from.max(to)) {
                Some(thread) => thread.bars(),
                None => 0,
            };
            let arrow = Arrow {
                row,
                kind,
                from,
                to,
                bars,
            };
            let is_added = self.arrows.push(arrow).is_ok();
            self.note_memory(is_added);
        }
    }

    // ---- threads

    /// Whether the thread with this index has a lane.
    pub(crate) fn has_lane(&self, index: usize) -> bool {
        match self.threads.get(index) {
            Some(thread) => thread.is_shown,
            None => false,
        }
    }

    fn is_canceled(&self, index: usize) -> bool {
        match self.threads.get(index) {
            Some(thread) => thread.is_canceled,
            None => false,
        }
    }

    /// The index of the thread with this name.
    pub(crate) fn index_of(&self, id: ThreadId) -> Option<usize> {
        self.indices.get(&(id.process, id.thread)).copied()
    }

    fn add_thread(&mut self, thread: Thread<'a>) {
        let id = (thread.id.process, thread.id.thread);
        let is_added = self.indices.insert(id, self.threads.len()).is_ok();
        self.note_memory(is_added);
        if thread.is_shown {
            self.shown_threads = self.shown_threads.saturating_add(1);
        }
        let is_added = self.threads.push(thread).is_ok();
        self.note_memory(is_added);
    }

    // Adds the thread that the step of a row creates, or the replica of its thread.
    fn make_thread(&mut self, kind: Kind, id: ThreadId, row: &Row<'a>, index: usize) {
        let first = self.rows.len();
        let is_shown = self.selection.has_thread(id);
        let made = self.threads.len();
        let mut parent = id.process;
        let thread = match (kind, self.threads.get(index)) {
            (Kind::Fork, Some(thread)) => {
                parent = thread.id.process;
                thread.replica(id, is_shown, first)
            }
            _ => Thread::new(id, row.step.word(3), is_shown, first),
        };
        self.add_thread(thread);
        if let Kind::Fork = kind {
            self.copy_owners(index, parent, made, id.process);
        }
        self.add_arrow(kind, index, Some(made));
    }

    // Notes that the row of the step has something of the thread with this index.
    fn see(&mut self, index: usize) {
        if let Some(thread) = self.threads.get_mut(index) {
            thread.last_seen = self.rows.len();
        }
    }

    // Notes the end of a thread. One that has ended before may end its process.
    fn end_thread(&mut self, index: usize) {
        if let Some(thread) = self.threads.get_mut(index) {
            thread.last = Some(thread.last.unwrap_or(self.rows.len()));
        }
    }

    // Ends the threads that are there when their process ends, and what they own.
    fn end_processes(&mut self) {
        for thread in self.threads.iter_mut() {
            if thread.last.is_none() {
                if let Some(row) = self.process_ends.get(&thread.id.process) {
                    thread.last = Some(*row);
                    thread.is_cut_off = true;
                }
            }
        }
        for owner in self.owners.iter_mut() {
            if owner.last.is_none() {
                if let Some(row) = self.process_ends.get(&owner.process) {
                    owner.last = Some(*row);
                }
            }
        }
    }

    // ---- what is waited for after the last step

    // Notes where each thread of a text of `choices` is: a thread whose next step waits is dashed up to the end.
    fn add_choices(&mut self, choices: &'a str) {
        for line in choices.split('\n') {
            if let Some(state) = State::parse(line) {
                if let Some(index) = self.index_of(ThreadId::parse(state.step.thread)) {
                    self.end_wait(index, &state.step);
                    self.add_last_texts(index, &state);
                }
            }
        }
    }

    // Notes what a thread waits for, and whether it has a pending request.
    fn add_last_texts(&mut self, index: usize, state: &State<'a>) {
        let (_, last) = self.selection.range();
        if self.rows.len() > last {
            return;
        }
        if let Some(thread) = self.threads.get_mut(index) {
            thread.wait = state.wait();
            thread.has_request = state.has_request() && !thread.is_canceled;
        }
    }
}
