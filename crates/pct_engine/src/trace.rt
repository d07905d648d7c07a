//! The record of a run, in vectors that have room for it.

ghost use Rattle.std.specs.Prelude.{◌≡◌, ◌+◌, ◌≤◌, ◌++◌, map, vec_len, vec_capacity};
ghost use Rattle.pct_model.specs.Run.{event_of};

use pct_io::NoMemory;
use pct_model::{Entry, Event, UpToThree, What};
use std::alloc::Global;
use std::marker::Model;

/// The entries and the events of a run, and the entries that are planned for it. There is room for `budget` entries, with three events
/// each.
#[derive(Drop)]
pub(crate) struct Trace {
    budget: u32,
    // The number of entries of the run.
    made: usize,
    // The entries of the run, and after them those that are planned.
    entries: Vec<Entry>,
    events: Vec<Event>,
}

impl Model for Trace {
    ghost use Rattle.std.specs.Prelude.{take, drop, vec_len, vec_capacity};
    ghost use Rattle.pct_engine.specs.Traces.{TraceValue, HasRoom};

    ghost Value = { TraceValue };

    ghost view = { λ t. record { budget = t.budget; history = take t.made t.entries.items; planned = drop t.made t.entries.items; events = t.events.items } };

    ghost invariant = { λ t. HasRoom t.budget t.made (vec_len t.entries) (vec_capacity t.entries) (vec_len t.events) (vec_capacity t.events) };
}

impl Trace {
    ghost use Rattle.std.specs.Prelude.{◌≡◌, ◌<◌, ◌≤◌, ◌*◌, [], ◌∷◌, ◌++◌, drop, length, map, nat_lt, take, vec_len, IfOk};
    ghost use Rattle.pct_model.specs.Run.{event_of};

    /// The record of a run without entries, for which these are planned. It takes over their memory. `NoMemory` is returned if there is no
    /// room for `budget` entries and their events.
    pub fn new(alloc: Global, budget: u32, planned: Vec<Entry>) -> Result<Trace, NoMemory>
        requires { vec_len planned ≤ budget }
        ensures { IfOk result (λ trace. trace ≡ record { budget = budget; history = []; planned = planned.items; events = [] }) }
    {
        let room = budget as usize;
        let mut entries = planned;
        entries.reserve_exact(room - entries.len())?;
        Ok(Trace {
            budget,
            made: 0,
            entries,
            events: Vec::with_capacity(alloc, 3 * room)?,
        })
    }

    /// Forgets the entries, their events, and what is planned. Their memory is kept.
    pub fn restart(&mut self)
        ensures { self.new ≡ record { budget = self.old.budget; history = []; planned = []; events = [] } }
    {
        self.entries.clear();
        self.made = 0;
        self.events.clear();
    }

    /// The next of the planned entries.
    #[inline(always)]
    pub fn next(&self) -> Entry
        requires { 0 < length self.now.planned }
        ensures { result ∷ [] ≡ take 1 self.now.planned }
    {
        self.entries[self.made]
    }

    /// Whether there can be one entry more.
    pub fn has_room(&self) -> bool
        ensures { result ≡ nat_lt (length self.now.history) self.now.budget }
    {
        self.made < self.budget as usize
    }

    /// Records an entry and the events of its step. If entries are planned, it takes the place of the next of them.
    #[inline(always)]
    pub fn record_step(&mut self, entry: &Entry, new_events: &UpToThree<What>)
        requires { length self.old.history < self.old.budget }
        ensures { self.new ≡ record self.old { history = self.old.history ++ entry.now ∷ []; planned = drop 1 self.old.planned; events = self.old.events ++ map (event_of entry.now) new_events.now } }
    {
        record_all(&mut self.events, entry, new_events);
        if self.made < self.entries.len() {
            self.entries[self.made] = *entry;
        } else {
            self.entries.push_reserved(*entry);
        }
        self.made += 1;
    }

    /// The entries, in order.
    pub fn history(&self) -> &[Entry]
        ensures value { result.now ≡ self.now.history }
        ensures within { length self.now.history ≤ self.now.budget }
    {
        &self.entries[..self.made]
    }

    /// The events, in order. There are at most three for each entry.
    pub fn events(&self) -> &[Event]
        ensures value { result.now ≡ self.now.events }
        ensures few { length self.now.events ≤ 3 * length self.now.history }
    {
        &self.events
    }
}

// Records the events of the step of an entry, of which there are at most three.
#[inline(always)]
fn record_all(events: &mut Vec<Event>, entry: &Entry, new_events: &UpToThree<What>)
    requires { vec_len events.old + 3 ≤ vec_capacity events.old }
    ensures items { events.new.items ≡ events.old.items ++ map (event_of entry.now) new_events.now }
    ensures few { vec_len events.new ≤ vec_len events.old + 3 }
    ensures capacity { vec_capacity events.new ≡ vec_capacity events.old }
{
    for what in new_events.as_slice() {
        events.push_reserved(Event {
            pid: entry.pid,
            tid: entry.tid,
            what: *what,
        });
    }
}
