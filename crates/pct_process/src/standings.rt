//! How the threads of a process stand, as far as other threads ask for it. Each question is answered without a look at each thread.

ghost use Rattle.std.specs.Prelude.{◌≡◌, ◌<◌, ◌%◌, ◌&&◌, if◌then◌else◌};
ghost use Rattle.std.specs.List.{list_all, list_any};
ghost use Rattle.pct_set.specs.Slots.{slots_where, has_slot, with_slot, without_slot};
ghost use Rattle.pct_set.specs.declared.keyed_sets.TheConstants.{KEYS};
ghost use Rattle.pct_process.specs.Standings.{standing_of, waits_on, waits_with, joins, index_key, cond_key, mutex_key, target_key};
ghost use Rattle.pct_process.specs.StandingsWanted.{is_wanted};

use pct_model::Status;
use pct_set::{KeyedSets, NO_KEY, SlotSet};
use pct_threads::Threads;
use std::marker::Model;

/// How a thread stands, as far as other threads of its process ask for it.
#[derive(Clone, Copy, Debug, PartialEq, Eq)]
pub enum Standing {
    /// In none of the other ways.
    Other,
    /// It waits on the condition variable with an index, and released the mutex with an index (pthread_cond_wait).
    Waiting(u32, u32),
    /// It is suspended in pthread_join for the thread with this id.
    Joining(u32),
    /// It has ended with this value.
    Ended(u32),
}

/// How the threads on 64 slots stand, and the slots whose threads have not ended. In a contract it is both lists.
#[derive(Drop)]
pub struct Standings {
    of: [Standing; 64],
    by_cond: KeyedSets,
    by_mutex: KeyedSets,
    by_target: KeyedSets,
    unfinished: SlotSet,
}

impl Model for Standings {
    ghost use Rattle.pct_process.specs.Standings.{StandingsValue, AreIndexed};

    ghost Value = { StandingsValue };

    ghost view = { λ s. record { of = s.of; unfinished = s.unfinished } };

    ghost invariant = { λ s. AreIndexed s.of s.by_cond s.by_mutex s.by_target };
}

// A standing that is looked for.
#[derive(Clone, Copy)]
enum Wanted {
    Waiting(u32),
    Released(u32),
    Joining(u32),
}

impl Standings {
    ghost use Rattle.std.specs.Prelude.{◌≡◌, ◌<◌, ◌&&◌, length, slice_set};
    ghost use Rattle.std.specs.List.{list_all, list_any};
    ghost use Rattle.pct_set.specs.Slots.{slots_where, has_slot};
    ghost use Rattle.pct_process.specs.Standings.{AreStandings, standing_at, waits_on, waits_with, waits_with_another, joins, no_standings, with_standing};
    ghost use Rattle.pct_process.specs.StandingsWanted.{is_wanted};
    ghost use Rattle.pct_process.specs.ThreadViews.{has_no_other};

    /// No thread holds a slot.
    pub fn new() -> Standings
        ensures { result ≡ no_standings }
    {
        Standings {
            of: [Standing::Other; 64],
            by_cond: KeyedSets::new(),
            by_mutex: KeyedSets::new(),
            by_target: KeyedSets::new(),
            unfinished: SlotSet::new(),
        }
    }

    /// How the thread on a slot, which must be below 64, stands. It is `Other` where no thread holds the slot.
    pub fn standing(&self, slot: u32) -> Standing
        requires { slot < 64 }
        ensures { result ≡ standing_at self.now slot }
    {
        self.of[slot as usize]
    }

    /// The slots of the threads that wait on the condition variable with this index.
    pub fn waiters(&self, cond: u32) -> SlotSet
        ensures { result ≡ slots_where (λ k. waits_on cond (standing_at self.now k)) }
    {
        let candidates = self.by_cond.with_key(index_key(cond));
        if cond < 32 {
            candidates
        } else {
            self.among(candidates, Wanted::Waiting(cond))
        }
    }

    /// Whether a thread waits on the condition variable with an index, and released another mutex than the one with an index.
    pub fn waits_with_another_mutex(&self, cond: u32, mutex: u32) -> bool
        ensures { result ≡ list_any (waits_with_another cond mutex) self.now.of }
    {
        self.waiters(cond)
            .minus(&self.waiters_with(mutex))
            .nth(0)
            .is_some()
    }

    /// Whether a thread is suspended in pthread_join for this id.
    pub fn is_joined(&self, id: u32) -> bool
        ensures { result ≡ list_any (joins id) self.now.of }
    {
        self.joiners(id).nth(0).is_some()
    }

    /// The slots whose threads have not ended.
    pub fn unfinished(&self) -> SlotSet
        ensures { result ≡ self.now.unfinished }
    {
        self.unfinished
    }

    /// Whether each thread of a table, whose standings these are, has ended, but the one with an id.
    pub fn is_last(&self, threads: &Threads, tid: u32) -> bool
        requires { AreStandings self.now threads.now }
        ensures { result ≡ list_all (λ s. has_no_other tid s.here) threads.now }
    {
        // A table has at most 64 slots.
        let _count = threads.slot_count();
        let mut rest = self.unfinished;
        while let Some(slot) = rest.nth(0) {
            if threads.place(slot).id != tid {
                return false;
            }
            rest.remove(slot);
        }
        true
    }

    /// Writes how the thread on a slot, which must be below 64, stands, and whether a thread holds the slot that has not ended.
    #[inline]
    pub fn put(&mut self, slot: u32, standing: Standing, unfinished: bool)
        requires { slot < 64 }
        ensures { self.new ≡ with_standing slot standing unfinished self.old }
    {
        match (self.standing(slot), standing) {
            // Most often a thread stands in none of the ways that are looked for, before and after.
            (Standing::Other, Standing::Other) => {}
            _ => self.stand(slot, standing),
        }
        put_if(&mut self.unfinished, slot, unfinished);
    }

    // Writes how the thread on a slot stands.
    fn stand(&mut self, slot: u32, standing: Standing)
        requires { slot < 64 }
        ensures { self.new ≡ record self.old { of = slice_set self.old.of slot standing } }
    {
        self.by_cond.put(slot, cond_key(standing));
        self.by_mutex.put(slot, mutex_key(standing));
        self.by_target.put(slot, target_key(standing));
        self.of[slot as usize] = standing;
    }

    // The slots of the threads that wait, and released the mutex with this index.
    fn waiters_with(&self, mutex: u32) -> SlotSet
        ensures value { result ≡ slots_where (λ k. waits_with mutex (standing_at self.now k)) }
        // This holds of all standings.
        ensures all { length self.now.of ≡ 64 }
    {
        let candidates = self.by_mutex.with_key(index_key(mutex));
        if mutex < 32 {
            candidates
        } else {
            self.among(candidates, Wanted::Released(mutex))
        }
    }

    // The slots of the threads that are suspended in pthread_join for this id.
    fn joiners(&self, id: u32) -> SlotSet
        ensures value { result ≡ slots_where (λ k. joins id (standing_at self.now k)) }
        // This holds of all standings.
        ensures all { length self.now.of ≡ 64 }
    {
        self.among(self.by_target.with_key(id % 64), Wanted::Joining(id))
    }

    // The slots of these whose threads stand as is wanted.
    fn among(&self, candidates: SlotSet, wanted: Wanted) -> SlotSet
        ensures { result ≡ slots_where (λ k. has_slot candidates k && is_wanted wanted (standing_at self.now k)) }
    {
        // The slots of a set rise.
        let _count = candidates.len();
        let mut found = SlotSet::new();
        let mut rest = candidates;
        while let Some(slot) = rest.nth(0) {
            if is_wanted(wanted, self.standing(slot)) {
                found.insert(slot);
            }
            rest.remove(slot);
        }
        found
    }
}

/// How a thread with this status stands.
pub fn standing_of(status: Status) -> Standing
    ensures { result ≡ standing_of status }
{
    match status {
        Status::Waiting(cond, mutex) => Standing::Waiting(cond, mutex),
        Status::Joining(id) => Standing::Joining(id),
        Status::Ended(value) => Standing::Ended(value),
        _ => Standing::Other,
    }
}

// A standing is as is wanted.
fn is_wanted(wanted: Wanted, standing: Standing) -> bool
    ensures { result ≡ is_wanted wanted standing }
{
    match (wanted, standing) {
        (Wanted::Waiting(cond), Standing::Waiting(waited, _)) => waited == cond,
        (Wanted::Released(mutex), Standing::Waiting(_, released)) => released == mutex,
        (Wanted::Joining(id), Standing::Joining(target)) => target == id,
        _ => false,
    }
}

// The key of an index. Indexes from 32 on have one together.
fn index_key(index: u32) -> u32
    ensures value { result ≡ index_key index }
    ensures few { result < KEYS }
{
    if index < 32 { index } else { 32 }
}

// The key of the condition variable on which a thread waits.
fn cond_key(standing: Standing) -> u32
    ensures value { result ≡ cond_key standing }
    ensures few { result < KEYS }
{
    match standing {
        Standing::Waiting(cond, _) => index_key(cond),
        _ => NO_KEY,
    }
}

// The key of the mutex that it released.
fn mutex_key(standing: Standing) -> u32
    ensures value { result ≡ mutex_key standing }
    ensures few { result < KEYS }
{
    match standing {
        Standing::Waiting(_, mutex) => index_key(mutex),
        _ => NO_KEY,
    }
}

// The key of the id that it joins.
fn target_key(standing: Standing) -> u32
    ensures value { result ≡ target_key standing }
    ensures few { result < KEYS }
{
    match standing {
        Standing::Joining(id) => id % 64,
        _ => NO_KEY,
    }
}

// Inserts the slot if the test holds, and else removes it.
fn put_if(set: &mut SlotSet, slot: u32, test: bool)
    requires { slot < 64 }
    ensures { set.new ≡ (if test then with_slot slot set.old else without_slot slot set.old) }
{
    if test {
        set.insert(slot);
    } else {
        set.remove(slot);
    }
}
