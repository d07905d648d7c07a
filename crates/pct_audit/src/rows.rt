//! What the judge keeps of each thread.

ghost use Rattle.std.specs.Prelude.{◌≡◌, ℕ, if◌then◌else◌, ◌&&◌, OnOk, nat_eq};

use pct_io::NoMemory;
use pct_laws::WaitStage;
use pct_model::Reason;
use std::alloc::Global;
use std::collections::BTreeMap;

/// What the events so far report of a thread.
#[derive(Clone, Copy)]
pub struct Row {
    /// The stack of its open handlers, and of those that were open as it began to end and have not run.
    pub handlers: usize,
    pub left: usize,
    pub reason: Reason,
    pub ended: Option<u32>,
    pub passes: u32,
    /// Whether the thread is known, detached, and joined.
    pub known: bool,
    pub detached: bool,
    pub joined: bool,
    /// Whether its newest event is the call of pthread_join.
    pub joining: bool,
    /// How far its newest condition wait is.
    pub stage: WaitStage,
}

impl Row {
    ghost use Rattle.pct_audit.specs.JoinTests.{is_live, can_be_joined};

    /// Whether the thread is known, and the lifetime of its id is not over.
    pub fn is_live(&self) -> bool
        ensures { result ≡ is_live self.now }
    {
        self.known && !(self.ended.is_some() && (self.joined || self.detached))
    }

    /// Whether the thread has ended with a value; it was not joined, and is not detached.
    pub fn can_be_joined(&self, value: u32) -> bool
        ensures { result ≡ can_be_joined value self.now }
    {
        let has_value = match self.ended {
            Some(end) => end == value,
            None => false,
        };
        has_value && !self.joined && !self.detached
    }
}

/// A row for each thread: by the ids of its process and its own.
#[derive(Drop)]
pub struct Rows {
    map: BTreeMap<(u32, u32), Row>,
}

impl Rows {
    ghost use Rattle.pct_audit.specs.Rows.{no_events_row, row_of};

    /// Each thread has the row of a thread without events.
    pub fn new(alloc: Global) -> Rows
        ensures { (pid tid : ℕ) → row_of result pid tid ≡ no_events_row pid tid }
    {
        Rows {
            map: BTreeMap::new(alloc),
        }
    }

    /// The row of a thread.
    pub fn at(&self, pid: u32, tid: u32) -> Row
        ensures { result ≡ row_of self.now pid tid }
    {
        match self.map.get(&(pid, tid)) {
            Some(row) => *row,
            None => Row {
                handlers: 0,
                left: 0,
                reason: Reason::None,
                ended: None,
                passes: 0,
                known: 1 == pid && 1 == tid,
                detached: false,
                joined: false,
                joining: false,
                stage: WaitStage::NoWait,
            },
        }
    }

    /// Gives a thread another row.
    pub fn set(&mut self, pid: u32, tid: u32, row: Row) -> Result<(), NoMemory>
        ensures { OnOk result ((p t : ℕ) → row_of self.new p t ≡ (if nat_eq pid p && nat_eq tid t then row else row_of self.old p t)) }
    {
        self.map.insert((pid, tid), row)?;
        Ok(())
    }
}
