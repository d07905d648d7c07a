//! A set of threads.

ghost use Rattle.std.specs.Prelude.{◌≡◌, ◌||◌, List, OnOk, ℕ, bytes_eq, false};
ghost use Rattle.std.specs.List.{list_any};
ghost use Rattle.pct_model.specs.Report.{thread_text};

use pct_io::NoMemory;
use std::alloc::Global;
use std::collections::BTreeSet;
use std::marker::Model;

/// A set of threads, each a process and a thread. Contracts see the list of their texts.
#[derive(Drop)]
pub(crate) struct ThreadSet {
    threads: BTreeSet<(u32, u32)>,
}

impl Model for ThreadSet {
    ghost use Rattle.std.specs.Prelude.{ℕ, ◌<◌, ◌^◌, All, List, map};
    ghost use Rattle.pct_model.specs.Report.{thread_text};

    ghost Value = { List (List ℕ) };

    ghost view = { λ set. map (λ thread. thread_text thread.0 thread.1) set.threads.keys };

    ghost invariant = { λ set. All (λ thread. (thread.0 < 2 ^ 32) × (thread.1 < 2 ^ 32)) set.threads.keys };
}

impl ThreadSet {
    /// No threads.
    pub(crate) fn new(alloc: Global) -> ThreadSet
        ensures { (thread : List ℕ) → list_any (bytes_eq thread) result ≡ false }
    {
        ThreadSet {
            threads: BTreeSet::new(alloc),
        }
    }

    /// Whether a thread is in the set.
    pub(crate) fn contains(&self, pid: u32, tid: u32) -> bool
        ensures { result ≡ list_any (bytes_eq (thread_text pid tid)) self.now }
    {
        self.threads.contains(&(pid, tid))
    }

    /// Adds a thread.
    pub(crate) fn insert(&mut self, pid: u32, tid: u32) -> Result<(), NoMemory>
        ensures { OnOk result ((thread : List ℕ) → list_any (bytes_eq thread) self.new
            ≡ (bytes_eq thread (thread_text pid tid) || list_any (bytes_eq thread) self.old)) }
    {
        self.threads.insert((pid, tid))?;
        Ok(())
    }
}
