//! A set of threads.

ghost use Rattle.std.specs.Prelude.{◌≡◌, ◌||◌, List, ℕ, OnOk, bytes_eq, false};
ghost use Rattle.std.specs.List.{list_any};

use pct_io::NoMemory;
use std::alloc::Global;
use std::collections::BTreeSet;
use std::marker::Model;

/// A set of threads, each named by the first word of its events. Contracts see the list of the names.
#[derive(Drop)]
pub(crate) struct ThreadSet<'a> {
    names: BTreeSet<&'a [u8]>,
}

impl<'a> Model for ThreadSet<'a> {
    ghost use Rattle.std.specs.Prelude.{ℕ, List, map};

    ghost Value = { List (List ℕ) };

    ghost view = { λ set. map (λ name. name.now) set.names.keys };
}

impl<'a> ThreadSet<'a> {
    /// No threads.
    pub(crate) fn new(alloc: Global) -> ThreadSet<'a>
        ensures { (name : List ℕ) → list_any (bytes_eq name) result ≡ false }
    {
        ThreadSet {
            names: BTreeSet::new(alloc),
        }
    }

    /// Whether the thread is in the set.
    pub(crate) fn contains(&self, name: &'a [u8]) -> bool
        ensures { result ≡ list_any (bytes_eq name.now) self.now }
    {
        self.names.contains(&name)
    }

    /// Adds a thread.
    pub(crate) fn insert(&mut self, name: &'a [u8]) -> Result<(), NoMemory>
        ensures { OnOk result ((other : List ℕ) → list_any (bytes_eq other) self.new
            ≡ (bytes_eq other name.now || list_any (bytes_eq other) self.old)) }
    {
        self.names.insert(name)?;
        Ok(())
    }
}
