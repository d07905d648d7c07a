//! The processes that were not reaped.

ghost use Rattle.std.specs.Prelude.{◌≡◌, ◌<◌, ◌≤◌, [], ◌∷◌, ◌++◌, length};
ghost use Rattle.pct_model.specs.declared.limits.TheConstants.{MAX_PROCESSES};

use pct_model::{MAX_PROCESSES, Relative};
use std::marker::Model;

/// The processes of a run that were not reaped, at most MAX_PROCESSES (8). In a contract it is the list of them.
#[derive(Drop)]
pub struct Relatives {
    items: [Relative; MAX_PROCESSES],
    count: usize,
}

impl Model for Relatives {
    ghost use Rattle.std.specs.Prelude.{◌≡◌, ◌≤◌, List, length, take};
    ghost use Rattle.pct_model.specs.declared.limits.TheConstants.{MAX_PROCESSES};
    ghost use Rattle.pct_model.specs.declared.process.Relative.{Relative};

    ghost Value = { List Relative };

    ghost view = { λ r. take r.count r.items };

    ghost invariant = { λ r. (r.count ≤ MAX_PROCESSES) × (length r.items ≡ MAX_PROCESSES) };
}

impl Relatives {
    /// No process.
    pub fn new() -> Relatives
        ensures { result ≡ [] }
    {
        let blank = Relative {
            pid: 0,
            parent: 0,
            ended: None,
        };
        Relatives {
            items: [blank; MAX_PROCESSES],
            count: 0,
        }
    }

    /// Removes each process.
    pub fn clear(&mut self)
        ensures { self.new ≡ [] }
    {
        self.count = 0;
    }

    /// Adds a process as the last one. There are fewer than MAX_PROCESSES.
    pub fn push(&mut self, relative: Relative)
        requires { length self.old < MAX_PROCESSES }
        ensures { self.new ≡ self.old ++ relative ∷ [] }
    {
        self.items[self.count] = relative;
        self.count += 1;
    }

    /// The processes, in order.
    pub fn as_slice(&self) -> &[Relative]
        ensures value { result.now ≡ self.now }
        ensures few { length result.now ≤ MAX_PROCESSES }
    {
        &self.items[..self.count]
    }
}
