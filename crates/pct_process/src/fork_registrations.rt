//! The fork handlers that are registered with pthread_atfork. A contract sees the list of the registrations, in their order.

ghost use Rattle.std.specs.Prelude.{◌≡◌, ◌<◌, ◌≤◌, [], ◌∷◌, ◌++◌, length};
ghost use Rattle.pct_model.specs.declared.limits.TheConstants.{MAX_FORK_HANDLERS};

use arrayvec::ArrayVec;
use pct_model::{ForkHandlers, MAX_FORK_HANDLERS};
use std::marker::Model;

/// The fork handlers that a process has registered with pthread_atfork: at most MAX_FORK_HANDLERS (16) registrations.
#[derive(Drop)]
pub struct ForkRegistrations {
    items: ArrayVec<ForkHandlers, MAX_FORK_HANDLERS>,
}

impl Model for ForkRegistrations {
    ghost use Rattle.std.specs.Prelude.{List, length, ◌≤◌};
    ghost use Rattle.pct_model.specs.declared.limits.TheConstants.{MAX_FORK_HANDLERS};
    ghost use Rattle.pct_model.specs.declared.process.ForkHandlers.{ForkHandlers};

    ghost Value = { List ForkHandlers };

    ghost view = { λ f. f.items.items };

    ghost invariant = { λ f. length f.items.items ≤ MAX_FORK_HANDLERS };
}

impl ForkRegistrations {
    /// The registrations of a new process: none.
    pub fn new() -> ForkRegistrations
        ensures { result ≡ [] }
    {
        ForkRegistrations {
            items: ArrayVec::new(),
        }
    }

    /// The registrations, in their order.
    pub fn as_slice(&self) -> &[ForkHandlers]
        ensures value { result.now ≡ self.now }
        ensures few { length result.now ≤ MAX_FORK_HANDLERS }
    {
        self.items.as_slice()
    }

    /// Adds a registration, for which there is room.
    pub fn push(&mut self, handlers: ForkHandlers)
        requires { length self.old < MAX_FORK_HANDLERS }
        ensures { self.new ≡ self.old ++ handlers ∷ [] }
    {
        self.items.push(handlers);
    }

    /// Makes these the registrations of another process.
    pub fn copy_from(&mut self, other: &ForkRegistrations)
        ensures { self.new ≡ other.now }
    {
        self.items.clear();
        self.items
            .try_extend_from_slice(other.items.as_slice())
            .unwrap();
    }
}
