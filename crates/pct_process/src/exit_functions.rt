//! The functions that are registered with atexit. A contract sees the list of their indexes, newest first.

ghost use Rattle.std.specs.Prelude.{◌≡◌, ◌<◌, [], ◌∷◌, length, nat_lt, slice_get};
ghost use Rattle.pct_model.specs.declared.limits.TheConstants.{MAX_EXIT_FUNCTIONS};
ghost use Rattle.pct_model.specs.Actions.{without_first};

use arrayvec::ArrayVec;
use pct_model::MAX_EXIT_FUNCTIONS;
use std::marker::Model;

/// The functions that a process has registered with atexit: at most MAX_EXIT_FUNCTIONS (32) indexes of functions.
#[derive(Drop)]
pub struct ExitFunctions {
    items: ArrayVec<u32, MAX_EXIT_FUNCTIONS>,
}

impl Model for ExitFunctions {
    ghost use Rattle.std.specs.Prelude.{ℕ, List, reverse, length, ◌≤◌};
    ghost use Rattle.pct_model.specs.declared.limits.TheConstants.{MAX_EXIT_FUNCTIONS};

    ghost Value = { List ℕ };

    ghost view = { λ f. reverse f.items.items };

    ghost invariant = { λ f. length f.items.items ≤ MAX_EXIT_FUNCTIONS };
}

impl ExitFunctions {
    /// The functions of a new process: none.
    pub fn new() -> ExitFunctions
        ensures { result ≡ [] }
    {
        ExitFunctions {
            items: ArrayVec::new(),
        }
    }

    /// Whether there are fewer than MAX_EXIT_FUNCTIONS functions.
    pub fn has_room(&self) -> bool
        ensures { result ≡ nat_lt (length self.now) MAX_EXIT_FUNCTIONS }
    {
        self.items.len() < MAX_EXIT_FUNCTIONS
    }

    /// The newest function. `None` exactly if there are no functions.
    pub fn newest(&self) -> Option<u32>
        ensures { result ≡ slice_get self.now 0 }
    {
        self.items.as_slice().last().copied()
    }

    /// Registers a function, for which there is room.
    pub fn push(&mut self, func: u32)
        requires { length self.old < MAX_EXIT_FUNCTIONS }
        ensures { self.new ≡ func ∷ self.old }
    {
        self.items.push(func);
    }

    /// Removes the newest function, if there is one.
    pub fn pop(&mut self)
        ensures { self.new ≡ without_first self.old }
    {
        let _newest = self.items.pop();
    }

    /// Makes these the functions of another process.
    pub fn copy_from(&mut self, other: &ExitFunctions)
        ensures { self.new ≡ other.now }
    {
        self.items.clear();
        self.items
            .try_extend_from_slice(other.items.as_slice())
            .unwrap();
    }
}
