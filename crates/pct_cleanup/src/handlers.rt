//! A stack of cleanup handlers. A contract sees the list of its pairs (function, argument), newest first.

ghost use Rattle.std.specs.Prelude.{◌≡◌, ◌<◌, ◌≤◌, ◌↔◌, [], ◌∷◌, length, IsOk, OnOk, OnErr, IfSome, IfNone, slice_get};
ghost use Rattle.pct_model.specs.declared.limits.TheConstants.{MAX_HANDLERS};

use arrayvec::ArrayVec;
use pct_model::MAX_HANDLERS;
use std::marker::Model;

/// The error of a push if the stack is full.
#[derive(Clone, Copy, Debug, PartialEq, Eq)]
pub struct Full;

/// The cleanup handlers of a thread: at most MAX_HANDLERS (32) pairs of the index of a function and its argument.
#[derive(Clone, Debug, Drop)]
pub struct Handlers {
    items: ArrayVec<(u32, u32), MAX_HANDLERS>,
}

impl Model for Handlers {
    ghost use Rattle.std.specs.Prelude.{ℕ, List, reverse, length, ◌≤◌};
    ghost use Rattle.pct_model.specs.declared.limits.TheConstants.{MAX_HANDLERS};

    ghost Value = { List (ℕ × ℕ) };

    ghost view = { λ s. reverse s.items.items };

    ghost invariant = { λ s. length s.items.items ≤ MAX_HANDLERS };
}

impl Handlers {
    /// The handlers of a new thread: none.
    pub fn new() -> Handlers
        ensures { result ≡ [] }
    {
        Handlers {
            items: ArrayVec::new(),
        }
    }

    /// The number of handlers, at most MAX_HANDLERS.
    pub fn len(&self) -> u32
        ensures value { result ≡ length self.now }
        ensures fits { result ≤ MAX_HANDLERS }
    {
        self.items.len() as u32
    }

    /// The newest handler. `None` exactly if there are no handlers.
    pub fn newest(&self) -> Option<(u32, u32)>
        ensures { result ≡ slice_get self.now 0 }
    {
        self.items.as_slice().last().copied()
    }

    /// Pushes a handler (pthread_cleanup_push). Returns `Full` exactly if there are MAX_HANDLERS handlers, and then changes
    /// nothing.
    pub fn push(&mut self, func: u32, arg: u32) -> Result<(), Full>
        ensures variant { IsOk result ↔ (length self.old < MAX_HANDLERS) }
        ensures ok { OnOk result (self.new ≡ (func, arg) ∷ self.old) }
        ensures full { OnErr result (length self.old ≡ MAX_HANDLERS) }
        ensures err { OnErr result (self.new ≡ self.old) }
    {
        if self.items.len() >= MAX_HANDLERS {
            return Err(Full);
        }
        self.items.push((func, arg));
        Ok(())
    }

    /// Removes and returns the newest handler (pthread_cleanup_pop). Returns `None` exactly if there are no handlers.
    pub fn pop(&mut self) -> Option<(u32, u32)>
        ensures some { IfSome result (λ handler. self.old ≡ handler ∷ self.new) }
        ensures none { IfNone result ((self.old ≡ []) × (self.new ≡ [])) }
    {
        self.items.pop()
    }
}
