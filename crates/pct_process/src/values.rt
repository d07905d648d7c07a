//! The values of what a script declares outside functions, which the threads of a process share.

ghost use Rattle.std.specs.Prelude.{◌≡◌, ◌≤◌, length, map, replicate, slice_set};
ghost use Rattle.pct_model.specs.declared.limits.TheConstants.{MAX_DECLARED};
ghost use Rattle.pct_model.specs.OnceCalls.{abandoned};

use arrayvec::ArrayVec;
use pct_model::{MAX_DECLARED, OnceState, SemDecl};
use std::marker::Model;

/// A value for each thing of a kind that a script declares: at most MAX_DECLARED (32). In a contract it is the list of them.
#[derive(Drop)]
pub struct Values<T> {
    items: ArrayVec<T, MAX_DECLARED>,
}

/// The values of globals, the owners of mutexes, or the counts of semaphores.
pub type Numbers = Values<u32>;

/// The states of once controls.
pub type OnceControls = Values<OnceState>;

impl<T> Model for Values<T> {
    ghost use Rattle.std.specs.Prelude.{List};

    ghost Value = { List T };

    ghost view = { λ v. v.items.items };
}

impl<T: Copy + Default> Values<T> {
    /// This many values, each the same.
    pub fn new(count: usize, value: T) -> Values<T>
        requires { count ≤ MAX_DECLARED }
        ensures { result ≡ replicate count value }
    {
        let mut items = ArrayVec::new();
        for _ in 0..count {
            items.push(value);
        }
        Values { items }
    }

    /// The values, by index.
    pub fn as_slice(&self) -> &[T]
        ensures { result.now ≡ self.now }
    {
        self.items.as_slice()
    }

    /// Another value at an index. Nothing changes if there is none.
    pub fn set(&mut self, i: u32, value: T)
        ensures { self.new ≡ slice_set self.old i value }
    {
        let i = i as usize;
        if i < self.items.len() {
            self.items[i] = value;
        }
    }

    /// Makes these the values of another process.
    pub fn copy_from(&mut self, other: &Values<T>)
        ensures { self.new ≡ other.now }
    {
        self.items.clear();
        self.items
            .try_extend_from_slice(other.items.as_slice())
            .unwrap();
    }
}

impl Values<u32> {
    /// The initial counts of semaphores.
    pub fn counts_of(sems: &[SemDecl]) -> Values<u32>
        requires { length sems.now ≤ MAX_DECLARED }
        ensures { result ≡ map (λ d. d.count) sems.now }
    {
        let mut items = ArrayVec::new();
        for sem in sems {
            items.push(sem.count);
        }
        Values { items }
    }
}

impl Values<OnceState> {
    /// Makes each control that is busy with the thread with this id fresh: the thread has left its init routine without a return of it.
    pub fn abandon(&mut self, tid: u32)
        ensures { self.new ≡ map (abandoned tid) self.old }
    {
        for state in self.items.iter_mut() {
            *state = abandoned(*state, tid);
        }
    }
}

// The state of a control after the thread with this id left its init routine without a return of it.
fn abandoned(state: OnceState, tid: u32) -> OnceState
    ensures { result ≡ abandoned tid state }
{
    match state {
        OnceState::Busy(id) if id == tid => OnceState::Fresh,
        other => other,
    }
}
