//! The states of once controls.

ghost use Rattle.std.specs.Prelude.{◌≡◌, ℕ, ◌<◌, ◌^◌, ◌&&◌, if◌then◌else◌, nat_eq, IfOk, OnOk, length};
ghost use Rattle.pct_model.specs.declared.state.OnceState.TheVariants as once_state;
ghost use Rattle.pct_laws.specs.KnownThreads.{makes_process};
ghost use Rattle.pct_laws.specs.OnceControls.{given_up, once_after};
ghost use Rattle.pct_laws.specs.OnceLaw.{may_call, may_return};
ghost use Rattle.pct_audit.specs.ControlStates.{AreControls, AreControls-prop};

use crate::changes::child_of;
use pct_io::NoMemory;
use pct_model::{OnceState, What};
use pct_process_maps::ProcessMaps;
use std::alloc::Global;

/// The states of the once controls of each process. A fork copies two numbers, and an event changes a few, however many controls are
/// busy with the thread that begins to end.
#[derive(Drop)]
pub struct Controls {
    // The states that events gave to controls, oldest first. The first one is that of a control without events.
    states: Vec<OnceState>,
    // For each process, the index of the state of each control.
    indexes: ProcessMaps,
    // For each process, the number of states as a thread last began to end: the controls that are busy with it by one of these are fresh.
    ends: ProcessMaps,
    ghost kept: { AreControls states.items indexes ends } by { AreControls-prop states.items indexes ends },
}

impl Controls {
    ghost use Rattle.pct_audit.specs.Controls.{state_in};

    /// Each control is fresh.
    pub fn new(alloc: Global) -> Result<Controls, NoMemory>
        ensures { IfOk result (λ controls. (pid o : ℕ) → state_in controls pid o ≡ once_state.Fresh) }
    {
        let mut states = Vec::new(alloc);
        states.push(OnceState::Fresh)?;
        Ok(Controls {
            states,
            indexes: ProcessMaps::new(alloc),
            ends: ProcessMaps::new(alloc),
        })
    }

    /// The state of a control.
    pub fn state(&self, pid: u32, o: u32) -> OnceState
        ensures { result ≡ state_in self.now pid o }
    {
        let index = self.indexes.get(pid, o);
        match self.states.get(index as usize) {
            None => OnceState::Fresh,
            Some(OnceState::Busy(tid)) => {
                if index < self.ends.get(pid, *tid) {
                    OnceState::Fresh
                } else {
                    OnceState::Busy(*tid)
                }
            }
            Some(state) => *state,
        }
    }

    // The number of states. There is no memory for 2 ^ 32 of them.
    fn count(&self) -> Result<u32, NoMemory>
        ensures { IfOk result (λ count. count ≡ length self.now.states.items) }
    {
        if self.states.len() <= u32::MAX as usize {
            Ok(self.states.len() as u32)
        } else {
            Err(NoMemory)
        }
    }

    // Gives a control another state.
    fn set(&mut self, pid: u32, o: u32, state: OnceState) -> Result<(), NoMemory>
        ensures { OnOk result ((q k : ℕ) → k < 2 ^ 32 → state_in self.new q k ≡ (if nat_eq pid q && nat_eq o k then state else state_in self.old q k)) }
    {
        let index = self.count()?;
        self.states.push(state)?;
        self.indexes.set(pid, o, index)
    }

    // A thread begins to end: the controls that are busy with it are fresh.
    fn give_up(&mut self, pid: u32, tid: u32) -> Result<(), NoMemory>
        ensures { OnOk result ((q k : ℕ) → k < 2 ^ 32 → state_in self.new q k ≡ (if nat_eq pid q then given_up tid (state_in self.old q k) else state_in self.old q k)) }
    {
        let count = self.count()?;
        self.ends.set(pid, tid, count)
    }

    /// A fork gives the new process the states of its parent.
    pub fn fork(&mut self, pid: u32, what: What) -> Result<(), NoMemory>
        ensures { OnOk result ((q k : ℕ) → state_in self.new q k ≡ (if makes_process q what then state_in self.old pid k else state_in self.old q k)) }
    {
        if let Some(child) = child_of(what) {
            self.indexes.copy(pid, child)?;
            self.ends.copy(pid, child)?;
        }
        Ok(())
    }

    /// An event of a thread changes the states of its process.
    pub fn change(&mut self, pid: u32, tid: u32, what: What) -> Result<(), NoMemory>
        ensures { OnOk result ((q k : ℕ) → k < 2 ^ 32 → state_in self.new q k ≡ (if nat_eq pid q then once_after k tid what (state_in self.old q k) else state_in self.old q k)) }
    {
        match what {
            What::OnceCalled(o) => self.set(pid, o, OnceState::Busy(tid)),
            What::OnceDone(o) => self.set(pid, o, OnceState::Done),
            What::EndingExit(_) => self.give_up(pid, tid),
            What::EndingCanceled => self.give_up(pid, tid),
            What::EndingInWait(_, _) => self.give_up(pid, tid),
            _ => Ok(()),
        }
    }
}

/// Whether the init routine of a control in a state may be called.
pub fn may_call(state: OnceState) -> bool
    ensures { result ≡ may_call state }
{
    match state {
        OnceState::Fresh => true,
        _ => false,
    }
}

/// Whether it may return in a thread.
pub fn may_return(state: OnceState, tid: u32) -> bool
    ensures { result ≡ may_return tid state }
{
    match state {
        OnceState::Busy(id) => id == tid,
        _ => false,
    }
}
