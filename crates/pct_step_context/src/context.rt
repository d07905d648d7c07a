//! What the next step of a thread depends on.

ghost use Rattle.std.specs.Prelude.{◌≡◌, ◌+◌, ◌<◌, Some, is_some, length, true};
ghost use Rattle.pct_model.specs.Formats.{has_timeouts};
ghost use Rattle.pct_model.specs.World.{Thread};
ghost use Rattle.pct_engine_laws.specs.SeenSteps.{environment_in};
ghost use Rattle.pct_process.specs.FamilyViews.{other_processes};
ghost use Rattle.pct_process.specs.ProcessViews.{thread_on_slot};
ghost use Rattle.pct_threads.specs.Tables.{frames_at};
ghost use Rattle.pct_step_context.specs.Numbers.{NumbersFit, NewNumbersFit};
ghost use Rattle.pct_step_context.specs.Contexts.{IsContext, IsWhole};

use crate::position::{Position, position_of};
use crate::program::Program;
use pct_model::OnceState;
use pct_process::{ExitFunctions, Family, ForkRegistrations, ProcessState, Standings};
use pct_threads::{Frames, Steps, Threads};
use std::marker::Brand;
use std::sync::ledger::{Blank, Ledger};

/// What the steps of the threads of a process depend on beside the process: the script that is run, and the other processes.
#[derive(Clone, Copy)]
pub struct Surroundings<'a> {
    pub program: &'a Program,
    pub family: Family<'a>,
}

/// What the next step of a thread depends on: the thread, what it shares with the other threads of its process, their table, how they
/// stand, and the other processes. In a contract, `IsContext` says of which thread this is the context.
///
/// A call that takes a context in every step is best inline: a context that is passed by reference is written to memory as a whole.
#[derive(Drop)]
pub struct Context<'a> {
    pub program: &'a Program,
    /// The other processes.
    pub family: Family<'a>,
    /// The process. What its threads share is read from it.
    pub process: &'a ProcessState,
    /// The threads of the process.
    pub threads: &'a Threads,
    /// How the threads of the process stand.
    pub standings: &'a Standings,
    /// The thread, and the keys of the process.
    pub position: Position<'a>,
}

impl<'a> Context<'a> {
    /// The context of the thread on a slot. The record of the thread is read once.
    #[inline(always)]
    pub fn new<L: Ledger>(
        around: Surroundings<'a>,
        process: &'a ProcessState,
        slot: u32,
        steps: &mut Steps<L>,
    ) -> Context<'a>
        requires { is_some (thread_on_slot process.now.slots slot) ≡ true }
        ensures context { (t : Thread) → thread_on_slot process.now.slots slot ≡ Some t → IsContext process.now.shared t (environment_in (has_timeouts around.entry.program.now.config.format) (length process.now.slots) (other_processes around.entry.family) process.now.slots t.id) result }
        ensures program { result.program.now ≡ around.entry.program.now }
        ensures whole { IsWhole result }
        ensures numbers { NewNumbersFit process.now → NumbersFit result.threads.now result.position.keys.now }
        ensures count { steps.new ≡ steps.old + 1 }
    {
        Context {
            program: around.program,
            family: around.family,
            process,
            threads: &process.threads,
            standings: &process.standings,
            position: position_of(around.program, &process.threads, &process.keys, slot, steps),
        }
    }

    /// The same, with a count of its own.
    #[inline(always)]
    pub fn uncounted(around: Surroundings<'a>, process: &'a ProcessState, slot: u32) -> Context<'a>
        requires { is_some (thread_on_slot process.now.slots slot) ≡ true }
        ensures context { (t : Thread) → thread_on_slot process.now.slots slot ≡ Some t → IsContext process.now.shared t (environment_in (has_timeouts around.entry.program.now.config.format) (length process.now.slots) (other_processes around.entry.family) process.now.slots t.id) result }
        ensures program { result.program.now ≡ around.entry.program.now }
        ensures whole { IsWhole result }
        ensures numbers { NewNumbersFit process.now → NumbersFit result.threads.now result.position.keys.now }
    {
        Context::counted::<Brand>(around, process, slot, Blank::new(1))
    }

    // The same, with a count on a new ledger.
    #[inline(always)]
    fn counted<L: Ledger>(
        around: Surroundings<'a>,
        process: &'a ProcessState,
        slot: u32,
        blank: Blank,
    ) -> Context<'a>
        requires held { is_some (thread_on_slot process.now.slots slot) ≡ true }
        requires name { blank.name ≡ L.name }
        requires parts { blank.parts ≡ L.parts }
        requires some { 0 < blank.parts }
        ensures context { (t : Thread) → thread_on_slot process.now.slots slot ≡ Some t → IsContext process.now.shared t (environment_in (has_timeouts around.entry.program.now.config.format) (length process.now.slots) (other_processes around.entry.family) process.now.slots t.id) result }
        ensures program { result.program.now ≡ around.entry.program.now }
        ensures whole { IsWhole result }
        ensures numbers { NewNumbersFit process.now → NumbersFit result.threads.now result.position.keys.now }
    {
        Context::new(around, process, slot, &mut Steps::<L>::new(blank))
    }

    /// The globals of the process.
    #[inline(always)]
    pub fn globals(&self) -> &'a [u32]
        ensures { result.now ≡ self.now.process.now.shared.globals }
    {
        let process = self.process;
        process.globals.as_slice()
    }

    /// The owner of each mutex of the process: the id of a thread, 0 if there is none.
    #[inline(always)]
    pub fn owners(&self) -> &'a [u32]
        ensures { result.now ≡ self.now.process.now.shared.owners }
    {
        let process = self.process;
        process.owners.as_slice()
    }

    /// The count of each semaphore of the process.
    #[inline(always)]
    pub fn counts(&self) -> &'a [u32]
        ensures { result.now ≡ self.now.process.now.shared.counts }
    {
        let process = self.process;
        process.counts.as_slice()
    }

    /// The state of each once control of the process.
    #[inline(always)]
    pub fn onces(&self) -> &'a [OnceState]
        ensures { result.now ≡ self.now.process.now.shared.onces }
    {
        let process = self.process;
        process.onces.as_slice()
    }

    /// The fork handlers that are registered with pthread_atfork.
    #[inline(always)]
    pub fn fork_handlers(&self) -> &'a ForkRegistrations
        ensures { result.now ≡ self.now.process.now.shared.fork_handlers }
    {
        let process = self.process;
        &process.fork_handlers
    }

    /// The functions that are registered with atexit.
    #[inline(always)]
    pub fn exit_functions(&self) -> &'a ExitFunctions
        ensures { result.now ≡ self.now.process.now.shared.exit_functions }
    {
        let process = self.process;
        &process.exit_functions
    }

    /// The value with which exit began.
    #[inline(always)]
    pub fn exit_value(&self) -> Option<u32>
        ensures { result ≡ self.now.process.now.shared.exit_value }
    {
        let process = self.process;
        process.exit_value
    }

    /// Whether the process may execute async-signal-safe operations only.
    #[inline(always)]
    pub fn is_restricted(&self) -> bool
        ensures { result ≡ self.now.process.now.shared.restricted }
    {
        let process = self.process;
        process.restricted
    }

    /// The frames of the thread, the newest first.
    #[inline(always)]
    pub fn frames(&self) -> Frames<'a>
        requires { IsWhole self.now }
        ensures { result ≡ frames_at self.now.threads.now self.now.position.slot }
    {
        self.threads.frames(self.position.slot)
    }
}
