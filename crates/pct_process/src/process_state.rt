//! The data of one process: its threads, and what they share.

ghost use Rattle.std.specs.Prelude.{◌≡◌};
ghost use Rattle.pct_model.specs.Actions.{in_child};
ghost use Rattle.pct_process.specs.Standings.{standing_of};
ghost use Rattle.pct_process.specs.ThreadViews.{record_inherited};

use crate::exit_functions::ExitFunctions;
use crate::fork_registrations::ForkRegistrations;
use crate::standings::{Standing, Standings, standing_of};
use crate::values::{Numbers, OnceControls, Values};
use pct_io::NoMemory;
use pct_keys::Keys;
use pct_model::{ForkAt, FrameKind, OnceState, Phase, Reason, Script, Status, main_of};
use pct_set::SlotSet;
use pct_threads::{Steps, Thread, Threads};
use std::alloc::Global;
use std::marker::Model;
use std::sync::ledger::Ledger;

/// The data of a process, beside its ids, its parent and its end. In a contract it is its slots, each with the number of threads
/// ever created on it and the thread that holds it, and the state that the threads share.
#[derive(Drop)]
pub struct ProcessState {
    /// The threads.
    pub threads: Threads,
    /// How the threads stand.
    pub standings: Standings,
    /// The keys of thread-specific data, and a row for each slot: the data of the thread that holds it.
    pub keys: Keys,
    /// The globals.
    pub globals: Numbers,
    /// The owner of each mutex: the id of a thread, 0 if there is none.
    pub owners: Numbers,
    /// The count of each semaphore.
    pub counts: Numbers,
    /// The state of each once control.
    pub onces: OnceControls,
    /// The fork handlers that are registered with pthread_atfork.
    pub fork_handlers: ForkRegistrations,
    /// The functions that are registered with atexit.
    pub exit_functions: ExitFunctions,
    /// The value with which exit began.
    pub exit_value: Option<u32>,
    /// The process is the child of one that had several threads, and may execute few statements.
    pub restricted: bool,
}

impl Model for ProcessState {
    ghost use Rattle.std.specs.Prelude.{◌≡◌, length};
    ghost use Rattle.pct_process.specs.ProcessViews.{slots_of, shared_of, ProcessData};
    ghost use Rattle.pct_process.specs.Standings.{AreStandings};

    ghost Value = { ProcessData };

    ghost view = { λ p. record { slots = slots_of p.keys.rows p.threads; shared = shared_of p.globals p.owners p.counts p.onces p.keys.places p.fork_handlers p.exit_functions p.exit_value p.restricted } };

    ghost invariant = { λ p. (length p.keys.rows ≡ length p.threads) × AreStandings p.standings p.threads };
}

impl ProcessState {
    ghost use Rattle.std.specs.Prelude.{◌≡◌, ◌≤◌, ◌+◌, ℕ, true, length, option_map, is_some, Some, None, All, IfNone, IfOk, IfSome};
    ghost use Rattle.pct_model.specs.declared.limits.TheConstants.{MAX_SLOTS};
    ghost use Rattle.pct_set.specs.Slots.{slots_where};
    ghost use Rattle.pct_engine_laws.specs.Seen.{is_last_in};
    ghost use Rattle.pct_engine_laws.specs.SeenSteps.{thread_with};
    ghost use Rattle.pct_process.specs.ProcessViews.{thread_on_slot, HoldsThread, HoldsOneSlot, first_data, data_inherited};

    /// The first process before the first step, with 1 to 64 slots: thread 1 is in `main`. `NoMemory` is returned if its tables do not
    /// fit into memory.
    pub fn first(alloc: Global, script: &Script, slots: u32) -> Result<ProcessState, NoMemory>
        requires some { 1 ≤ slots }
        requires few { slots ≤ MAX_SLOTS }
        ensures { IfOk result (λ process. process ≡ first_data slots script.now) }
    {
        let mut process = ProcessState::reserve(alloc)?;
        process.restart(script, slots);
        Ok(process)
    }

    /// Makes this the data of the first process before the first step, with 1 to 64 slots: thread 1 is in `main`. No memory is taken.
    pub fn restart(&mut self, script: &Script, slots: u32)
        requires some { 1 ≤ slots }
        requires few { slots ≤ MAX_SLOTS }
        ensures { self.new ≡ first_data slots script.now }
    {
        let main = main_of(script.funcs.as_slice()) as u32;
        self.threads.restart(slots);
        self.threads.create(0, main, 0, false);
        self.threads.call_alone(0, main, 0, FrameKind::Main);
        self.standings = Standings::new();
        self.standings.put(0, Standing::Other, true);
        self.keys.restart(slots);
        self.globals = Values::new(script.globals.as_slice().len(), 0);
        self.owners = Values::new(script.mutexes.as_slice().len(), 0);
        self.counts = Values::counts_of(script.sems.as_slice());
        self.onces = Values::new(script.onces.as_slice().len(), OnceState::Fresh);
        self.fork_handlers = ForkRegistrations::new();
        self.exit_functions = ExitFunctions::new();
        self.exit_value = None;
        self.restricted = false;
    }

    /// Memory for the data of a process with at most 64 slots. Hardly any of it is written to before `restart` or `inherit`.
    /// `NoMemory` is returned if the tables do not fit into memory.
    pub fn reserve(alloc: Global) -> Result<ProcessState, NoMemory> {
        Ok(ProcessState {
            threads: Threads::new(alloc, 1)?,
            standings: Standings::new(),
            keys: Keys::new(alloc, 1)?,
            globals: Values::new(0, 0),
            owners: Values::new(0, 0),
            counts: Values::new(0, 0),
            onces: Values::new(0, OnceState::Fresh),
            fork_handlers: ForkRegistrations::new(),
            exit_functions: ExitFunctions::new(),
            exit_value: None,
            restricted: false,
        })
    }

    /// Makes this the data of the child that a fork by the thread on a slot of the parent makes. The child has this thread alone, and
    /// what the threads of the parent share. No memory is taken.
    pub fn inherit<L: Ledger>(&mut self, parent: &ProcessState, slot: u32, steps: &mut Steps<L>)
        requires { is_some (thread_on_slot parent.now.slots slot) ≡ true }
        ensures data { (tid : ℕ) → HoldsOneSlot tid slot parent.now.slots → self.new ≡ data_inherited tid parent.now }
        ensures count { steps.new ≡ steps.old + 1 }
    {
        // A table has at most 64 slots.
        let _count = parent.threads.slot_count();
        self.threads.clone_one_from(&parent.threads, slot);
        let standing = become_replica(self.threads.write(slot, steps));
        self.standings = Standings::new();
        self.standings.put(slot, standing, true);
        self.keys.copy_from(&parent.keys, slot);
        self.globals.copy_from(&parent.globals);
        self.owners.copy_from(&parent.owners);
        self.counts.copy_from(&parent.counts);
        self.onces.copy_from(&parent.onces);
        self.fork_handlers.copy_from(&parent.fork_handlers);
        self.exit_functions.copy_from(&parent.exit_functions);
        self.exit_value = None;
        self.restricted = !parent.is_last(parent.id_on(slot));
    }

    /// The number of slots.
    pub fn slot_count(&self) -> u32
        ensures value { result ≡ length self.now.slots }
        ensures few { result ≤ MAX_SLOTS }
        // This holds of every process.
        ensures single { All (λ s. length s.here ≤ 1) self.now.slots }
    {
        self.threads.slot_count()
    }

    /// The slots that threads hold.
    pub fn occupied(&self) -> SlotSet
        ensures { result ≡ slots_where (λ k. is_some (thread_on_slot self.now.slots k)) }
    {
        self.threads.occupied()
    }

    /// The id of the thread on a slot.
    pub fn id_on(&self, slot: u32) -> u32
        requires { is_some (thread_on_slot self.now.slots slot) ≡ true }
        ensures { option_map (λ t. t.id) (thread_on_slot self.now.slots slot) ≡ Some result }
    {
        self.threads.place(slot).id
    }

    /// The slot of the thread with an id, if the thread holds it.
    pub fn slot_with(&self, id: u32) -> Option<u32>
        ensures some { IfSome result (λ slot. HoldsThread (thread_with (length self.now.slots) id self.now.slots) (thread_on_slot self.now.slots slot)) }
        ensures none { IfNone result (thread_with (length self.now.slots) id self.now.slots ≡ None) }
    {
        self.threads.slot_named(id)
    }

    /// Whether each thread but the one with an id has ended.
    pub fn is_last(&self, tid: u32) -> bool
        ensures { result ≡ is_last_in tid self.now.slots }
    {
        self.standings.is_last(&self.threads, tid)
    }
}

// Makes the record of a thread that is in fork that of its replica in the child. Returns how the replica stands.
fn become_replica(thread: &mut Thread) -> Standing
    ensures standing { result ≡ standing_of thread.new.status }
    ensures replica { thread.new ≡ record_inherited thread.old }
{
    thread.status = in_child(thread.status);
    thread.cancel.pending = false;
    thread.reason = Reason::None;
    thread.pass = 0;
    thread.kept = None;
    thread.ended = false;
    standing_of(thread.status)
}

// The status of the replica of a thread with this status, which is in fork.
fn in_child(status: Status) -> Status
    ensures { result ≡ in_child status }
{
    match status {
        Status::Forking(at) => Status::Forking(ForkAt {
            phase: Phase::Child,
            next: 0,
            length: at.length,
            answer: 0,
        }),
        other => other,
    }
}
