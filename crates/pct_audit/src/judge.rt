//! The judge of events.

ghost use Rattle.std.specs.Prelude.{◌≡◌, ℕ, ◌<◌, Bool, List, [], ◌∷◌, length, IfOk, OnOk};
ghost use Rattle.pct_model.specs.declared.event.Event.{Event};
ghost use Rattle.pct_model.specs.declared.event.What.TheVariants as what;
ghost use Rattle.pct_laws.specs.CondLaw as CondLaw;
ghost use Rattle.pct_laws.specs.JoinLaw as JoinLaw;
ghost use Rattle.pct_laws.specs.Once as Once;
ghost use Rattle.pct_laws.specs.OnceLaw as OnceLaw;
ghost use Rattle.pct_laws.specs.SlotLaw as SlotLaw;
ghost use Rattle.pct_laws.specs.ThreadSummary.{summary_of};
ghost use Rattle.pct_laws.specs.WaitStages.{wait_stage};
ghost use Rattle.pct_audit.specs.CleanupTests.{snapshot_of};

use crate::changes::{mark, next_row, replicate};
use crate::cleanup::may_come;
use crate::conds::{change_owners, fork_owners, may_follow, may_hand_on};
use crate::controls::{Controls, may_call, may_return};
use crate::destroyed::Destroyed;
use crate::joins::may_name;
use crate::rows::Rows;
use crate::slots::{refresh_named, refresh_own, refresh_replica, slot_of};
use crate::snapshot::Snapshot;
use crate::stacks::Stacks;
use pct_holders::Holders;
use pct_io::NoMemory;
use pct_laws::WaitStage;
use pct_model::{Event, What};
use pct_process_maps::ProcessMaps;
use std::alloc::Global;

/// What the events so far report.
#[derive(Drop)]
pub struct Judge {
    rows: Rows,
    stacks: Stacks,
    destroyed: Destroyed,
    owners: ProcessMaps,
    controls: Controls,
    last: Option<Event>,
    slots: u32,
    holders: Holders,
}

impl Judge {
    ghost use Rattle.pct_audit.specs.DestroyedKeys.{is_destroyed};
    ghost use Rattle.pct_audit.specs.IsRow.{Grows};
    ghost use Rattle.pct_audit.specs.Stacks.{stack_at};
    ghost use Rattle.pct_audit.specs.Tells.{Tells, handler_stacks, slot_count};

    /// Before the first event.
    pub fn new(alloc: Global, slots: u32) -> Result<Judge, NoMemory>
        requires { 0 < slots }
        ensures { IfOk result (λ judge. Tells judge [] × (slot_count judge ≡ slots)) }
    {
        let mut holders = Holders::new(alloc);
        holders.set(1, 0, 1, true)?;
        Ok(Judge {
            rows: Rows::new(alloc),
            stacks: Stacks::new(alloc),
            destroyed: Destroyed::new(alloc),
            owners: ProcessMaps::new(alloc),
            controls: Controls::new(alloc)?,
            last: None,
            slots,
            holders,
        })
    }

    /// After one more event, whatever it is. Where memory runs out the judge is dropped.
    pub fn add(mut self, event: Event) -> Result<Judge, NoMemory>
        requires told { (events : List Event) × Tells self events }
        ensures slots { IfOk result (λ next. slot_count next ≡ slot_count self) }
        ensures stacks { IfOk result (λ next. Grows (handler_stacks self) (handler_stacks next)) }
        ensures told { IfOk result (λ next. (events : List Event) → Tells self events → Tells next (event ∷ events)) }
    {
        self.take_in(event)?;
        Ok(self)
    }

    // Takes in one more event, or after `NoMemory` a part of it.
    fn take_in(&mut self, event: Event) -> Result<(), NoMemory>
        requires told { (events : List Event) × Tells self.old events }
        ensures slots { OnOk result (slot_count self.new ≡ slot_count self.old) }
        ensures stacks { OnOk result (Grows (handler_stacks self.old) (handler_stacks self.new)) }
        ensures told { OnOk result ((events : List Event) → Tells self.old events → Tells self.new (event ∷ events)) }
    {
        mark(&mut self.rows, event.pid, event.what)?;
        let caller = self.rows.at(event.pid, event.tid);
        replicate(&mut self.rows, event.what, event.tid, caller)?;
        let row = self.rows.at(event.pid, event.tid);
        let next = next_row(&mut self.stacks, row, event.what)?;
        self.rows.set(event.pid, event.tid, next)?;
        self.destroyed.add(event.pid, event.tid, event.what)?;
        fork_owners(&mut self.owners, event.pid, event.what)?;
        change_owners(&mut self.owners, event.pid, event.tid, event.what)?;
        self.controls.fork(event.pid, event.what)?;
        self.controls.change(event.pid, event.tid, event.what)?;
        refresh_own(&mut self.holders, &self.rows, self.slots, event)?;
        refresh_named(
            &mut self.holders,
            &self.rows,
            self.slots,
            event.pid,
            event.what,
        )?;
        refresh_replica(
            &mut self.holders,
            &self.rows,
            self.slots,
            event.tid,
            event.what,
        )?;
        self.last = Some(event);
        Ok(())
    }

    /// How far the newest condition wait of a thread is.
    pub fn stage(&self, pid: u32, tid: u32) -> WaitStage
        ensures { (events : List Event) → Tells self.now events → result ≡ wait_stage pid tid events }
    {
        self.rows.at(pid, tid).stage
    }

    /// The number of the stack of the open handlers of a thread.
    pub fn handlers(&self, pid: u32, tid: u32) -> usize
        requires told { (events : List Event) × Tells self.now events }
        ensures number { result < length (handler_stacks self.now) }
        ensures stack { (events : List Event) → Tells self.now events → stack_at (handler_stacks self.now) result ≡ (summary_of pid tid events).handlers }
    {
        self.rows.at(pid, tid).handlers
    }

    /// The stacks of handlers.
    pub fn stacks(&self) -> &Stacks
        ensures { result.now ≡ handler_stacks self.now }
    {
        &self.stacks
    }

    // What the law of cleanup handlers reads of a thread.
    fn snapshot(&self, pid: u32, tid: u32) -> Snapshot
        requires told { (events : List Event) × Tells self.now events }
        ensures { (events : List Event) → Tells self.now events → result ≡ snapshot_of (summary_of pid tid events) }
    {
        let row = self.rows.at(pid, tid);
        Snapshot {
            newest: self.stacks.top(row.handlers),
            pushed: self.stacks.depth(row.handlers),
            left: self.stacks.depth(row.left),
            reason: row.reason,
            ended: row.ended,
            passes: row.passes,
        }
    }

    // Whether the destructor of an event was called before in its pass.
    fn was_destroyed(&self, event: Event) -> bool
        ensures { (pass key f v : ℕ) → event.what ≡ what.DtorRun pass key f v → result ≡ is_destroyed self.now.destroyed event.pid event.tid pass key }
    {
        match event.what {
            What::DtorRun { pass, key, .. } => self.destroyed.has(event.pid, event.tid, pass, key),
            _ => false,
        }
    }

    /// Whether the law of cleanup handlers and destructors allows an event.
    pub fn allows_once(&self, passes: u32, event: Event) -> bool
        requires told { (events : List Event) × Tells self.now events }
        ensures { (events : List Event) → Tells self.now events → result ≡ Once.allows passes event events }
    {
        let thread = self.snapshot(event.pid, event.tid);
        let destroyed = self.was_destroyed(event);
        may_come(passes, event.what, &thread, destroyed)
    }

    // Whether a new thread may get an id.
    fn is_open(&self, pid: u32, id: u32) -> bool
        requires { 0 < slot_count self.now }
        ensures { (detached : Bool) (events : List Event) → Tells self.now events → result ≡ SlotLaw.may_create (slot_count self.now) (what.Created id detached) pid events }
    {
        let row = self.rows.at(pid, id);
        !row.known && self.holders.is_free(pid, slot_of(self.slots, id))
    }

    /// Whether the law of thread ids and slots allows an event.
    pub fn allows_slot(&self, event: Event) -> bool
        requires { 0 < slot_count self.now }
        ensures { (events : List Event) → Tells self.now events → result ≡ SlotLaw.allows (slot_count self.now) event events }
    {
        match event.what {
            What::Created { id, .. } => self.is_open(event.pid, id),
            _ => true,
        }
    }

    /// Whether the law of joins allows an event.
    pub fn allows_join(&self, event: Event) -> bool
        ensures { (events : List Event) → Tells self.now events → result ≡ JoinLaw.allows event events }
    {
        may_name(&self.rows, event)
    }

    // Whether an event may come with the owners of mutexes.
    fn owners_allow(&self, event: Event) -> bool
        ensures { (events : List Event) → Tells self.now events → result ≡ CondLaw.owners_allow event events }
    {
        match event.what {
            What::Acquired(m) => self.owners.get(event.pid, m) == 0,
            What::Released(m) => self.owners.get(event.pid, m) == event.tid,
            _ => true,
        }
    }

    /// Whether the law of mutexes and condition waits allows an event.
    pub fn allows_cond(&self, event: Event) -> bool
        ensures { (events : List Event) → Tells self.now events → result ≡ CondLaw.allows event events }
    {
        let stage = self.rows.at(event.pid, event.tid).stage;
        self.owners_allow(event) && may_follow(stage, event.what) && may_hand_on(self.last, event)
    }

    /// Whether the law of pthread_once allows an event.
    pub fn allows_call_once(&self, event: Event) -> bool
        ensures { (events : List Event) → Tells self.now events → result ≡ OnceLaw.allows event events }
    {
        match event.what {
            What::OnceCalled(o) => may_call(self.controls.state(event.pid, o)),
            What::OnceDone(o) => may_return(self.controls.state(event.pid, o), event.tid),
            _ => true,
        }
    }
}
