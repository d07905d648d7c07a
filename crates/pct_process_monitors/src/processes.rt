//! The monitor of the law of processes.

ghost use Rattle.std.specs.Prelude.{◌≡◌, ℕ, List, [], ◌∷◌, IfOk, OnOk};
ghost use Rattle.pct_model.specs.declared.event.Event.{Event as AnEvent};
ghost use Rattle.pct_laws.specs.ProcessEnds.{end_status, exit_value};
ghost use Rattle.pct_laws.specs.ProcessLaw as ProcessLaw;

use crate::changes::{add_child, add_present, add_reaped, change_exit, change_status, is_stop};
use crate::facts::ThreadFacts;
use pct_io::NoMemory;
use pct_model::{Event, What};
use std::alloc::Global;
use std::collections::{BTreeMap, BTreeSet};

/// What the law of processes reads of the events so far.
#[derive(Drop)]
pub struct ProcessMonitor {
    // Whether an event is a stop.
    stopped: bool,
    // The newest status with which each process ended, and its newest exit value.
    statuses: BTreeMap<u32, u32>,
    exits: BTreeMap<u32, u32>,
    // The processes that a fork made, and those that have an event.
    present: BTreeSet<u32>,
    // For each fork its process and the child.
    children: BTreeSet<(u32, u32)>,
    // The processes that were reaped.
    reaped: BTreeSet<u32>,
}

impl ProcessMonitor {
    ghost use Rattle.pct_process_monitors.specs.FactsOfThreads.{AreFacts};
    ghost use Rattle.pct_process_monitors.specs.ProcessesSoFar.{MonitorsProcesses};

    /// Before the first event.
    pub fn new(alloc: Global) -> ProcessMonitor
        ensures { MonitorsProcesses result [] }
    {
        ProcessMonitor {
            stopped: false,
            statuses: BTreeMap::new(alloc),
            exits: BTreeMap::new(alloc),
            present: BTreeSet::new(alloc),
            children: BTreeSet::new(alloc),
            reaped: BTreeSet::new(alloc),
        }
    }

    /// After one more event. Where memory runs out the monitor is dropped.
    pub fn add(mut self, event: Event) -> Result<ProcessMonitor, NoMemory>
        ensures { IfOk result (λ next. (events : List AnEvent) → MonitorsProcesses self events → MonitorsProcesses next (event ∷ events)) }
    {
        self.take_in(event)?;
        Ok(self)
    }

    // Takes in one more event, or after `NoMemory` a part of it.
    fn take_in(&mut self, event: Event) -> Result<(), NoMemory>
        ensures { OnOk result ((events : List AnEvent) → MonitorsProcesses self.old events → MonitorsProcesses self.new (event ∷ events)) }
    {
        change_status(&mut self.statuses, event)?;
        change_exit(&mut self.exits, event)?;
        add_present(&mut self.present, event)?;
        add_child(&mut self.children, event)?;
        add_reaped(&mut self.reaped, event.what)?;
        self.stopped = is_stop(event.what) || self.stopped;
        Ok(())
    }

    // Whether a process ended with a status.
    fn has_status(&self, pid: u32, status: u32) -> bool
        ensures { (events : List AnEvent) → MonitorsProcesses self.now events → result ≡ ProcessLaw.has_status status (end_status pid events) }
    {
        match self.statuses.get(&pid) {
            Some(end) => *end == status,
            None => false,
        }
    }

    // Whether a status is that of the exit value of a process.
    fn is_status_of_exit(&self, pid: u32, status: u32) -> bool
        ensures { (events : List AnEvent) → MonitorsProcesses self.now events → result ≡ ProcessLaw.is_status_of status (exit_value pid events) }
    {
        match self.exits.get(&pid) {
            Some(value) => status == *value % 256,
            None => false,
        }
    }

    // Whether an event may change what it changes.
    fn may_change(&self, event: Event, facts: ThreadFacts) -> bool
        ensures { (events : List AnEvent) → MonitorsProcesses self.now events → AreFacts facts event events → result ≡ ProcessLaw.changes_allow event events }
    {
        match event.what {
            What::ExitBegun(_) => self.exits.get(&event.pid).is_none(),
            What::ProcessEnded(status) => {
                status < 256 && (!facts.exiting || self.is_status_of_exit(event.pid, status))
            }
            What::Forked(child) => child != 1 && !self.present.contains(&child),
            What::Reaped(child, status) => {
                self.children.contains(&(event.pid, child))
                    && self.has_status(child, status)
                    && !self.reaped.contains(&child)
            }
            What::Joined(id, _) => facts.joined_known && id != event.tid && !facts.ended,
            _ => true,
        }
    }

    /// Whether the law of processes allows an event.
    pub fn allows(&self, event: Event, facts: ThreadFacts) -> bool
        ensures { (events : List AnEvent) → MonitorsProcesses self.now events → AreFacts facts event events → result ≡ ProcessLaw.allows event events }
    {
        !self.stopped
            && self.statuses.get(&event.pid).is_none()
            && facts.known
            && self.may_change(event, facts)
    }
}
