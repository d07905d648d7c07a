//! The monitors of all laws.

ghost use Rattle.std.specs.Prelude.{◌≡◌, ◌<◌, ℕ, List, [], ◌∷◌, IfOk};
ghost use Rattle.pct_model.specs.declared.event.Event.{Event as AnEvent};
ghost use Rattle.pct_process_monitors.specs.FactsOfThreads.{AreFacts};
ghost use Rattle.pct_event_judge.specs.Allowed.{AreAllowed};

use crate::findings::Allowed;
use pct_audit::Judge;
use pct_handler_monitor::HandlerMonitor;
use pct_io::NoMemory;
use pct_model::{Event, What};
use pct_process_monitors::{KeyMonitor, ProcessMonitor, ThreadFacts};
use pct_thread_monitors::ThreadMonitor;
use std::alloc::Global;

/// What the laws read of the events so far.
#[derive(Drop)]
pub(crate) struct Monitors {
    judge: Judge,
    handlers: HandlerMonitor,
    threads: ThreadMonitor,
    processes: ProcessMonitor,
    keys: KeyMonitor,
}

// The monitors of which one event changes several tables.
#[derive(Drop)]
struct Tables {
    judge: Judge,
    threads: ThreadMonitor,
    processes: ProcessMonitor,
}

impl Monitors {
    ghost use Rattle.pct_event_judge.specs.Monitored.{AreMonitored, slots_in};

    /// Before the first event.
    pub fn new(alloc: Global, slots: u32) -> Result<Monitors, NoMemory>
        requires { 0 < slots }
        ensures told { IfOk result (λ monitors. AreMonitored monitors []) }
        ensures slots { IfOk result (λ monitors. slots_in monitors ≡ slots) }
    {
        let judge = Judge::new(alloc, slots)?;
        let threads = match ThreadMonitor::new(alloc) {
            Ok(threads) => threads,
            Err(error) => {
                drop(judge);
                return Err(error);
            }
        };
        Ok(Monitors {
            judge,
            handlers: HandlerMonitor::new(alloc),
            threads,
            processes: ProcessMonitor::new(alloc),
            keys: KeyMonitor::new(alloc),
        })
    }

    /// After one more event. Where memory runs out the monitors are dropped.
    pub fn add(mut self, event: Event) -> Result<Monitors, NoMemory>
        requires told { (events : List AnEvent) × AreMonitored self events }
        ensures slots { IfOk result (λ next. slots_in next ≡ slots_in self) }
        ensures told { IfOk result (λ next. (events : List AnEvent) → AreMonitored self events → AreMonitored next (event ∷ events)) }
    {
        self.handlers.add(&self.judge, event)?;
        self.keys.add(event)?;
        let tables = Tables {
            judge: self.judge,
            threads: self.threads,
            processes: self.processes,
        };
        let tables = tables.add(event)?;
        Ok(Monitors {
            judge: tables.judge,
            threads: tables.threads,
            processes: tables.processes,
            ..self
        })
    }

    // What is known of the thread of an event, and of the thread that it joins.
    fn facts(&self, event: Event) -> ThreadFacts
        ensures { (events : List AnEvent) → AreMonitored self.now events → AreFacts result event events }
    {
        ThreadFacts {
            known: self.threads.is_known(event.pid, event.tid),
            ended: self.threads.has_ended(event.pid, event.tid),
            exiting: self.threads.is_exiting(event.pid, event.tid),
            joined_known: match event.what {
                What::Joined(id, _) => self.threads.is_known(event.pid, id),
                _ => false,
            },
        }
    }

    /// Which laws allow an event, with a limit on the passes over destructors.
    pub fn allowed(&self, passes: u32, event: Event) -> Allowed
        requires told { (events : List AnEvent) × AreMonitored self.now events }
        ensures { (events : List AnEvent) → AreMonitored self.now events → AreAllowed passes (slots_in self.now) event events result }
    {
        Allowed {
            once: self.judge.allows_once(passes, event),
            ran_all: self.handlers.allows(&self.judge, event),
            after_end: self.threads.allows_after_end(event),
            process: self.processes.allows(event, self.facts(event)),
            slot: self.judge.allows_slot(event),
            join: self.judge.allows_join(event),
            cond: self.judge.allows_cond(event),
            call_once: self.judge.allows_call_once(event),
            requests: self
                .threads
                .allows_request(event, self.judge.stage(event.pid, event.tid)),
            keys: self.keys.allows(event),
        }
    }
}

impl Tables {
    ghost use Rattle.pct_audit.specs.IsRow.{Grows};
    ghost use Rattle.pct_audit.specs.Tells.{Tells, handler_stacks, slot_count};
    ghost use Rattle.pct_process_monitors.specs.ProcessesSoFar.{MonitorsProcesses};
    ghost use Rattle.pct_thread_monitors.specs.Monitors.{Monitors as MonitorsThreads};

    // After one more event.
    fn add(self, event: Event) -> Result<Tables, NoMemory>
        requires told { (events : List AnEvent) × Tells self.judge events }
        ensures slots { IfOk result (λ next. slot_count next.judge ≡ slot_count self.judge) }
        ensures stacks { IfOk result (λ next. Grows (handler_stacks self.judge) (handler_stacks next.judge)) }
        ensures told { IfOk result (λ next. (events : List AnEvent) → Tells self.judge events → Tells next.judge (event ∷ events)) }
        ensures threads { IfOk result (λ next. (events : List AnEvent) → MonitorsThreads self.threads events → MonitorsThreads next.threads (event ∷ events)) }
        ensures processes { IfOk result (λ next. (events : List AnEvent) → MonitorsProcesses self.processes events → MonitorsProcesses next.processes (event ∷ events)) }
    {
        let judge = match self.judge.add(event) {
            Ok(judge) => judge,
            Err(error) => {
                drop(self.threads);
                drop(self.processes);
                return Err(error);
            }
        };
        let threads = match self.threads.add(event) {
            Ok(threads) => threads,
            Err(error) => {
                drop(judge);
                drop(self.processes);
                return Err(error);
            }
        };
        let processes = match self.processes.add(event) {
            Ok(processes) => processes,
            Err(error) => {
                drop(judge);
                drop(threads);
                return Err(error);
            }
        };
        Ok(Tables {
            judge,
            threads,
            processes,
        })
    }
}
