//! The monitor of the law of handlers that ran.

ghost use Rattle.std.specs.Prelude.{◌≡◌, ℕ, ◌<◌, ◌&&◌, List, [], ◌∷◌, length, reverse, IfOk, IfSome, OnOk, OnErr, option_map};
ghost use Rattle.pct_model.specs.declared.event.Event.{Event as AnEvent};
ghost use Rattle.pct_laws.specs.RanAll as RanAll;
ghost use Rattle.pct_laws.specs.RanAll.{has_begun, are_same, handlers_run, open_at_ending};
ghost use Rattle.pct_audit.specs.IsRow.{Grows};
ghost use Rattle.pct_audit.specs.Stacks.{stack_at};
ghost use Rattle.pct_audit.specs.Tells.{Tells, handler_stacks};
ghost use Rattle.pct_handler_monitor.specs.Left.{left_after};
ghost use Rattle.pct_handler_monitor.specs.IsRan.{IsBeforeEnd, IsRan};

use crate::events::{begins_to_end, handler_run};
use crate::left::{left_after_event, left_of, listed};
use crate::ran::RanHandlers;
use pct_audit::{Judge, Stacks};
use pct_io::NoMemory;
use pct_model::{Event, What};
use std::alloc::Global;
use std::collections::BTreeMap;

/// What is kept of the events so far to decide the law of handlers that ran: as a thread ends, the cleanup handlers that ran are those
/// that were open as it began to end, the newest first.
///
/// The events may be any. An event costs a search in a table. The one by which a thread begins to end costs a step more for each
/// handler that the thread ran before.
#[derive(Drop)]
pub struct HandlerMonitor {
    alloc: Global,
    // What each thread ran, by the ids of its process and its own.
    threads: BTreeMap<(u32, u32), RanHandlers>,
    // The stacks of handlers that threads ran before they began to end.
    ran: Stacks,
}

impl HandlerMonitor {
    ghost use Rattle.pct_handler_monitor.specs.Monitors.{ran_of, MonitorsHandlers};

    /// Before the first event.
    pub fn new(alloc: Global) -> HandlerMonitor
        ensures { (stacks : List (List (ℕ × ℕ))) → MonitorsHandlers result stacks [] }
    {
        HandlerMonitor {
            alloc,
            threads: BTreeMap::new(alloc),
            ran: Stacks::new(alloc),
        }
    }

    // What a thread ran.
    fn thread(&self, pid: u32, tid: u32) -> RanHandlers
        ensures { result ≡ ran_of self.now pid tid }
    {
        match self.threads.get(&(pid, tid)) {
            Some(thread) => *thread,
            None => RanHandlers::BeforeEnd { ran: 0 },
        }
    }

    // What is left of the open handlers of a thread that begins to end, after those on a stack ran.
    fn left_at_ending(
        &self,
        judge: &Judge,
        ran: usize,
        pushed: usize,
    ) -> Result<Option<usize>, NoMemory>
        requires ran { ran < length self.now.ran }
        requires pushed { pushed < length (handler_stacks judge.now) }
        ensures within { IfOk result (λ left. IfSome left (λ number. number < length (handler_stacks judge.now))) }
        ensures left { IfOk result (λ left. option_map (stack_at (handler_stacks judge.now)) left ≡ left_after (reverse (stack_at self.now.ran ran)) (stack_at (handler_stacks judge.now) pushed)) }
    {
        let handlers = listed(self.alloc, &self.ran, ran)?;
        Ok(left_of(judge.stacks(), pushed, handlers))
    }

    // What a thread ran that had not begun to end, after one more event of it.
    fn before_end(
        &mut self,
        judge: &Judge,
        ran: usize,
        event: Event,
    ) -> Result<RanHandlers, NoMemory>
        requires told { (events : List AnEvent) × Tells judge.now events }
        requires within { ran < length self.old.ran }
        ensures threads { self.new.threads ≡ self.old.threads }
        ensures stacks { Grows self.old.ran self.new.ran }
        ensures thread { IfOk result (λ next. (events : List AnEvent) → Tells judge.now events → IsBeforeEnd self.old.ran ran event.pid event.tid events → IsRan next self.new.ran (handler_stacks judge.now) event.pid event.tid (event ∷ events)) }
    {
        if let Some((f, a)) = handler_run(event.what) {
            let ran = self.ran.push(ran, f, a)?;
            Ok(RanHandlers::BeforeEnd { ran })
        } else if begins_to_end(event.what) {
            let pushed = judge.handlers(event.pid, event.tid);
            let left = self.left_at_ending(judge, ran, pushed)?;
            Ok(RanHandlers::Ending { left })
        } else {
            Ok(RanHandlers::BeforeEnd { ran })
        }
    }

    // What a thread ran, after one more event of it.
    fn after(
        &mut self,
        judge: &Judge,
        thread: RanHandlers,
        event: Event,
    ) -> Result<RanHandlers, NoMemory>
        requires told { (events : List AnEvent) × Tells judge.now events }
        requires kept { (events : List AnEvent) × IsRan thread self.old.ran (handler_stacks judge.now) event.pid event.tid events }
        ensures threads { self.new.threads ≡ self.old.threads }
        ensures stacks { Grows self.old.ran self.new.ran }
        ensures thread { IfOk result (λ next. (events : List AnEvent) → Tells judge.now events → IsRan thread self.old.ran (handler_stacks judge.now) event.pid event.tid events → IsRan next self.new.ran (handler_stacks judge.now) event.pid event.tid (event ∷ events)) }
    {
        match thread {
            RanHandlers::BeforeEnd { ran } => self.before_end(judge, ran, event),
            RanHandlers::Ending { left } => Ok(RanHandlers::Ending {
                left: left_after_event(judge.stacks(), left, event.what),
            }),
        }
    }

    /// After one more event: `judge` has seen those before it. After `NoMemory` the monitor keeps the events that it kept before.
    pub fn add(&mut self, judge: &Judge, event: Event) -> Result<(), NoMemory>
        requires told { (events : List AnEvent) × Tells judge.now events }
        requires kept { (events : List AnEvent) × MonitorsHandlers self.old (handler_stacks judge.now) events }
        ensures ok { OnOk result ((events : List AnEvent) → Tells judge.now events → MonitorsHandlers self.old (handler_stacks judge.now) events → MonitorsHandlers self.new (handler_stacks judge.now) (event ∷ events)) }
        ensures unchanged { OnErr result ((events : List AnEvent) → Tells judge.now events → MonitorsHandlers self.old (handler_stacks judge.now) events → MonitorsHandlers self.new (handler_stacks judge.now) events) }
    {
        let thread = self.thread(event.pid, event.tid);
        let next = self.after(judge, thread, event)?;
        self.threads.insert((event.pid, event.tid), next)?;
        Ok(())
    }

    // Whether a thread began to end, and the handlers that ran are those that were open then.
    fn ran_all(&self, judge: &Judge, pid: u32, tid: u32) -> bool
        requires { (events : List AnEvent) × MonitorsHandlers self.now (handler_stacks judge.now) events }
        ensures { (events : List AnEvent) → MonitorsHandlers self.now (handler_stacks judge.now) events → result ≡ (has_begun pid tid events && are_same (handlers_run pid tid events) (open_at_ending pid tid events)) }
    {
        match self.thread(pid, tid) {
            RanHandlers::BeforeEnd { .. } => false,
            RanHandlers::Ending { left: None } => false,
            RanHandlers::Ending { left: Some(left) } => judge.stacks().depth(left) == 0,
        }
    }

    /// Whether the law of handlers that ran allows an event after those that the monitor has seen.
    pub fn allows(&self, judge: &Judge, event: Event) -> bool
        requires { (events : List AnEvent) × MonitorsHandlers self.now (handler_stacks judge.now) events }
        ensures { (events : List AnEvent) → MonitorsHandlers self.now (handler_stacks judge.now) events → result ≡ RanAll.allows event events }
    {
        match event.what {
            What::EndedWith(_) => self.ran_all(judge, event.pid, event.tid),
            _ => true,
        }
    }
}
