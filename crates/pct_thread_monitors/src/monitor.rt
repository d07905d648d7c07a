//! The monitor of threads.

ghost use Rattle.std.specs.Prelude.{◌≡◌, ℕ, List, [], ◌∷◌, ◌&&◌, IfOk, OnOk, if◌then◌else◌, nat_eq};
ghost use Rattle.pct_model.specs.declared.event.Event.{Event};
ghost use Rattle.pct_laws.specs.AfterEnd as AfterEnd;
ghost use Rattle.pct_laws.specs.AfterEnd.{all_have_ended};
ghost use Rattle.pct_laws.specs.KnownThreads.{is_known, makes_process};
ghost use Rattle.pct_laws.specs.RequestsLaw as RequestsLaw;
ghost use Rattle.pct_laws.specs.ThreadSummary.{summary_of, thread_ended};
ghost use Rattle.pct_laws.specs.WaitStages.{wait_stage};

use crate::after_end::{begins_exit_with_0, is_of_exit};
use crate::note::Note;
use crate::requests::may_act;
use pct_holders::Holders;
use pct_io::NoMemory;
use pct_laws::WaitStage;
use pct_model::{Event, What};
use std::alloc::Global;
use std::collections::BTreeMap;

/// What the laws of requests and of what follows the end of a thread read of the events so far.
#[derive(Drop)]
pub struct ThreadMonitor {
    // A note for each thread that was changed: by the ids of its process and its own.
    notes: BTreeMap<(u32, u32), Note>,
    // The known threads that have not ended, all at slot 0.
    unended: Holders,
}

impl ThreadMonitor {
    ghost use Rattle.pct_thread_monitors.specs.Monitors.{Monitors, HasUnended};
    ghost use Rattle.pct_thread_monitors.specs.NotesOf.{note_of};
    ghost use Rattle.pct_thread_monitors.specs.Notes.{names, marked, copied};

    /// Before the first event.
    pub fn new(alloc: Global) -> Result<ThreadMonitor, NoMemory>
        ensures { IfOk result (λ monitor. Monitors monitor []) }
    {
        let mut unended = Holders::new(alloc);
        unended.set(1, 0, 1, true)?;
        Ok(ThreadMonitor {
            notes: BTreeMap::new(alloc),
            unended,
        })
    }

    /// After one more event. Where memory runs out the monitor is dropped.
    pub fn add(mut self, event: Event) -> Result<ThreadMonitor, NoMemory>
        ensures { IfOk result (λ next. (events : List Event) → Monitors self events → Monitors next (event ∷ events)) }
    {
        self.take_in(event)?;
        Ok(self)
    }

    // Takes in one more event, or after `NoMemory` a part of it.
    fn take_in(&mut self, event: Event) -> Result<(), NoMemory>
        ensures { OnOk result ((events : List Event) → Monitors self.old events → Monitors self.new (event ∷ events)) }
    {
        self.mark(event.pid, event.what)?;
        let caller = self.note(event.pid, event.tid);
        self.replicate(event.what, event.tid, caller)?;
        let note = self.note(event.pid, event.tid);
        self.set_note(event.pid, event.tid, note.after(event.what))?;
        Ok(())
    }

    /// Whether the law of requests allows an event; `stage` is how far the newest condition wait of its thread is.
    pub fn allows_request(&self, event: Event, stage: WaitStage) -> bool
        ensures { (events : List Event) → Monitors self.now events → stage ≡ wait_stage event.pid event.tid events
            → result ≡ RequestsLaw.allows event events }
    {
        may_act(event.what, &self.note(event.pid, event.tid), stage)
    }

    /// Whether the law of what follows the end of a thread allows an event.
    pub fn allows_after_end(&self, event: Event) -> bool
        ensures { (events : List Event) → Monitors self.now events → result ≡ AfterEnd.allows event events }
    {
        let note = self.note(event.pid, event.tid);
        if note.exiting {
            is_of_exit(event.what)
        } else if note.ended {
            begins_exit_with_0(event.what) && self.all_have_ended(event.pid)
        } else {
            true
        }
    }

    /// Whether a thread is known.
    pub fn is_known(&self, pid: u32, tid: u32) -> bool
        ensures { (events : List Event) → Monitors self.now events → result ≡ is_known pid tid events }
    {
        self.note(pid, tid).known
    }

    /// Whether a thread has ended.
    pub fn has_ended(&self, pid: u32, tid: u32) -> bool
        ensures { (events : List Event) → Monitors self.now events → result ≡ thread_ended pid tid events }
    {
        self.note(pid, tid).ended
    }

    /// Whether a thread has begun to exit its process.
    pub fn is_exiting(&self, pid: u32, tid: u32) -> bool
        ensures { (events : List Event) → Monitors self.now events → result ≡ (summary_of pid tid events).exiting }
    {
        self.note(pid, tid).exiting
    }

    // Whether each known thread of a process has ended.
    fn all_have_ended(&self, pid: u32) -> bool
        ensures { (events : List Event) → Monitors self.now events → result ≡ all_have_ended pid events }
    {
        self.unended.is_free(pid, 0)
    }

    // The note of a thread.
    fn note(&self, pid: u32, tid: u32) -> Note
        ensures { result ≡ note_of self.now pid tid }
    {
        match self.notes.get(&(pid, tid)) {
            Some(note) => *note,
            None => Note {
                requested: false,
                enabled: true,
                begun: false,
                exiting: false,
                ended: false,
                known: 1 == pid && 1 == tid,
                newest: None,
            },
        }
    }

    // Gives a thread another note.
    fn set_note(&mut self, pid: u32, tid: u32, note: Note) -> Result<(), NoMemory>
        ensures notes { OnOk result ((p t : ℕ) → note_of self.new p t
            ≡ (if nat_eq pid p && nat_eq tid t then note else note_of self.old p t)) }
        ensures unended { OnOk result (HasUnended self.old → HasUnended self.new) }
    {
        self.notes.insert((pid, tid), note)?;
        self.unended.set(pid, 0, tid, note.is_unended())?;
        Ok(())
    }

    // Changes the note of the thread that an event creates, or whose end it requests.
    fn mark(&mut self, pid: u32, what: What) -> Result<(), NoMemory>
        ensures notes { OnOk result ((p t : ℕ) → note_of self.new p t
            ≡ (if nat_eq pid p && names t what then marked what (note_of self.old p t) else note_of self.old p t)) }
        ensures unended { OnOk result (HasUnended self.old → HasUnended self.new) }
    {
        match what {
            What::Created { id, .. } => {
                let note = self.note(pid, id);
                self.set_note(
                    pid,
                    id,
                    Note {
                        known: true,
                        ..note
                    },
                )
            }
            What::Request(id) => {
                let note = self.note(pid, id);
                self.set_note(
                    pid,
                    id,
                    Note {
                        requested: true,
                        ..note
                    },
                )
            }
            _ => Ok(()),
        }
    }

    // Changes the note of the replica that a fork makes of the thread that called it.
    fn replicate(&mut self, what: What, tid: u32, caller: Note) -> Result<(), NoMemory>
        ensures notes { OnOk result ((p t : ℕ) → note_of self.new p t
            ≡ (if nat_eq tid t && makes_process p what then copied caller (note_of self.old p t) else note_of self.old p t)) }
        ensures unended { OnOk result (HasUnended self.old → HasUnended self.new) }
    {
        match what {
            What::Forked(child) => {
                let replica = self.note(child, tid);
                self.set_note(
                    child,
                    tid,
                    Note {
                        known: true,
                        enabled: caller.enabled,
                        ..replica
                    },
                )
            }
            _ => Ok(()),
        }
    }
}
