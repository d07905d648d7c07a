//! The monitor of the law of keys.

ghost use Rattle.std.specs.Prelude.{◌≡◌, List, [], ◌∷◌, OnOk, OnErr};
ghost use Rattle.pct_model.specs.declared.event.Event.{Event as AnEvent};
ghost use Rattle.pct_laws.specs.KeysLaw as KeysLaw;

use pct_io::NoMemory;
use pct_model::{Event, What};
use pct_process_maps::ProcessMaps;
use std::alloc::Global;

/// The keys of thread-specific data of each process. A fork copies one number.
#[derive(Drop)]
pub struct KeyMonitor {
    // For each process a 1 at each of its keys, and a 0 at the other numbers.
    keys: ProcessMaps,
}

impl KeyMonitor {
    ghost use Rattle.pct_process_monitors.specs.KeysOfProcesses.{AreKeys};

    /// Before the first event no process has a key.
    pub fn new(alloc: Global) -> KeyMonitor
        ensures { AreKeys result [] }
    {
        KeyMonitor {
            keys: ProcessMaps::new(alloc),
        }
    }

    /// After one more event. After `NoMemory` the monitor keeps the events that it kept before.
    pub fn add(&mut self, event: Event) -> Result<(), NoMemory>
        ensures ok { OnOk result ((events : List AnEvent) → AreKeys self.old events → AreKeys self.new (event ∷ events)) }
        ensures unchanged { OnErr result ((events : List AnEvent) → AreKeys self.old events → AreKeys self.new events) }
    {
        match event.what {
            What::Forked(child) => self.keys.copy(event.pid, child),
            What::KeyMade(key) => self.keys.set(event.pid, key, 1),
            What::KeyGone(key) => self.keys.set(event.pid, key, 0),
            _ => Ok(()),
        }
    }

    /// Whether the law of keys allows an event.
    pub fn allows(&self, event: Event) -> bool
        ensures { (events : List AnEvent) → AreKeys self.now events → result ≡ KeysLaw.allows event events }
    {
        match event.what {
            What::DtorRun { key, v, .. } => v != 0 && self.keys.get(event.pid, key) == 1,
            _ => true,
        }
    }
}
