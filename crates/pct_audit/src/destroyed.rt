//! The destructors that were called.

ghost use Rattle.std.specs.Prelude.{◌≡◌, ℕ, ◌&&◌, ◌||◌, false, OnOk, nat_eq};

use pct_io::NoMemory;
use pct_model::What;
use std::alloc::Global;
use std::collections::BTreeSet;

/// The destructors that threads called: process and thread, pass and key.
#[derive(Drop)]
pub struct Destroyed {
    set: BTreeSet<((u32, u32), (u32, u32))>,
}

impl Destroyed {
    ghost use Rattle.pct_audit.specs.DestroyedKeys.{is_destroyed};
    ghost use Rattle.pct_audit.specs.DestroyedEvents.{destroys};

    /// No destructor was called.
    pub fn new(alloc: Global) -> Destroyed
        ensures { (pid tid pass key : ℕ) → is_destroyed result pid tid pass key ≡ false }
    {
        Destroyed {
            set: BTreeSet::new(alloc),
        }
    }

    /// Whether the destructor of a key was called in a pass of a thread.
    pub fn has(&self, pid: u32, tid: u32, pass: u32, key: u32) -> bool
        ensures { result ≡ is_destroyed self.now pid tid pass key }
    {
        self.set.contains(&((pid, tid), (pass, key)))
    }

    /// The destructor of a key is called in a pass of a thread.
    pub fn insert(&mut self, pid: u32, tid: u32, pass: u32, key: u32) -> Result<(), NoMemory>
        ensures { OnOk result ((p t q k : ℕ) → is_destroyed self.new p t q k ≡ (((nat_eq pid p && nat_eq tid t) && (nat_eq pass q && nat_eq key k)) || is_destroyed self.old p t q k)) }
    {
        self.set.insert(((pid, tid), (pass, key)))?;
        Ok(())
    }

    /// After an event of a thread.
    pub fn add(&mut self, pid: u32, tid: u32, what: What) -> Result<(), NoMemory>
        ensures { OnOk result ((p t q k : ℕ) → is_destroyed self.new p t q k ≡ (((nat_eq pid p && nat_eq tid t) && destroys q k what) || is_destroyed self.old p t q k)) }
    {
        match what {
            What::DtorRun { pass, key, .. } => self.insert(pid, tid, pass, key),
            _ => Ok(()),
        }
    }
}
