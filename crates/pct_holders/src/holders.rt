//! The set of the threads that hold their slots.

ghost use Rattle.std.specs.Prelude.{◌≡◌, ℕ, ◌<◌, ◌&&◌, false, true, OnOk, OnErr, if◌then◌else◌, nat_eq};

use pct_io::NoMemory;
use std::alloc::Global;
use std::collections::BTreeSet;

/// Threads that hold their slots. The threads of one slot are next to each other.
#[derive(Drop)]
pub struct Holders {
    // For each thread its process, its slot and its id.
    threads: BTreeSet<((u32, u32), u32)>,
}

impl Holders {
    ghost use Rattle.pct_holders.specs.Holds.{holds};

    /// No thread holds a slot.
    pub fn new(alloc: Global) -> Holders
        ensures { (pid slot tid : ℕ) → holds result pid slot tid ≡ false }
    {
        Holders {
            threads: BTreeSet::new(alloc),
        }
    }

    /// Whether no thread of the process holds the slot, which must be below 4,294,967,295.
    pub fn is_free(&self, pid: u32, slot: u32) -> bool
        requires { slot < 4294967295 }
        ensures free { result ≡ true → (tid : ℕ) → holds self.now pid slot tid ≡ false }
        ensures held { result ≡ false → (tid : ℕ) × (holds self.now pid slot tid ≡ true) }
    {
        let first = ((pid, slot), 0_u32);
        let next = ((pid, slot + 1), 0_u32);
        match self.threads.range(first..next).next() {
            None => true,
            Some(_) => false,
        }
    }

    /// The thread holds the slot from now on, or no longer.
    pub fn set(&mut self, pid: u32, slot: u32, tid: u32, is_holder: bool) -> Result<(), NoMemory>
        ensures ok { OnOk result ((p s t : ℕ) → holds self.new p s t ≡ (if (nat_eq pid p && nat_eq slot s) && nat_eq tid t then is_holder else holds self.old p s t)) }
        ensures unchanged { OnErr result ((p s t : ℕ) → holds self.new p s t ≡ holds self.old p s t) }
    {
        if is_holder {
            self.threads.insert(((pid, slot), tid))?;
        } else {
            self.threads.remove(&((pid, slot), tid));
        }
        Ok(())
    }
}
