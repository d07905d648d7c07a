//! Maps from numbers to numbers, one for each process.

ghost use Rattle.std.specs.Prelude.{◌≡◌, ℕ, ◌<◌, ◌^◌, ◌&&◌, if◌then◌else◌, nat_eq, OnOk, OnErr};
ghost use Rattle.pct_process_maps.specs.Roots.{AreRoots, AreRoots-prop};

use pct_io::NoMemory;
use pct_versions::Versions;
use std::alloc::Global;
use std::collections::BTreeMap;

// Keys are numbers of so many bits.
const HEIGHT: u32 = 32;

/// A map from numbers to numbers for each process, as the one from mutexes to their owners. A fork copies one number.
#[derive(Drop)]
pub struct ProcessMaps {
    // For each process, the version of its map.
    roots: BTreeMap<u32, u32>,
    versions: Versions,
    ghost kept: { AreRoots versions roots } by { AreRoots-prop versions roots },
}

impl ProcessMaps {
    ghost use Rattle.pct_process_maps.specs.Values.{value_in};

    /// Each process has the map with the value 0 at every key.
    pub fn new(alloc: Global) -> ProcessMaps
        ensures { (pid key : ℕ) → value_in result pid key ≡ 0 }
    {
        ProcessMaps {
            roots: BTreeMap::new(alloc),
            versions: Versions::new(alloc),
        }
    }

    /// The value at a key in the map of a process.
    pub fn get(&self, pid: u32, key: u32) -> u32
        ensures { result ≡ value_in self.now pid key }
    {
        let root = self.roots.get(&pid).copied().unwrap_or(0);
        self.versions.get(HEIGHT, root, key)
    }

    /// Gives a key another value in the map of a process. `NoMemory` leaves all values as they were.
    pub fn set(&mut self, pid: u32, key: u32, value: u32) -> Result<(), NoMemory>
        ensures ok { OnOk result ((q k : ℕ) → k < 2 ^ 32 → value_in self.new q k ≡ (if nat_eq pid q && nat_eq key k then value else value_in self.old q k)) }
        ensures unchanged { OnErr result ((q k : ℕ) → value_in self.new q k ≡ value_in self.old q k) }
    {
        let root = self.roots.get(&pid).copied().unwrap_or(0);
        let changed = self.versions.set(HEIGHT, root, key, value)?;
        self.roots.insert(pid, changed)?;
        Ok(())
    }

    /// Gives a process the map of another one. `NoMemory` leaves all values as they were.
    pub fn copy(&mut self, from: u32, to: u32) -> Result<(), NoMemory>
        ensures ok { OnOk result ((q k : ℕ) → value_in self.new q k ≡ (if nat_eq to q then value_in self.old from k else value_in self.old q k)) }
        ensures unchanged { OnErr result ((q k : ℕ) → value_in self.new q k ≡ value_in self.old q k) }
    {
        let root = self.roots.get(&from).copied().unwrap_or(0);
        self.roots.insert(to, root)?;
        Ok(())
    }
}
