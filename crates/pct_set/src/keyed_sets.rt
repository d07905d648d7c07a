//! A key for each slot, and the sets of the slots with each key.

ghost use Rattle.std.specs.Prelude.{◌≡◌, ◌<◌, true, [], replicate, slice_index_or, slice_set, nat_eq};
ghost use Rattle.pct_set.specs.Slots.{slots_where, with_slot, without_slot};
ghost use Rattle.pct_set.specs.Keyed.{key_at};
ghost use Rattle.pct_set.specs.declared.keyed_sets.TheConstants.{KEYS, NO_KEY};

use crate::SlotSet;
use std::marker::Model;

/// The number of keys.
pub const KEYS: usize = 65;

/// The key of a slot to which no other key was given.
pub const NO_KEY: u32 = 64;

/// A key below KEYS (65) for each of 64 slots. The slots with a key are known without a look at each slot. In a contract it is the list of
/// the keys, by slot.
#[derive(Drop)]
pub struct KeyedSets {
    keys: [u32; 64],
    // For each key, the slots that have it.
    sets: [SlotSet; KEYS],
}

impl Model for KeyedSets {
    ghost use Rattle.std.specs.Prelude.{ℕ, List};
    ghost use Rattle.pct_set.specs.Keyed.{AreKeyed};

    ghost Value = { List ℕ };

    ghost view = { λ k. k.keys };

    ghost invariant = { λ k. AreKeyed k.keys k.sets };
}

impl KeyedSets {
    /// Each slot has the key NO_KEY (64).
    pub fn new() -> KeyedSets
        ensures { result ≡ replicate 64 NO_KEY }
    {
        KeyedSets {
            keys: no_keys(),
            sets: first_sets(),
        }
    }

    /// The slots with a key, which must be below KEYS (65).
    pub fn with_key(&self, key: u32) -> SlotSet
        requires { key < KEYS }
        ensures { result ≡ slots_where (λ k. nat_eq (key_at self.now k) key) }
    {
        self.sets[key as usize]
    }

    /// Gives a slot, which must be below 64, a key, which must be below KEYS (65).
    pub fn put(&mut self, slot: u32, key: u32)
        requires slot { slot < 64 }
        requires key { key < KEYS }
        ensures { self.new ≡ slice_set self.old slot key }
    {
        let from = self.keys[slot as usize];
        // Most often a slot has the key.
        if from != key {
            take_out(&mut self.sets, from, slot);
            put_in(&mut self.sets, key, slot);
            self.keys[slot as usize] = key;
        }
    }
}

// Each slot has the last key.
fn no_keys() -> [u32; 64]
    ensures { result ≡ replicate 64 NO_KEY }
{
    [NO_KEY; 64]
}

// The set of the last key has all slots.
fn first_sets() -> [SlotSet; KEYS]
    ensures { result ≡ slice_set (replicate KEYS []) NO_KEY (slots_where (λ _. true)) }
{
    let mut sets = [SlotSet::new(); KEYS];
    sets[NO_KEY as usize] = SlotSet::all();
    sets
}

// Removes a slot from the set of a key.
fn take_out(sets: &mut [SlotSet; KEYS], key: u32, slot: u32)
    requires key { key < KEYS }
    requires slot { slot < 64 }
    ensures { sets.new ≡ slice_set sets.old key (without_slot slot (slice_index_or sets.old key [])) }
{
    sets[key as usize].remove(slot);
}

// Adds a slot to the set of a key.
fn put_in(sets: &mut [SlotSet; KEYS], key: u32, slot: u32)
    requires key { key < KEYS }
    requires slot { slot < 64 }
    ensures { sets.new ≡ slice_set sets.old key (with_slot slot (slice_index_or sets.old key [])) }
{
    sets[key as usize].insert(slot);
}
