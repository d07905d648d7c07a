//! The table of the keys of one process.

ghost use Rattle.std.specs.Prelude.{◌≡◌, is_some};
ghost use Rattle.pct_model.specs.Keys.{if_number};

use crate::place::{Key, PLACES, Place, key_place, no_keys};
use crate::row::{Row, clear_place, new_rows};
use pct_io::NoMemory;
use pct_model::{MAX_KEYS, MAX_SLOTS};
use std::alloc::Global;
use std::marker::Model;

/// The table of the keys of one process, and of the thread-specific data of its threads. In a contract it is the list of the
/// places for keys and the list of the data of the threads, one for each slot.
///
/// A slot argument is below the number of slots, and a place argument below `MAX_KEYS`.
///
/// A table has memory for 64 slots, however many it has, so that no call but `new` takes memory.
#[derive(Debug, Drop)]
pub struct Keys {
    places: [Place; PLACES],
    /// There is room for 64.
    rows: Vec<Row>,
}

impl Model for Keys {
    ghost use Rattle.std.specs.Prelude.{◌≤◌, vec_len, vec_capacity};
    ghost use Rattle.pct_model.specs.declared.limits.TheConstants.{MAX_SLOTS};
    ghost use Rattle.pct_keys.specs.Tables.{Table, IsSound};

    ghost Value = { Table };

    ghost view = { λ k. record { places = k.places; rows = k.rows.items } };

    ghost invariant = { λ k. IsSound (record { places = k.places; rows = k.rows.items }) × (vec_len k.rows ≤ MAX_SLOTS) × (MAX_SLOTS ≤ vec_capacity k.rows) };
}

impl Keys {
    ghost use Rattle.std.specs.Prelude.{◌≡◌, ◌<◌, ◌≤◌, ◌+◌, ◌^◌, ℕ, true, false, length, Some, None, IfOk, IfSome, IfNone, is_some, option_and_then, option_map, slice_get};
    ghost use Rattle.std.specs.Option.{option_map_or};
    ghost use Rattle.pct_model.specs.declared.limits.TheConstants.{MAX_KEYS, MAX_SLOTS};
    ghost use Rattle.pct_model.specs.Keys.{no_values, key_place, key_at, next_key, key_with, free_places, value_at, with_value, without_value, is_due, due_places, with_pass, is_left, left_places};
    ghost use Rattle.pct_keys.specs.Tables.{IsClear, IsSound, IsUnsetFrom, new_table, row_at, on_row, made_key, with_made, with_deleted, replica_of};

    /// A table for at most 64 slots, without keys. `NoMemory` is returned if the table does not fit into memory.
    pub fn new(alloc: Global, slots: u32) -> Result<Keys, NoMemory>
        requires { slots ≤ MAX_SLOTS }
        ensures { IfOk result (λ keys. keys ≡ new_table slots) }
    {
        let mut rows = Vec::with_capacity(alloc, MAX_SLOTS as usize)?;
        for _ in 0..slots {
            rows.push(Row::new())?;
        }
        Ok(Keys {
            places: no_keys(),
            rows,
        })
    }

    /// Makes this a table for at most 64 slots, without keys, as `new` does. No memory is taken.
    pub fn restart(&mut self, slots: u32)
        requires { slots ≤ MAX_SLOTS }
        ensures { self.new ≡ new_table slots }
    {
        self.places = no_keys();
        new_rows(&mut self.rows, slots as usize);
    }

    // ---- keys

    /// The place of the key with this number. It is `None` exactly if there is none.
    #[tactic(auto, unfolding(pct_model::specs::Keys::key_with))]
    pub fn find(&self, key: u32) -> Option<u32>
        ensures value { result ≡ option_map (λ _. key_place key) (key_with key self.now.places) }
        ensures within { IfSome result (λ place. place < MAX_KEYS) }
        ensures here { IfSome result (λ place. key_at self.now.places place ≡ key_with key self.now.places) }
        ensures none { IfNone result (key_with key self.now.places ≡ None) }
        // This holds of every table.
        ensures sound { IsSound self.now }
    {
        let place = key_place(key);
        if has_number(self.key_at(place), key) {
            Some(place)
        } else {
            None
        }
    }

    /// Whether a key is on the place.
    pub fn is_live(&self, place: u32) -> bool
        requires { place < MAX_KEYS }
        ensures { result ≡ is_some (key_at self.now.places place) }
    {
        self.key_at(place).is_some()
    }

    /// The number of the key on the place, 0 if there is none.
    pub fn number(&self, place: u32) -> u32
        requires { place < MAX_KEYS }
        ensures { result ≡ option_map_or (λ key. key.number) (key_at self.now.places place) 0 }
    {
        match self.key_at(place) {
            Some(key) => key.number(),
            None => 0,
        }
    }

    /// The destructor of the key on the place, if there is a key and it has one.
    pub fn destructor(&self, place: u32) -> Option<u32>
        requires { place < MAX_KEYS }
        ensures { result ≡ option_and_then (λ key. key.destructor) (key_at self.now.places place) }
    {
        match self.key_at(place) {
            Some(key) => key.destructor(),
            None => None,
        }
    }

    /// The number of keys. Each place without a key is free.
    pub fn live(&self) -> u32
        ensures { result + length (free_places self.now.places) ≡ MAX_KEYS }
    {
        let mut count = 0;
        for place in 0..MAX_KEYS {
            count += u32::from(self.is_live(place));
        }
        count
    }

    /// The place at index `n` of those without a key, in rising order. It is `None` exactly if there are at most `n`, that is, if
    /// `n` is at least `MAX_KEYS` less the number of keys.
    pub fn free_nth(&self, n: u32) -> Option<u32>
        ensures value { result ≡ slice_get (free_places self.now.places) n }
        ensures within { IfSome result (λ place. place < MAX_KEYS) }
        ensures free { IfSome result (λ place. key_at self.now.places place ≡ None) }
    {
        let mut rest = n;
        for place in 0..MAX_KEYS {
            if !self.is_live(place) {
                if rest == 0 {
                    return Some(place);
                }
                rest -= 1;
            }
        }
        None
    }

    /// The number of the next key on the place: the place plus 1, plus `MAX_KEYS` times the number of keys ever made on it. It must
    /// be below 2^32.
    pub fn next_key(&self, place: u32) -> u32
        requires within { place < MAX_KEYS }
        requires fits { next_key self.now.places place < 2 ^ 32 }
        ensures { result ≡ next_key self.now.places place }
    {
        1 + place + MAX_KEYS * self.places[place as usize].made()
    }

    /// Makes a key on a place, with this destructor or none (pthread_key_create). Returns its number, that of `next_key`. If a key is
    /// on the place, `None` is returned and nothing is changed.
    pub fn create(&mut self, place: u32, dtor: Option<u32>) -> Option<u32>
        requires within { place < MAX_KEYS }
        requires fits { next_key self.old.places place < 2 ^ 32 }
        ensures key { result ≡ made_key place self.old }
        ensures table { self.new ≡ with_made place dtor self.old }
        // Each thread has the value NULL for a new key, which is in no pass.
        ensures fresh { IfSome result (λ _. (slot : ℕ) → IsClear (row_at self.new slot) place) }
    {
        if self.is_live(place) {
            return None;
        }
        let number = self.next_key(place);
        let here = self.places[place as usize].with_key(number, dtor);
        self.places[place as usize] = here;
        Some(number)
    }

    /// Deletes the key on the place, if there is one (pthread_key_delete). No thread keeps a value for it, and no pass has it.
    pub fn delete(&mut self, place: u32)
        requires { place < MAX_KEYS }
        ensures { self.new ≡ with_deleted place self.old }
    {
        let here = self.places[place as usize].without_key();
        self.places[place as usize] = here;
        clear_place(&mut self.rows, place);
    }

    // ---- values

    /// The value that the thread on the slot has for the key on the place (pthread_getspecific).
    pub fn get(&self, slot: u32, place: u32) -> u32
        requires slot { slot < length self.now.rows }
        requires place { place < MAX_KEYS }
        ensures { result ≡ value_at place (row_at self.now slot) }
    {
        self.rows[slot as usize].value(place)
    }

    /// Sets the value that the thread on the slot has for the key on the place (pthread_setspecific).
    pub fn set(&mut self, slot: u32, place: u32, value: u32)
        requires slot { slot < length self.old.rows }
        requires place { place < MAX_KEYS }
        requires live { is_some (key_at self.old.places place) ≡ true }
        ensures { self.new ≡ on_row slot (with_value place value) self.old }
    {
        self.rows[slot as usize].set(place, value);
    }

    /// The number of keys that are due for the thread on the slot: they have a destructor, and a value that is not 0.
    pub fn due(&self, slot: u32) -> u32
        requires { slot < length self.now.rows }
        ensures { result ≡ length (due_places self.now.places (row_at self.now slot)) }
    {
        let end = self.end_of(slot);
        let mut count = 0;
        for place in 0..end {
            count += u32::from(self.is_due(slot, place));
        }
        count
    }

    // ---- passes over the destructors

    /// Begins a pass of the thread on the slot (pthread_key_create). Its keys are those that are due; returns their number.
    pub fn pass_begin(&mut self, slot: u32) -> u32
        requires { slot < length self.old.rows }
        ensures count { result ≡ length (due_places self.old.places (row_at self.old slot)) }
        ensures table { self.new ≡ on_row slot with_pass self.old }
    {
        let count = self.due(slot);
        self.begin_pass(slot);
        count
    }

    /// The same, without the number: begins a pass of the thread on the slot.
    pub fn begin_pass(&mut self, slot: u32)
        requires { slot < length self.old.rows }
        ensures { self.new ≡ on_row slot with_pass self.old }
    {
        self.rows[slot as usize].begin_pass();
    }

    /// Whether the key on the place is left in the pass of the thread on the slot: it was due when the pass began and is due now, and
    /// it was not taken.
    pub fn is_left(&self, slot: u32, place: u32) -> bool
        requires slot { slot < length self.now.rows }
        requires place { place < MAX_KEYS }
        ensures { result ≡ is_left self.now.places (row_at self.now slot) place }
    {
        self.rows[slot as usize].is_in_pass(place) && self.is_due(slot, place)
    }

    /// The number of keys that are left in the pass of the thread on the slot.
    pub fn left(&self, slot: u32) -> u32
        requires { slot < length self.now.rows }
        ensures { result ≡ length (left_places self.now.places (row_at self.now slot)) }
    {
        let end = self.end_of(slot);
        let mut count = 0;
        for place in 0..end {
            count += u32::from(self.is_left(slot, place));
        }
        count
    }

    /// The place at index `n` of those with a key that is left in the pass of the thread on the slot, in rising order. It is `None`
    /// exactly if at most `n` are left.
    pub fn left_nth(&self, slot: u32, n: u32) -> Option<u32>
        requires { slot < length self.now.rows }
        ensures value { result ≡ slice_get (left_places self.now.places (row_at self.now slot)) n }
        ensures within { IfSome result (λ place. place < MAX_KEYS) }
        ensures left { IfSome result (λ place. is_left self.now.places (row_at self.now slot) place ≡ true) }
    {
        let end = self.end_of(slot);
        let mut rest = n;
        for place in 0..end {
            if self.is_left(slot, place) {
                if rest == 0 {
                    return Some(place);
                }
                rest -= 1;
            }
        }
        None
    }

    /// Takes a key that is left in the pass of the thread on the slot out of the pass, and makes its value 0 (pthread_key_create).
    /// Returns its destructor, and the value before.
    pub fn pass_take(&mut self, slot: u32, place: u32) -> (u32, u32)
        requires slot { slot < length self.old.rows }
        requires place { place < MAX_KEYS }
        requires left { is_left self.old.places (row_at self.old slot) place ≡ true }
        ensures destructor { option_and_then (λ key. key.destructor) (key_at self.old.places place) ≡ Some result.0 }
        ensures value { result.1 ≡ value_at place (row_at self.old slot) }
        ensures table { self.new ≡ on_row slot (without_value place) self.old }
    {
        let Some(destructor) = self.destructor(place) else {
            unreachable!()
        };
        let value = self.get(slot, place);
        self.take_out(slot, place);
        (destructor, value)
    }

    /// Takes the place out of the pass of the thread on the slot, and makes its value there 0.
    pub fn take_out(&mut self, slot: u32, place: u32)
        requires slot { slot < length self.old.rows }
        requires place { place < MAX_KEYS }
        ensures { self.new ≡ on_row slot (without_value place) self.old }
    {
        self.rows[slot as usize].clear(place);
    }

    // ---- rows

    /// Gives the slot the data of a new thread: no value, and no place in a pass.
    pub fn clear_row(&mut self, slot: u32)
        requires { slot < length self.old.rows }
        ensures { self.new ≡ on_row slot (λ _. no_values) self.old }
    {
        self.rows[slot as usize].clear_all();
    }

    /// Makes this the table of the child process of the thread on the slot (fork). The other table is that of the parent. Afterwards
    /// this table has as many slots as the other; the keys are those of the other table, and of the data there are only the values
    /// of this thread; no place is in a pass.
    pub fn copy_from(&mut self, other: &Keys, slot: u32)
        requires { slot < length other.now.rows }
        ensures { self.new ≡ replica_of slot other.now }
    {
        let places = other.places;
        self.places = places;
        new_rows(&mut self.rows, other.rows.len());
        let row = other.rows[slot as usize].values_alone();
        self.rows[slot as usize] = row;
    }

    // The key on the place.
    fn key_at(&self, place: u32) -> Option<Key>
        requires { place < MAX_KEYS }
        ensures value { result ≡ key_at self.now.places place }
        ensures sound { IsSound self.now }
    {
        self.places[place as usize].key()
    }

    // A place from which on the thread on the slot has no value.
    fn end_of(&self, slot: u32) -> u32
        requires { slot < length self.now.rows }
        ensures within { result ≤ MAX_KEYS }
        ensures unset { IsUnsetFrom result (row_at self.now slot) }
    {
        self.rows[slot as usize].end()
    }

    // Whether the key on the place is due for the thread on the slot.
    fn is_due(&self, slot: u32, place: u32) -> bool
        requires slot { slot < length self.now.rows }
        requires place { place < MAX_KEYS }
        ensures { result ≡ is_due self.now.places (row_at self.now slot) place }
    {
        self.destructor(place).is_some() && self.get(slot, place) != 0
    }
}

// Whether it is a key with this number.
fn has_number(key: Option<Key>, number: u32) -> bool
    ensures { result ≡ is_some (if_number number key) }
{
    match key {
        Some(key) => key.number() == number,
        None => false,
    }
}
