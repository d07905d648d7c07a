//! The thread-specific data of the thread on one slot.

ghost use Rattle.std.specs.Prelude.{◌≡◌, ◌<◌, ◌≤◌, false, length, map, replicate, slice_get, Some, vec_len, vec_capacity};
ghost use Rattle.pct_model.specs.declared.limits.TheConstants.{MAX_KEYS};
ghost use Rattle.pct_model.specs.Keys.{no_values, value_at, with_value, without_value, with_pass};
ghost use Rattle.pct_keys.specs.Tables.{IsUnsetFrom};

use crate::place::PLACES;
use std::marker::Model;

/// The thread-specific data of a thread, by place.
#[derive(Debug, Drop)]
pub(crate) struct Row {
    values: [u32; PLACES],
    in_pass: [bool; PLACES],
    // No value was set on the places from here on since the thread was new, so they are not searched. Most threads set none.
    end: u32,
}

impl Model for Row {
    ghost use Rattle.std.specs.Prelude.{◌≡◌, ◌≤◌};
    ghost use Rattle.pct_model.specs.declared.limits.TheConstants.{MAX_KEYS};
    ghost use Rattle.pct_model.specs.Keys.{KeyValues, no_values};
    ghost use Rattle.pct_keys.specs.Tables.{IsUnsetFrom};

    ghost Value = { KeyValues };

    ghost view = { λ r. record { values = r.values; in_pass = r.in_pass } };

    ghost invariant = { λ r. (r.end ≤ MAX_KEYS) × IsUnsetFrom r.end (record { values = r.values; in_pass = r.in_pass })
        × (r.end ≡ 0 → record { values = r.values; in_pass = r.in_pass } ≡ no_values) };
}

impl Row {
    /// The data of a new thread.
    pub(crate) fn new() -> Row
        ensures { result ≡ no_values }
    {
        Row {
            values: [0; PLACES],
            in_pass: [false; PLACES],
            end: 0,
        }
    }

    /// A place from which on there is no value.
    pub(crate) fn end(&self) -> u32
        ensures within { result ≤ MAX_KEYS }
        ensures unset { IsUnsetFrom result self.now }
    {
        self.end
    }

    /// The value of the key on the place.
    pub(crate) fn value(&self, place: u32) -> u32
        requires { place < MAX_KEYS }
        ensures { result ≡ value_at place self.now }
    {
        self.values[place as usize]
    }

    /// Whether the place is in the pass.
    pub(crate) fn is_in_pass(&self, place: u32) -> bool
        requires { place < MAX_KEYS }
        ensures { slice_get self.now.in_pass place ≡ Some result }
    {
        self.in_pass[place as usize]
    }

    /// Sets the value of the key on the place.
    pub(crate) fn set(&mut self, place: u32, value: u32)
        requires { place < MAX_KEYS }
        ensures { self.new ≡ with_value place value self.old }
    {
        self.values[place as usize] = value;
        self.end = self.end.max(place + 1);
    }

    /// Makes the value of the key on the place 0, and takes the place out of the pass.
    pub(crate) fn clear(&mut self, place: u32)
        requires { place < MAX_KEYS }
        ensures { self.new ≡ without_value place self.old }
    {
        self.values[place as usize] = 0;
        self.in_pass[place as usize] = false;
    }

    /// Gives the slot the data of a new thread.
    pub(crate) fn clear_all(&mut self)
        ensures { self.new ≡ no_values }
    {
        if self.end != 0 {
            *self = Row::new();
        }
    }

    /// Begins a pass, which takes the places that have a value.
    pub(crate) fn begin_pass(&mut self)
        ensures { self.new ≡ with_pass self.old }
    {
        if self.end == 0 {
            return;
        }
        for place in 0..PLACES {
            self.in_pass[place] = self.values[place] != 0;
        }
    }

    /// The same values, with no place in a pass.
    pub(crate) fn values_alone(&self) -> Row
        ensures { result ≡ record self.now { in_pass = no_values.in_pass } }
    {
        Row {
            values: self.values,
            in_pass: [false; PLACES],
            end: self.end,
        }
    }
}

/// Makes each value of the key on the place 0, and takes the place out of each pass.
pub(crate) fn clear_place(rows: &mut [Row], place: u32)
    requires { place < MAX_KEYS }
    ensures { rows.new ≡ map (without_value place) rows.old }
{
    for row in rows.iter_mut() {
        row.clear(place);
    }
}

/// Makes the number of slots `count`, for which there is room, and gives each slot the data of a new thread.
pub(crate) fn new_rows(rows: &mut Vec<Row>, count: usize)
    requires { count ≤ vec_capacity rows.old }
    ensures rows { rows.new.items ≡ replicate count no_values }
    ensures count { vec_len rows.new ≡ count }
    ensures room { vec_capacity rows.old ≤ vec_capacity rows.new }
{
    rows.resize_with(count, Row::new).unwrap();
    clear_rows(rows);
}

// Gives each slot the data of a new thread.
fn clear_rows(rows: &mut [Row])
    ensures { rows.new ≡ replicate (length rows.old) no_values }
{
    for row in rows.iter_mut() {
        row.clear_all();
    }
}
