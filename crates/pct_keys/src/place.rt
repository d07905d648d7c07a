//! A place for a key.

ghost use Rattle.std.specs.Prelude.{◌≡◌, ◌+◌, ◌^◌, ◌<◌, Some, None};
ghost use Rattle.pct_model.specs.declared.limits.TheConstants.{MAX_KEYS};
ghost use Rattle.pct_model.specs.Keys.{key_place, no_keys};

use pct_model::MAX_KEYS;
use std::marker::Model;

/// The number of places.
pub(crate) const PLACES: usize = MAX_KEYS as usize;

/// A key that was made and not deleted.
#[derive(Clone, Copy, Debug)]
pub(crate) struct Key {
    number: u32,
    destructor: Option<u32>,
}

impl Model for Key {
    ghost use Rattle.pct_model.specs.Keys.{Key as KeyRecord};

    ghost Value = { KeyRecord };

    ghost view = { λ k. record { number = k.number; destructor = k.destructor } };

    ghost inverse = { λ k. record { number = k.number; destructor = k.destructor } };
}

/// A place for a key.
#[derive(Clone, Copy, Debug)]
pub(crate) struct Place {
    made: u32,
    key: Option<Key>,
}

impl Model for Place {
    ghost use Rattle.pct_model.specs.Keys.{KeyPlace};

    ghost Value = { KeyPlace };

    ghost view = { λ p. record { made = p.made; key = p.key } };

    ghost inverse = { λ p. record { made = p.made; key = p.key } };
}

impl Key {
    /// Its number.
    pub(crate) fn number(&self) -> u32
        ensures { result ≡ self.now.number }
    {
        self.number
    }

    /// Its destructor.
    pub(crate) fn destructor(&self) -> Option<u32>
        ensures { result ≡ self.now.destructor }
    {
        self.destructor
    }
}

impl Place {
    /// The number of keys ever made on the place.
    pub(crate) fn made(&self) -> u32
        ensures { result ≡ self.now.made }
    {
        self.made
    }

    /// The key on the place.
    pub(crate) fn key(&self) -> Option<Key>
        ensures { result ≡ self.now.key }
    {
        self.key
    }

    /// The place with a new key on it.
    pub(crate) fn with_key(&self, number: u32, destructor: Option<u32>) -> Place
        requires { self.now.made + 1 < 2 ^ 32 }
        ensures { result ≡ record { made = self.now.made + 1; key = Some (record { number = number; destructor = destructor }) } }
    {
        Place {
            made: self.made + 1,
            key: Some(Key { number, destructor }),
        }
    }

    /// The place without its key.
    pub(crate) fn without_key(&self) -> Place
        ensures { result ≡ record self.now { key = None } }
    {
        Place {
            made: self.made,
            key: None,
        }
    }
}

/// The places of a process without keys.
pub(crate) fn no_keys() -> [Place; PLACES]
    ensures { result ≡ no_keys }
{
    [Place { made: 0, key: None }; PLACES]
}

/// The place of a key, by its number: the number less 1, modulo `MAX_KEYS`.
pub fn key_place(key: u32) -> u32
    ensures value { result ≡ key_place key }
    ensures within { result < MAX_KEYS }
{
    key.saturating_sub(1) % MAX_KEYS
}
