//! Names in scripts.

ghost use Rattle.std.specs.Prelude.{◌≡◌, ℕ, ◌<◌, ◌≤◌, ◌+◌, ◌++◌, List, [], ◌∷◌, length};
ghost use Rattle.pct_model.specs.declared.name.TheConstants.{MAX_NAME};

use arrayvec::ArrayVec;
use std::marker::Model;

/// The greatest length of a name, in bytes.
pub const MAX_NAME: usize = 31;

/// A name of 1 to 31 bytes. In a contract it is the list of its bytes.
#[derive(Drop)]
pub struct Name {
    bytes: ArrayVec<u8, MAX_NAME>,
}

impl Model for Name {
    ghost use Rattle.std.specs.Prelude.{ℕ, ◌<◌, ◌≤◌, List, length};
    ghost use Rattle.pct_model.specs.declared.name.TheConstants.{MAX_NAME};

    ghost Value = { List ℕ };

    ghost view = { λ n. n.bytes.items };

    ghost invariant = { (λ n. (0 < length n.bytes.items) × (length n.bytes.items ≤ MAX_NAME)) };
}

impl Name {
    /// The name with these bytes.
    pub fn of(bytes: &[u8]) -> Name
        requires some { 0 < length bytes.now }
        requires few { length bytes.now ≤ MAX_NAME }
        ensures { result ≡ bytes.now }
    {
        let mut kept = ArrayVec::new();
        for byte in bytes {
            kept.push(*byte);
        }
        Name { bytes: kept }
    }

    /// The bytes of the name.
    pub fn as_bytes(&self) -> &[u8]
        ensures bytes { result.now ≡ self.now }
        ensures some { 0 < length result.now }
        ensures few { length result.now ≤ MAX_NAME }
    {
        self.bytes.as_slice()
    }
}
