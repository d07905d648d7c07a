//! The buffer of a buffered sink.
ghost use Rattle.std.specs.Prelude.{◌≡◌, ◌↔◌, ℕ, ◌-◌, ◌<◌, ◌≤◌, ◌==◌, List, [], ◌++◌, length, min, take, drop, IsTrue};

use std::marker::Model;

// The capacity of the buffer in bytes.
pub(crate) const CAPACITY: usize = 8192;

// At most CAPACITY bytes: the first `count` bytes of an array.
#[derive(Drop)]
pub(crate) struct WriteBuffer {
    bytes: [u8; CAPACITY],
    count: usize,
}

impl Model for WriteBuffer {
    ghost Value = { List ℕ };

    ghost view = { λ buffer. take buffer.count buffer.bytes };

    ghost invariant = { λ buffer. buffer.count ≤ 8192 };
}

impl WriteBuffer {
    pub(crate) fn new() -> WriteBuffer
        ensures { result ≡ [] }
    {
        WriteBuffer {
            bytes: [0; CAPACITY],
            count: 0,
        }
    }

    pub(crate) fn is_empty(&self) -> bool
        ensures { result ≡ (length self.now == 0) }
    {
        self.count == 0
    }

    pub(crate) fn has_capacity(&self) -> bool
        ensures { IsTrue result ↔ (length self.now < 8192) }
    {
        self.count < CAPACITY
    }

    pub(crate) fn as_slice(&self) -> &[u8]
        ensures { result.now ≡ self.now }
    {
        &self.bytes[..self.count]
    }

    // Appends as long a prefix of the piece as fits, and returns its length.
    #[inline(always)]
    pub(crate) fn fill(&mut self, piece: &[u8]) -> usize
        ensures count { result ≡ min (length piece.now) (8192 - length self.old) }
        ensures buffer { self.new ≡ self.old ++ take result piece.now }
    {
        let (start, count) = (self.count, piece.len().min(CAPACITY - self.count));
        self.bytes[start..start + count].copy_from_slice(&piece[..count]);
        self.count = start + count;
        count
    }

    // Removes the first `count` bytes and moves the rest to the start of the array.
    pub(crate) fn remove_prefix(&mut self, count: usize)
        requires { count ≤ length self.old }
        ensures { self.new ≡ drop count self.old }
    {
        let end = self.count;
        self.bytes.copy_within(count..end, 0);
        self.count = end - count;
    }
}
