//! A block of words in memory. In a contract it is the number of words that there is room for, and the list of the words.

ghost use Rattle.std.specs.Prelude.{◌≡◌, ◌<◌, ◌≤◌, ◌+◌, ◌^◌, [], length, drop, replicate, slice_set, slice_index_or, Some, IfOk};
ghost use Rattle.pct_stack.specs.Rows.{set_from};

use crate::WordsFrom;
use crate::cells::{BlockStart, Cells, FreeRight, allocate, deallocate};
use pct_io::NoMemory;
use std::alloc::Global;
use std::marker::Model;

/// Room for a number of words in one block of memory, which is freed when they are dropped. At first none of them is written.
pub struct Words {
    start: BlockStart<u32>,
    room: usize,
    // Each has a value, or none.
    cells: Cells<u32>,
    right: FreeRight<u32, Global>,
    alloc: Global,
}

impl Model for Words {
    ghost use Rattle.std.specs.Prelude.{◌≡◌, length};
    ghost use Rattle.pct_stack.specs.Cells.{somes, AreAlike};
    ghost use Rattle.pct_stack.specs.Rows.{BlockWords};

    ghost Value = { BlockWords };

    ghost view = { λ w. record { room = w.room; words = somes w.cells.values } };

    ghost invariant = { λ w. (w.cells.at ≡ w.start.ptr) × (w.right.at ≡ w.start.ptr) × (w.right.len ≡ w.room) × (w.right.alloc ≡ w.alloc) × (length w.cells.values ≡ w.room) × AreAlike w.cells.values };
}

impl Words {
    /// Room for so many words, at most 65,536. None is written.
    pub(crate) fn new(alloc: Global, room: usize) -> Result<Words, NoMemory>
        requires { room ≤ 65536 }
        ensures { IfOk result (λ words. words ≡ record { room = room; words = [] }) }
    {
        let (start, cells, right) = allocate(&alloc, room)?;
        Ok(Words {
            start,
            room,
            cells,
            right,
            alloc,
        })
    }

    /// Makes all words 0.
    pub(crate) fn fill(&mut self)
        requires { self.old.room ≤ 65536 }
        ensures { self.new ≡ record { room = self.old.room; words = replicate self.old.room 0 } }
    {
        clear_cells(&mut self.cells, self.start, 0, self.room as u32);
    }

    /// The words from one of them on. There must be at most 65,536 words.
    #[inline(always)]
    pub(crate) fn from(&self, first: usize) -> WordsFrom<'_>
        requires within { first ≤ length self.now.words }
        requires few { length self.now.words ≤ 65536 }
        ensures { result ≡ drop first self.now.words }
    {
        WordsFrom {
            cells: &self.cells,
            start: self.start,
            first,
        }
    }

    #[inline(always)]
    pub(crate) fn get(&self, index: usize) -> u32
        requires { index < length self.now.words }
        ensures { result ≡ slice_index_or self.now.words index 0 }
    {
        *self.cells.get(self.start, index)
    }

    #[inline(always)]
    pub(crate) fn set(&mut self, index: usize, value: u32)
        requires { index < length self.old.words }
        ensures { self.new ≡ record { room = self.old.room; words = slice_set self.old.words index value } }
    {
        self.cells.write(self.start, index, value);
    }

    /// Makes so many words 0, from the first on.
    pub(crate) fn clear(&mut self, first: usize, count: u32)
        requires { first + count ≤ length self.old.words }
        ensures { self.new ≡ record { room = self.old.room; words = set_from 0 first count self.old.words } }
    {
        clear_cells(&mut self.cells, self.start, first, count);
    }
}

// Puts 0 into so many cells, from the first on.
fn clear_cells(cells: &mut Cells<u32>, start: BlockStart<u32>, first: usize, count: u32)
    requires start { start.ptr ≡ cells.old.at }
    requires within { first + count ≤ length cells.old.values }
    requires fits { first + count < 2 ^ 64 }
    ensures at { cells.new.at ≡ cells.old.at }
    ensures values { cells.new.values ≡ set_from (Some 0) first count cells.old.values }
{
    for i in 0..count {
        cells.write(start, first + i as usize, 0);
    }
}

impl Drop for Words {
    fn drop(self) {
        let Words {
            start,
            room,
            cells,
            right,
            alloc,
        } = self;
        deallocate(&alloc, start, room, cells, right);
    }
}
