//! The words of a block from one of them on.

use crate::cells::{BlockStart, Cells};
use std::marker::Model;

/// The words of a block from one of them on, where they lie. In a contract it is the list of the words.
#[derive(Drop)]
pub struct WordsFrom<'a> {
    // Those of all words of the block. Each has a value, or none.
    pub(crate) cells: &'a Cells<u32>,
    pub(crate) start: BlockStart<u32>,
    // The index of the first word.
    pub(crate) first: usize,
}

impl<'a> Model for WordsFrom<'a> {
    ghost use Rattle.std.specs.Prelude.{ℕ, List, ◌≡◌, ◌≤◌, length, drop};
    ghost use Rattle.pct_stack.specs.Cells.{somes, AreAlike};

    ghost Value = { List ℕ };

    ghost view = { λ w. drop w.first (somes w.cells.now.values) };

    ghost invariant = { λ w. (w.start.ptr ≡ w.cells.now.at) × AreAlike w.cells.now.values × (w.first ≤ length (somes w.cells.now.values)) × (length (somes w.cells.now.values) ≤ 65536) };
}

impl<'a> WordsFrom<'a> {
    ghost use Rattle.std.specs.Prelude.{◌≡◌, ◌<◌, ◌≤◌, length, drop, slice_index_or};

    /// All words but the first ones.
    #[inline(always)]
    pub fn after(&self, count: u32) -> WordsFrom<'a>
        requires { count ≤ length self.now }
        ensures { result ≡ drop count self.now }
    {
        WordsFrom {
            cells: self.cells,
            start: self.start,
            first: self.first + count as usize,
        }
    }

    /// A word. The index must be below the number of words.
    #[inline(always)]
    pub fn word(&self, i: u32) -> u32
        requires { i < length self.now }
        ensures { result ≡ slice_index_or self.now i 0 }
    {
        *self.cells.get(self.start, self.first + i as usize)
    }
}
