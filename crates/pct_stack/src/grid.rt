//! Rows of words, one after the other in one block: word `i` of row `row` is at `row * width + i`.

ghost use Rattle.std.specs.Prelude.{◌≡◌, [], ℕ, ◌+◌, ◌-◌, ◌*◌, ◌<◌, ◌≤◌, length, replicate, slice_index_or, IfOk};
ghost use Rattle.pct_stack.specs.Rows.{row_at, word_at, with_row, with_word};

use crate::WordsFrom;
use crate::words::Words;
use pct_io::NoMemory;
use std::alloc::Global;
use std::marker::Model;

/// Room for at most 64 rows of at most 1,024 words each. At first there are no rows, and then all of them.
#[derive(Drop)]
pub struct Grid {
    words: Words,
    // How many rows there is room for.
    room: u32,
    // How many there are.
    rows: u32,
    width: u32,
}

impl Model for Grid {
    ghost use Rattle.std.specs.Prelude.{◌≡◌, ◌*◌, ◌≤◌, length};
    ghost use Rattle.pct_stack.specs.Rows.{Rows, rows_of};

    ghost Value = { Rows };

    ghost view = { λ g. record { room = g.room; width = g.width; rows = rows_of g.rows g.width g.words.words } };

    ghost invariant = { λ g. (length g.words.words ≡ g.rows * g.width) × (g.rows ≤ 64) × (g.width ≤ 1024) × (g.words.room ≡ g.room * g.width) × (g.room ≤ 64) };
}

impl Grid {
    /// Room for at most 64 rows of at most 1,024 words each. There are no rows.
    pub(crate) fn new(alloc: Global, room: u32, width: u32) -> Result<Grid, NoMemory>
        requires room { room ≤ 64 }
        requires width { width ≤ 1024 }
        ensures { IfOk result (λ grid. grid ≡ record { room = room; width = width; rows = [] }) }
    {
        let words = Words::new(alloc, room as usize * width as usize)?;
        Ok(Grid {
            words,
            room,
            rows: 0,
            width,
        })
    }

    /// Makes all rows that there is room for, with words that are 0.
    pub(crate) fn fill(&mut self)
        ensures { self.new ≡ record { room = self.old.room; width = self.old.width; rows = replicate self.old.room (replicate self.old.width 0) } }
    {
        self.words.fill();
        self.rows = self.room;
    }

    /// The number of rows, at most 64.
    #[inline(always)]
    pub(crate) fn row_count(&self) -> u32
        ensures value { result ≡ length self.now.rows }
        ensures few { result ≤ 64 }
    {
        self.rows
    }

    /// The index of the first word of a row, counted over all rows.
    #[inline(always)]
    pub(crate) fn first_of(&self, row: u32) -> usize
        requires { row < length self.now.rows }
        ensures { result ≡ row * self.now.width }
    {
        row as usize * self.width as usize
    }

    /// The words from one on that is in the row or directly after it. Its index is counted over all rows.
    #[inline(always)]
    pub(crate) fn words_from(&self, row: u32, first: usize) -> WordsFrom<'_>
        requires row { row < length self.now.rows }
        requires from { row * self.now.width ≤ first }
        requires to { first ≤ row * self.now.width + self.now.width }
        ensures words { (i : ℕ) → first + i < row * self.now.width + self.now.width → slice_index_or result i 0 ≡ word_at self.now row (first + i - row * self.now.width) }
        ensures long { row * self.now.width + self.now.width ≤ first + length result }
    {
        self.words.from(first)
    }

    /// Sets a word of a row. Its index is counted over all rows.
    #[inline(always)]
    pub(crate) fn set_at(&mut self, row: u32, index: usize, value: u32)
        requires row { row < length self.old.rows }
        requires from { row * self.old.width ≤ index }
        requires to { index < row * self.old.width + self.old.width }
        ensures { self.new ≡ with_word row (index - row * self.old.width) value self.old }
    {
        self.words.set(index, value);
    }

    #[inline(always)]
    pub(crate) fn word(&self, row: u32, i: u32) -> u32
        requires row { row < length self.now.rows }
        requires i { i < self.now.width }
        ensures { result ≡ word_at self.now row i }
    {
        let index = row as usize * self.width as usize + i as usize;
        self.words.get(index)
    }

    #[inline(always)]
    pub(crate) fn set_word(&mut self, row: u32, i: u32, value: u32)
        requires row { row < length self.old.rows }
        requires i { i < self.old.width }
        ensures { self.new ≡ with_word row i value self.old }
    {
        let index = row as usize * self.width as usize + i as usize;
        self.words.set(index, value);
    }

    /// Makes all words of a row 0.
    pub(crate) fn clear(&mut self, row: u32)
        requires { row < length self.old.rows }
        ensures { self.new ≡ with_row row (replicate self.old.width 0) self.old }
    {
        let first = row as usize * self.width as usize;
        self.words.clear(first, self.width);
    }

    /// Makes the words of a row those of the same row of another grid, which has as many.
    pub(crate) fn copy_row(&mut self, other: &Grid, row: u32)
        requires own { row < length self.old.rows }
        requires others { row < length other.now.rows }
        requires width { self.old.width ≡ other.now.width }
        requires even { length (row_at other.now row) ≡ other.now.width }
        ensures { self.new ≡ with_row row (row_at other.now row) self.old }
    {
        for i in 0..self.width {
            self.set_word(row, i, other.word(row, i));
        }
    }
}
