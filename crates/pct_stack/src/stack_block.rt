//! Slots of equal size in one block. Each free slot is linked to the next free slot and to the one before it, by its first two words.

ghost use Rattle.std.specs.Prelude.{◌≡◌, ◌<◌, ◌≤◌, ◌+◌, ◌-◌, ◌*◌, ℕ, true, false, [], length, replicate, slice_get, slice_index_or, slice_set, IfOk, IfSome};
ghost use Rattle.pct_stack.specs.Links.{IsBlock, stacks_of, stacks_seen, with_front, with_bypass, head_without};
ghost use Rattle.pct_stack.specs.declared.stack_block.TheConstants.{NO_SLOT};
ghost use Rattle.pct_stack.specs.Stacks.{is_taken, is_free, words_at, all_free, with_taken, with_given, with_words, with_kept_alone};

use crate::WordsFrom;
use crate::grid::Grid;
use pct_io::NoMemory;
use std::alloc::Global;
use std::marker::Model;

// In a link, no slot.
const NO_SLOT: u32 = u32::MAX;

/// The stacks of threads: 1 to 64 slots, each of the same number of words, 2 to 1,024. A slot is free, or it is taken and has words. In
/// a contract a block is the number of words of a slot, the free slots in the order in which they are handed out, and the words of each
/// slot that is taken. A slot is named by its number, from 0 on.
///
/// Each thread has a stack from its creation on (pthread_create). It is the implementation's: no application manages it (XSH 2.9.8).
/// It can be used again when the thread has ended and was joined or detached (pthread_join, pthread_detach). That is up to the caller,
/// as is the error EAGAIN of pthread_create where no slot is free.
///
/// No call but `new` takes memory. The memory is written when the first slot is taken.
#[derive(Drop)]
pub struct StackBlock {
    grid: Grid,
    // The first free slot.
    head: u32,
}

impl Model for StackBlock {
    ghost use Rattle.pct_stack.specs.Stacks.{Stacks};
    ghost use Rattle.pct_stack.specs.Links.{stacks_seen, IsBlock};

    ghost Value = { Stacks };

    ghost view = { λ b. stacks_seen b.grid b.head };

    ghost invariant = { λ b. IsBlock b.grid b.head };
}

impl StackBlock {
    /// A block of 1 to 64 slots of 2 to 1,024 words each. All slots are free, in rising order. `NoMemory` is returned if the block does
    /// not fit into memory.
    pub fn new(alloc: Global, slots: u32, words: u32) -> Result<StackBlock, NoMemory>
        requires some { 1 ≤ slots }
        requires few { slots ≤ 64 }
        requires linked { 2 ≤ words }
        requires short { words ≤ 1024 }
        ensures { IfOk result (λ block. block ≡ all_free slots words) }
    {
        let grid = Grid::new(alloc, slots, words)?;
        Ok(StackBlock {
            grid,
            head: NO_SLOT,
        })
    }

    /// Frees all slots but the one to keep, which must be taken and keeps its words. The free slots are then handed out in rising order.
    pub fn reset(&mut self, keep: Option<u32>)
        requires { IfSome keep (λ slot. is_taken self.old slot ≡ true) }
        ensures { self.new ≡ with_kept_alone keep self.old }
    {
        self.head = NO_SLOT;
        give_all(&mut self.grid, &mut self.head, keep);
    }

    /// Takes the next free slot, all of whose words are then 0. `None` exactly if no slot is free.
    pub fn take(&mut self) -> Option<u32>
        ensures slot { result ≡ slice_get self.old.free 0 }
        ensures free { IfSome result (λ slot. is_free self.old slot ≡ true) }
        ensures taken { IfSome result (λ slot. self.new ≡ with_taken slot (replicate self.old.width 0) self.old) }
        ensures full { result ≡ None → (slot : ℕ) → is_free self.old slot ≡ false }
        ensures unchanged { result ≡ None → self.new ≡ self.old }
    {
        begin(&mut self.grid, &mut self.head);
        let slot = self.head;
        if slot >= self.grid.row_count() {
            return None;
        }
        self.take_slot(slot);
        Some(slot)
    }

    /// Takes a slot, which must be free. All its words are then 0. The other free slots keep their order.
    pub fn take_slot(&mut self, slot: u32)
        requires { is_free self.old slot ≡ true }
        ensures { self.new ≡ with_taken slot (replicate self.old.width 0) self.old }
    {
        begin(&mut self.grid, &mut self.head);
        unlink(&mut self.grid, &mut self.head, slot);
        self.grid.clear(slot);
    }

    /// Frees a slot, which must be taken. It is the next to be handed out.
    pub fn give(&mut self, slot: u32)
        requires { is_taken self.old slot ≡ true }
        ensures { self.new ≡ with_given slot self.old }
    {
        link(&mut self.grid, &mut self.head, slot);
    }

    /// The index of the first word of a slot, which must be taken, counted over all slots.
    #[inline(always)]
    pub fn first_of(&self, slot: u32) -> usize
        requires { is_taken self.now slot ≡ true }
        ensures { result ≡ slot * self.now.width }
    {
        self.grid.first_of(slot)
    }

    /// The words from one on that is in the slot, which must be taken, or directly after it. Its index is counted over all slots.
    #[inline(always)]
    pub fn words_from(&self, slot: u32, first: usize) -> WordsFrom<'_>
        requires slot { is_taken self.now slot ≡ true }
        requires from { slot * self.now.width ≤ first }
        requires to { first ≤ slot * self.now.width + self.now.width }
        ensures words { (i : ℕ) → first + i < slot * self.now.width + self.now.width → slice_index_or result i 0 ≡ slice_index_or (words_at self.now slot) (first + i - slot * self.now.width) 0 }
        ensures long { slot * self.now.width + self.now.width ≤ first + length result }
    {
        self.grid.words_from(slot, first)
    }

    /// Sets a word of a slot, which must be taken. Its index is counted over all slots.
    #[inline(always)]
    pub fn set_at(&mut self, slot: u32, index: usize, value: u32)
        requires slot { is_taken self.old slot ≡ true }
        requires from { slot * self.old.width ≤ index }
        requires to { index < slot * self.old.width + self.old.width }
        ensures block { self.new ≡ with_words slot (slice_set (words_at self.old slot) (index - slot * self.old.width) value) self.old }
        // This holds of every slot that is taken.
        ensures long { length (words_at self.old slot) ≡ self.old.width }
    {
        self.grid.set_at(slot, index, value);
    }

    /// A word of a slot, which must be taken. The index must be below the number of words.
    #[inline(always)]
    pub fn word(&self, slot: u32, i: u32) -> u32
        requires slot { is_taken self.now slot ≡ true }
        requires i { i < self.now.width }
        ensures { result ≡ slice_index_or (words_at self.now slot) i 0 }
    {
        self.grid.word(slot, i)
    }

    /// Sets a word of a slot, which must be taken. The index must be below the number of words.
    #[inline(always)]
    pub fn set_word(&mut self, slot: u32, i: u32, value: u32)
        requires slot { is_taken self.old slot ≡ true }
        requires i { i < self.old.width }
        ensures block { self.new ≡ with_words slot (slice_set (words_at self.old slot) i value) self.old }
        // This holds of every slot that is taken.
        ensures long { length (words_at self.old slot) ≡ self.old.width }
    {
        self.grid.set_word(slot, i, value);
    }

    /// Copies all words of the slot from another block. The slot must be taken in both, and both must have the same number of words.
    pub fn copy_from(&mut self, other: &StackBlock, slot: u32)
        requires own { is_taken self.old slot ≡ true }
        requires others { is_taken other.now slot ≡ true }
        requires width { self.old.width ≡ other.now.width }
        ensures { self.new ≡ with_words slot (words_at other.now slot) self.old }
    {
        self.grid.copy_row(&other.grid, slot);
    }
}

// Makes the rows and their links, if there are none yet. What is seen of the block stays.
#[inline(always)]
fn begin(grid: &mut Grid, head: &mut u32)
    requires { IsBlock grid.old head.old }
    ensures block { IsBlock grid.new head.new }
    ensures rows { 1 ≤ length grid.new.rows }
    ensures same { stacks_of grid.new head.new ≡ stacks_seen grid.old head.old }
{
    if grid.row_count() == 0 {
        make_rows(grid, head);
    }
}

// Makes the rows. All slots are free, in rising order.
fn make_rows(grid: &mut Grid, head: &mut u32)
    requires { IsBlock grid.old head.old }
    ensures block { IsBlock grid.new head.new }
    ensures rows { 1 ≤ length grid.new.rows }
    ensures free { stacks_of grid.new head.new ≡ all_free grid.old.room grid.old.width }
{
    grid.fill();
    *head = NO_SLOT;
    give_all(grid, head, None);
}

// Gives the slots of a block without free slots, from the last to the first, but the one to keep.
fn give_all(grid: &mut Grid, head: &mut u32, keep: Option<u32>)
    requires block { IsBlock grid.old head.old }
    requires none { head.old ≡ NO_SLOT }
    requires keep { IfSome keep (λ slot. slot < length grid.old.rows) }
    ensures block { IsBlock grid.new head.new }
    ensures rows { length grid.new.rows ≡ length grid.old.rows }
    ensures shape { (grid.new.room ≡ grid.old.room) × (grid.new.width ≡ grid.old.width) }
    ensures given { stacks_of grid.new head.new ≡ with_kept_alone keep (stacks_of grid.old head.old) }
{
    let count = grid.row_count();
    for done in 0..count {
        let slot = count - 1 - done;
        if keep != Some(slot) {
            link(grid, head, slot);
        }
    }
}

// Makes the slot the first of the free slots; `head` is the first one before.
fn link(grid: &mut Grid, head: &mut u32, slot: u32)
    requires slot { slot < length grid.old.rows }
    requires width { 2 ≤ grid.old.width }
    ensures grid { grid.new ≡ with_front head.old slot grid.old }
    ensures head { head.new ≡ slot }
{
    grid.set_word(slot, 0, *head);
    grid.set_word(slot, 1, NO_SLOT);
    if *head < grid.row_count() {
        grid.set_word(*head, 1, slot);
    }
    *head = slot;
}

// Removes the slot from among the free slots, the first of which is `head`.
fn unlink(grid: &mut Grid, head: &mut u32, slot: u32)
    requires slot { slot < length grid.old.rows }
    requires width { 2 ≤ grid.old.width }
    ensures grid { grid.new ≡ with_bypass slot grid.old }
    ensures head { head.new ≡ head_without slot grid.old head.old }
{
    let next = grid.word(slot, 0);
    let before = grid.word(slot, 1);
    if before < grid.row_count() {
        grid.set_word(before, 0, next);
    } else {
        *head = next;
    }
    if next < grid.row_count() {
        grid.set_word(next, 1, before);
    }
}
