//! A slot by its row and its stack slot, which have the same number. The stack slot is taken exactly if the slot is occupied. Its
//! words are those of the frames: frame `k`, counted from the oldest, has the twelve words from word `12 * k` on: the function, the
//! program counter, the number of the kind, the eight locals, and the index of the once control of an init routine.

ghost use Rattle.std.specs.Prelude.{◌≡◌, ◌<◌, ◌+◌, ◌^◌, true, false, if◌then◌else◌};
ghost use Rattle.pct_stack.specs.Stacks.{is_taken, is_free, words_at, with_given};
ghost use Rattle.pct_threads.specs.FrameWords.{frame_word_of};
ghost use Rattle.pct_threads.specs.declared.held.TheConstants.{STACK_WORDS};
ghost use Rattle.pct_threads.specs.Slots.{with_call, with_call_alone, with_pc, with_local, without_frame, without_frames, with_frame_word, unless_reclaimed, after_end, after_detach, after_change, with_change, freed, created};
ghost use Rattle.pct_threads.specs.StackFrames.{IsStack, IsWritten, frame_in};
ghost use Rattle.pct_threads.specs.Rows.{IsHeld, IsStep, slot_in};

use crate::frame_words::{kind_in, kind_number, kind_of, words_of_kind};
use crate::row::Row;
use pct_model::FrameKind;
use pct_stack::StackBlock;

/// The number of words of a frame.
pub(crate) const FRAME_WORDS: u32 = 12;

/// The number of words of a stack slot: those of 17 frames.
pub(crate) const STACK_WORDS: u32 = 204;

/// A new thread with this id holds the slot, with one frame.
pub(crate) fn create(
    row: &mut Row,
    stacks: &mut StackBlock,
    slot: u32,
    id: u32,
    func: u32,
    arg: u32,
    detached: bool,
)
    requires free { is_free stacks.old slot ≡ true }
    requires width { stacks.old.width ≡ STACK_WORDS }
    requires fits { row.old.made + 1 < 2 ^ 32 }
    ensures step { IsStep row.old row.new stacks.old stacks.new slot (created id func arg detached) }
    ensures occupied { row.new.occupied ≡ true }
{
    row.create(id, detached);
    stacks.take_slot(slot);
    row.end = stacks.first_of(slot);
    call(row, stacks, slot, func, arg, FrameKind::Start);
}

/// The thread ends. A detached thread gives back the slot.
pub(crate) fn end(row: &mut Row, stacks: &mut StackBlock, slot: u32, value: u32)
    requires { IsHeld row.old stacks.old slot }
    ensures { IsStep row.old row.new stacks.old stacks.new slot (after_change (after_end value)) }
{
    row.end(value);
    give_unless(stacks, slot, row.occupied);
}

/// The thread is detached. One that has ended gives back the slot.
pub(crate) fn detach(row: &mut Row, stacks: &mut StackBlock, slot: u32)
    requires { IsHeld row.old stacks.old slot }
    ensures { IsStep row.old row.new stacks.old stacks.new slot (after_change after_detach) }
{
    row.detach();
    give_unless(stacks, slot, row.occupied);
}

/// A thread that has ended and is detached gives back the slot.
pub(crate) fn settle(row: &mut Row, stacks: &mut StackBlock, slot: u32)
    requires { IsHeld row.old stacks.old slot }
    ensures { IsStep row.old row.new stacks.old stacks.new slot (after_change unless_reclaimed) }
{
    row.settle();
    give_unless(stacks, slot, row.occupied);
}

/// The slot is given back.
pub(crate) fn free(row: &mut Row, stacks: &mut StackBlock, slot: u32)
    requires { IsHeld row.old stacks.old slot }
    ensures step { IsStep row.old row.new stacks.old stacks.new slot freed }
    ensures gone { row.new.occupied ≡ false }
{
    row.occupied = false;
    stacks.give(slot);
}

/// The slot, which is free, becomes a copy of the other, which is occupied.
pub(crate) fn copy(
    row: &mut Row,
    stacks: &mut StackBlock,
    other: &Row,
    other_stacks: &StackBlock,
    slot: u32,
)
    requires free { is_free stacks.old slot ≡ true }
    requires width { stacks.old.width ≡ STACK_WORDS }
    requires held { IsHeld other.now other_stacks.now slot }
    ensures step { IsStep row.old row.new stacks.old stacks.new slot (λ _. slot_in other.now (words_at other_stacks.now slot)) }
    ensures occupied { row.new.occupied ≡ true }
{
    row.copy_from(other);
    stacks.take_slot(slot);
    stacks.copy_from(other_stacks, slot);
}

/// The thread has a new frame.
#[inline(always)]
pub(crate) fn call(
    row: &mut Row,
    stacks: &mut StackBlock,
    slot: u32,
    func: u32,
    arg: u32,
    kind: FrameKind,
)
    requires held { IsHeld row.old stacks.old slot }
    requires room { row.old.depth < 17 }
    ensures step { IsStep row.old row.new stacks.old stacks.new slot (with_change (with_call func arg kind)) }
    ensures same { row.new.occupied ≡ row.old.occupied }
{
    let (number, once) = words_of_kind(kind);
    write_words(
        row,
        stacks,
        slot,
        [func, 0, number, arg, 0, 0, 0, 0, 0, 0, 0, once],
    );
    row.depth += 1;
    row.end += FRAME_WORDS as usize;
}

/// The thread has a new frame in the place of all others.
#[inline(always)]
pub(crate) fn call_alone(
    row: &mut Row,
    stacks: &mut StackBlock,
    slot: u32,
    func: u32,
    arg: u32,
    kind: FrameKind,
)
    requires { IsHeld row.old stacks.old slot }
    ensures step { IsStep row.old row.new stacks.old stacks.new slot (with_change (with_call_alone func arg kind)) }
    ensures same { row.new.occupied ≡ row.old.occupied }
{
    row.depth = 0;
    row.end = stacks.first_of(slot);
    call(row, stacks, slot, func, arg, kind);
}

/// The newest frame of the thread, if there is one, is at a program counter.
#[inline(always)]
pub(crate) fn set_pc(row: &Row, stacks: &mut StackBlock, slot: u32, pc: u32)
    requires { IsHeld row.now stacks.old slot }
    ensures { IsStep row.now row.now stacks.old stacks.new slot (with_change (with_pc pc)) }
{
    if row.depth > 0 {
        stacks.set_at(slot, row.end - 11, pc);
    }
}

/// A local of the newest frame of the thread has a new value, if there is one.
#[inline(always)]
pub(crate) fn set_local(row: &Row, stacks: &mut StackBlock, slot: u32, i: u32, value: u32)
    requires { IsHeld row.now stacks.old slot }
    ensures { IsStep row.now row.now stacks.old stacks.new slot (with_change (with_local i value)) }
{
    if row.depth > 0 && i < 8 {
        stacks.set_at(slot, row.end - 9 + i as usize, value);
    }
}

/// The thread loses its newest frame.
#[inline(always)]
pub(crate) fn pop_frame(row: &mut Row, stacks: &StackBlock, slot: u32)
    requires held { IsHeld row.old stacks.now slot }
    requires some { 0 < row.old.depth }
    ensures step { IsStep row.old row.new stacks.now stacks.now slot (with_change without_frame) }
    ensures same { row.new.occupied ≡ row.old.occupied }
{
    row.depth -= 1;
    row.end -= FRAME_WORDS as usize;
}

/// The thread loses all its frames.
#[inline(always)]
pub(crate) fn drop_frames(row: &mut Row, stacks: &StackBlock, slot: u32)
    requires { IsHeld row.old stacks.now slot }
    ensures step { IsStep row.old row.new stacks.now stacks.now slot (with_change without_frames) }
    ensures same { row.new.occupied ≡ row.old.occupied }
{
    row.depth = 0;
    row.end = stacks.first_of(slot);
}

/// A word of a frame.
#[inline(always)]
pub(crate) fn frame_word(row: &Row, stacks: &StackBlock, slot: u32, frame: u32, i: u32) -> u32
    requires held { IsHeld row.now stacks.now slot }
    requires frame { frame < row.now.depth }
    requires word { i < 11 }
    ensures { result ≡ frame_word_of (frame_in (words_at stacks.now slot) frame) i }
{
    let first = FRAME_WORDS * frame;
    let word = stacks.word(slot, first + i);
    if i == 2 {
        kind_number(kind_in(word, stacks.word(slot, first + 11)))
    } else {
        word
    }
}

/// A word of a frame has a new value.
#[inline(always)]
pub(crate) fn set_frame_word(
    row: &Row,
    stacks: &mut StackBlock,
    slot: u32,
    frame: u32,
    i: u32,
    value: u32,
)
    requires held { IsHeld row.now stacks.old slot }
    requires frame { frame < row.now.depth }
    requires word { i < 11 }
    ensures { IsStep row.now row.now stacks.old stacks.new slot (with_change (with_frame_word frame i value)) }
{
    let first = FRAME_WORDS * frame;
    if i == 2 {
        let (number, once) = words_of_kind(kind_of(value));
        stacks.set_word(slot, first + 2, number);
        stacks.set_word(slot, first + 11, once);
    } else {
        stacks.set_word(slot, first + i, value);
    }
}

// Writes all words of the frame after the newest one.
#[inline(always)]
fn write_words(row: &Row, stacks: &mut StackBlock, slot: u32, words: [u32; 12])
    requires held { IsHeld row.now stacks.old slot }
    requires room { row.now.depth < 17 }
    ensures { IsWritten stacks.old stacks.new slot row.now.depth words }
{
    let first = row.end;
    for i in 0..12_u32 {
        stacks.set_at(slot, first + i as usize, words[i as usize]);
    }
}

// Gives the stack slot unless the test holds.
fn give_unless(stacks: &mut StackBlock, slot: u32, test: bool)
    requires { is_taken stacks.old slot ≡ true }
    ensures { stacks.new ≡ (if test then stacks.old else with_given slot stacks.old) }
{
    if !test {
        stacks.give(slot);
    }
}
