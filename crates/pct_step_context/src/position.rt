//! What a step reads of a thread.

ghost use Rattle.std.specs.Prelude.{◌≡◌, ◌+◌, ◌<◌, length, Some, true};
ghost use Rattle.pct_keys.specs.Tables.{row_at};
ghost use Rattle.pct_threads.specs.Slots.{Held};
ghost use Rattle.pct_threads.specs.Tables.{held_at, is_occupied_at};
ghost use Rattle.pct_step_context.specs.Positions.{HasRow, IsDecoded, IsPosition};
ghost use Rattle.pct_process.specs.ThreadViews.{thread_of, with_specific};

use crate::current::{At, next_of};
use crate::program::Program;
use pct_keys::Keys;
use pct_threads::{Steps, Thread, Threads};
use std::sync::ledger::Ledger;

/// What a step reads of a thread; its next statement is decoded. In a contract, `IsPosition` says of which threads this is
/// the position.
#[derive(Drop)]
pub struct Position<'a> {
    /// The id of the thread.
    pub id: u32,
    /// The top frame, and the statement at its program counter, if there is one.
    pub next: Option<At<'a>>,
    /// The number of frames.
    pub depth: u32,
    /// The record of the thread.
    pub thread: &'a Thread,
    /// The keys of its process. The row of its slot has its thread-specific data.
    pub keys: &'a Keys,
    /// Its slot.
    pub slot: u32,
}

/// What a step reads of the thread on a slot, in a process with these keys. A thread holds the slot, and the keys have a row
/// for it. The record of the thread is read once.
#[inline(always)]
pub fn position_of<'a, L: Ledger>(
    program: &'a Program,
    threads: &'a Threads,
    keys: &'a Keys,
    slot: u32,
    steps: &mut Steps<L>,
) -> Position<'a>
    requires occupied { is_occupied_at threads.now slot ≡ true }
    requires row { slot < length keys.now.rows }
    ensures position { (held : Held) → held_at threads.now slot ≡ Some held → IsPosition program.now.script result (with_specific (row_at keys.now slot) (thread_of held)) }
    ensures decoded { IsDecoded program.now.script result.next }
    ensures row { HasRow result }
    ensures keys { result.keys.now ≡ keys.now }
    ensures slot { result.slot ≡ slot }
    ensures count { steps.new ≡ steps.old + 1 }
{
    let place = threads.place(slot);
    Position {
        id: place.id,
        next: next_of(&program.script, threads.top_frame(slot)),
        depth: place.depth,
        thread: threads.read(slot, steps),
        keys,
        slot,
    }
}
