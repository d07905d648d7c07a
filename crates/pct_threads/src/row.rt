//! One row of a table: what it keeps of a slot beside the frames. The row of a free slot keeps the data of its last thread, which no
//! call reads.

ghost use Rattle.std.specs.Prelude.{◌≡◌};
ghost use Rattle.pct_model.specs.ThreadSlots.{is_ended_status};

use crate::{Place, Thread};
use pct_model::Status;

/// The greatest number of frames of a thread: the MAX_FRAMES (16) of its calls, and one of a fork handler (pthread_atfork).
pub const MAX_DEPTH: usize = 17;

/// What a table keeps of a slot, and of the thread that holds it, beside the frames.
#[derive(Drop)]
pub(crate) struct Row {
    pub(crate) made: u32,
    pub(crate) occupied: bool,
    pub(crate) id: u32,
    pub(crate) detached: bool,
    /// The number of frames.
    pub(crate) depth: u32,
    /// The index of the first word after them, counted from the first word of the first stack slot.
    pub(crate) end: usize,
    pub(crate) thread: Thread,
}

impl Row {
    ghost use Rattle.std.specs.Prelude.{◌≡◌, ◌<◌, ◌+◌, ◌^◌};
    ghost use Rattle.pct_threads.specs.Rows.{no_row, is_row, row_place, row_created, row_ended, row_detached, row_settled, row_freed_as};

    /// The row on which no thread was created.
    pub(crate) fn new() -> Row
        ensures { result ≡ no_row }
    {
        Row {
            made: 0,
            occupied: false,
            id: 0,
            detached: false,
            depth: 0,
            end: 0,
            thread: Thread::new(),
        }
    }

    /// Whether the thread with this id holds the slot.
    #[inline(always)]
    pub(crate) fn has_id(&self, id: u32) -> bool
        ensures { result ≡ is_row id self.now }
    {
        self.occupied && self.id == id
    }

    /// The place of the thread.
    #[inline(always)]
    pub(crate) fn place(&self) -> Place
        ensures { result ≡ row_place self.now }
    {
        Place {
            id: self.id,
            detached: self.detached,
            depth: self.depth,
        }
    }

    /// A new thread with this id holds the slot. It has no frame.
    pub(crate) fn create(&mut self, id: u32, detached: bool)
        requires { self.old.made + 1 < 2 ^ 32 }
        ensures { self.new ≡ row_created id detached self.old }
    {
        self.made += 1;
        self.occupied = true;
        self.id = id;
        self.detached = detached;
        self.depth = 0;
        self.thread = Thread::new();
    }

    /// The thread ends. A detached thread gives back the slot.
    pub(crate) fn end(&mut self, value: u32)
        ensures { self.new ≡ row_ended value self.old }
    {
        self.thread.status = Status::Ended(value);
        self.thread.ended = true;
        self.occupied &= !self.detached;
    }

    /// The thread is detached. One that has ended gives back the slot.
    pub(crate) fn detach(&mut self)
        ensures { self.new ≡ row_detached self.old }
    {
        self.detached = true;
        self.occupied &= !is_ended(self.thread.status);
    }

    /// A thread that has ended and is detached gives back the slot.
    pub(crate) fn settle(&mut self)
        ensures { self.new ≡ row_settled self.old }
    {
        self.occupied &= !(is_ended(self.thread.status) && self.detached);
    }

    /// The slot is given back. The number of threads ever created on it becomes that of the other slot.
    pub(crate) fn free_as(&mut self, other: &Row)
        ensures { self.new ≡ row_freed_as other.now self.old }
    {
        self.made = other.made;
        self.occupied = false;
        self.depth = 0;
    }

    /// The row becomes a copy of the other.
    pub(crate) fn copy_from(&mut self, other: &Row)
        ensures { self.new ≡ other.now }
    {
        self.made = other.made;
        self.occupied = other.occupied;
        self.id = other.id;
        self.detached = other.detached;
        self.depth = other.depth;
        self.end = other.end;
        self.thread = other.thread.copy();
    }
}

// Whether the status is that of an ended thread.
fn is_ended(status: Status) -> bool
    ensures { result ≡ is_ended_status status }
{
    matches!(status, Status::Ended(_))
}
