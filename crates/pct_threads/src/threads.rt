//! The table of the threads of one process.

ghost use Rattle.std.specs.Prelude.{◌≡◌, ◌<◌, ◌≤◌, ◌&&◌, ℕ, not, true, false, nat_lt, length, position, if◌then◌else◌, replicate, vec_capacity};
ghost use Rattle.pct_model.specs.declared.limits.TheConstants.{MAX_SLOTS};
ghost use Rattle.pct_model.specs.ThreadSlots.{slot_of};
ghost use Rattle.pct_threads.specs.Rows.{is_row, no_row, row_at};
ghost use Rattle.pct_set.specs.Slots.{with_slot, without_slot};

use crate::frame_words::kind_of;
use crate::row::Row;
use crate::{FrameRef, Frames, Place, Steps, Thread, held};
use pct_io::NoMemory;
use pct_model::{DEFAULT_SLOTS, FrameKind, MAX_SLOTS};
use pct_set::SlotSet;
use pct_stack::StackBlock;
use std::alloc::Global;
use std::marker::Model;
use std::sync::ledger::Ledger;

/// The table of the threads of one process. A slot is occupied from the call of `create` on it until the call that gives it
/// back. In a contract it is the list of the slots: each has the number of threads ever created on it, and the thread that
/// holds it, if there is one, with its frames newest first.
///
/// A slot argument is below the number of slots. Unless a call says otherwise, its slot is occupied.
///
/// A table has memory for 64 slots, however many it has, so that no call but `new` takes memory.
#[derive(Drop)]
pub struct Threads {
    /// There is room for 64.
    rows: Vec<Row>,
    /// The frames: 64 stack slots, however many slots the table has.
    stacks: StackBlock,
    /// The slots that are occupied.
    occupied: SlotSet,
}

impl Model for Threads {
    ghost use Rattle.std.specs.Prelude.{List, length, ◌≡◌, ◌≤◌, vec_capacity};
    ghost use Rattle.pct_model.specs.declared.limits.TheConstants.{MAX_SLOTS};
    ghost use Rattle.pct_set.specs.Slots.{slots_where};
    ghost use Rattle.pct_threads.specs.Rows.{IsKept, slots_in};
    ghost use Rattle.pct_threads.specs.Slots.{Slot};
    ghost use Rattle.pct_threads.specs.Tables.{is_occupied_at};

    ghost Value = { List Slot };

    ghost view = { λ t. slots_in t.rows.items t.stacks };

    ghost invariant = { λ t. (1 ≤ length t.rows.items) × IsKept t.rows.items t.stacks × (t.occupied ≡ slots_where (is_occupied_at (slots_in t.rows.items t.stacks))) × (MAX_SLOTS ≤ vec_capacity t.rows) };
}

impl Threads {
    ghost use Rattle.std.specs.Prelude.{◌≡◌, ◌<◌, ◌≤◌, ◌+◌, ◌^◌, ◌-◌, true, length, position, replicate, slice_get, Some, IfOk, IfSome};
    ghost use Rattle.std.specs.Borrow.{sem};
    ghost use Rattle.pct_model.specs.declared.limits.TheConstants.{MAX_SLOTS};
    ghost use Rattle.pct_model.specs.ThreadSlots.{slot_of};
    ghost use Rattle.pct_set.specs.Slots.{slots_where};
    ghost use Rattle.pct_threads.specs.declared.row.TheConstants.{MAX_DEPTH};
    ghost use Rattle.pct_threads.specs.FrameWords.{frame_word_of};
    ghost use Rattle.pct_threads.specs.Slots.{unused, has_id, frame_at, with_call, with_frame, with_call_alone, with_pc, with_local, without_frame, without_frames, with_frame_word, unless_reclaimed, after_change, freed};
    ghost use Rattle.pct_threads.specs.Tables.{slot_at, slot_named, is_occupied_at, is_free_at, place_at, thread_at, frames_at, is_reclaimable_at, next_id_at, on_slot, on_held, with_created, with_end, with_detach, replica_of};
    ghost use Rattle.pct_threads.specs.Lends.{LendsThread};

    /// A table of 1 to 64 slots, none of them occupied. `NoMemory` is returned if the table does not fit into memory.
    pub fn new(alloc: Global, slots: u32) -> Result<Threads, NoMemory>
        requires some { 1 ≤ slots }
        requires few { slots ≤ MAX_SLOTS }
        ensures { IfOk result (λ threads. threads ≡ replicate slots unused) }
    {
        let mut rows = Vec::with_capacity(alloc, MAX_SLOTS as usize)?;
        free_all(&mut rows, slots as usize);
        let stacks = StackBlock::new(alloc, MAX_SLOTS, held::STACK_WORDS)?;
        Ok(Threads {
            rows,
            stacks,
            occupied: SlotSet::new(),
        })
    }

    /// Makes this a table of 1 to 64 slots, none of them occupied, as `new` does. No memory is taken.
    pub fn restart(&mut self, slots: u32)
        requires some { 1 ≤ slots }
        requires few { slots ≤ MAX_SLOTS }
        ensures { self.new ≡ replicate slots unused }
    {
        free_all(&mut self.rows, slots as usize);
        self.stacks.reset(None);
        self.occupied = SlotSet::new();
    }

    /// The number of slots, 1 to 64.
    pub fn slot_count(&self) -> u32
        ensures value { result ≡ length self.now }
        ensures some { 1 ≤ result }
        ensures few { result ≤ MAX_SLOTS }
    {
        self.rows.len() as u32
    }

    /// The slot of a thread id, whether or not a thread with the id holds it: the id less 1, modulo the number of slots.
    pub fn slot_of(&self, id: u32) -> u32
        ensures value { result ≡ slot_of (length self.now) id }
        ensures within { result < length self.now }
        ensures few { length self.now ≤ MAX_SLOTS }
    {
        slot_of(self.slot_count(), id)
    }

    /// Whether the slot is occupied.
    pub fn is_occupied(&self, slot: u32) -> bool
        requires { slot < length self.now }
        ensures { result ≡ is_occupied_at self.now slot }
    {
        self.rows[slot as usize].occupied
    }

    /// Whether the slot is occupied by the thread with this id.
    pub fn has_id(&self, slot: u32, id: u32) -> bool
        requires { slot < length self.now }
        ensures { result ≡ has_id id (slot_at self.now slot) }
    {
        self.rows[slot as usize].has_id(id)
    }

    /// The slot of the thread with this id. It is `None` exactly if no thread with the id holds its slot.
    pub fn slot_named(&self, id: u32) -> Option<u32>
        ensures value { result ≡ slot_named id self.now }
        ensures occupied { IfSome result (λ slot. is_occupied_at self.now slot ≡ true) }
        // This holds of every table.
        ensures some { 1 ≤ length self.now }
    {
        let slot = self.slot_of(id);
        if self.has_id(slot, id) {
            Some(slot)
        } else {
            None
        }
    }

    /// The first occupied slot whose thread has this id. It is `None` exactly if there is none.
    pub fn find(&self, id: u32) -> Option<u32>
        ensures value { result ≡ position (has_id id) self.now }
        ensures within { IfSome result (λ slot. slot < length self.now) }
        ensures occupied { IfSome result (λ slot. is_occupied_at self.now slot ≡ true) }
    {
        match self.index_of(id) {
            Some(index) => Some(index as u32),
            None => None,
        }
    }

    /// The slots that are occupied.
    pub fn occupied(&self) -> SlotSet
        ensures { result ≡ slots_where (is_occupied_at self.now) }
    {
        self.occupied
    }

    /// The slots that are not occupied.
    pub fn free(&self) -> SlotSet
        ensures value { result ≡ slots_where (is_free_at self.now) }
        ensures few { length self.now ≤ MAX_SLOTS }
    {
        let mut free = SlotSet::new();
        for slot in 0..self.slot_count() {
            insert_if(&mut free, slot, !self.is_occupied(slot));
        }
        free
    }

    /// The id, whether the thread is detached, and the number of its frames.
    pub fn place(&self, slot: u32) -> Place
        requires { is_occupied_at self.now slot ≡ true }
        ensures value { place_at self.now slot ≡ Some result }
        ensures fits { result.depth ≤ MAX_DEPTH }
    {
        self.rows[slot as usize].place()
    }

    /// The id of the next thread on the slot, which may be free: the slot's index plus 1, plus the number of slots times
    /// the number of threads ever created on it. The id must be below 2^32.
    pub fn next_id(&self, slot: u32) -> u32
        requires within { slot < length self.now }
        requires fits { next_id_at self.now slot < 2 ^ 32 }
        ensures { result ≡ next_id_at self.now slot }
    {
        self.slot_count() * self.rows[slot as usize].made + slot + 1
    }

    /// Creates a thread on a free slot, with one frame of `func` with `arg` (pthread_create). Returns its id, that of
    /// `next_id`. The thread is running; its cancelability is enabled and deferred, and no request is pending; it has no
    /// handlers.
    pub fn create(&mut self, slot: u32, func: u32, arg: u32, detached: bool) -> u32
        requires free { is_free_at self.old slot ≡ true }
        requires fits { next_id_at self.old slot < 2 ^ 32 }
        ensures id { result ≡ next_id_at self.old slot }
        ensures table { self.new ≡ with_created slot func arg detached self.old }
    {
        let id = self.next_id(slot);
        let row = &mut self.rows[slot as usize];
        held::create(row, &mut self.stacks, slot, id, func, arg, detached);
        self.occupied.insert(slot);
        id
    }

    /// The record of the thread. It is counted.
    pub fn read<L: Ledger>(&self, slot: u32, steps: &mut Steps<L>) -> &Thread
        requires { is_occupied_at self.now slot ≡ true }
        ensures value { thread_at self.now slot ≡ Some result.now }
        ensures count { steps.new ≡ steps.old + 1 }
    {
        steps.tick();
        &self.rows[slot as usize].thread
    }

    /// The record of the thread, for changes. It is counted.
    pub fn write<L: Ledger>(&mut self, slot: u32, steps: &mut Steps<L>) -> &mut Thread
        requires { is_occupied_at self.old slot ≡ true }
        ensures* lends { sem 𝓛 (LendsThread self.entry slot result) }
        ensures value { thread_at self.old slot ≡ Some result.now }
        ensures count { steps.new ≡ steps.old + 1 }
    {
        steps.tick();
        &mut self.rows[slot as usize].thread
    }

    /// Ends the thread: its status becomes `Ended` with this value. A detached thread gives back its slot.
    pub fn end(&mut self, slot: u32, value: u32)
        requires { is_occupied_at self.old slot ≡ true }
        ensures { self.new ≡ with_end slot value self.old }
    {
        let row = &mut self.rows[slot as usize];
        held::end(row, &mut self.stacks, slot, value);
        retain_if(&mut self.occupied, slot, row.occupied);
    }

    /// Gives back the slot of a thread that has ended and is detached. Nothing changes if the thread is another one.
    pub fn settle(&mut self, slot: u32)
        requires { is_occupied_at self.old slot ≡ true }
        ensures { self.new ≡ on_slot slot (after_change unless_reclaimed) self.old }
    {
        let row = &mut self.rows[slot as usize];
        held::settle(row, &mut self.stacks, slot);
        retain_if(&mut self.occupied, slot, row.occupied);
    }

    /// Gives back the slot of a thread that was joined (pthread_join): it has ended, and is not detached.
    pub fn reclaim(&mut self, slot: u32)
        requires { is_reclaimable_at self.old slot ≡ true }
        ensures { self.new ≡ on_slot slot freed self.old }
    {
        let row = &mut self.rows[slot as usize];
        held::free(row, &mut self.stacks, slot);
        self.occupied.remove(slot);
    }

    /// Detaches the thread (pthread_detach). One that has ended gives back its slot.
    pub fn detach(&mut self, slot: u32)
        requires { is_occupied_at self.old slot ≡ true }
        ensures { self.new ≡ with_detach slot self.old }
    {
        let row = &mut self.rows[slot as usize];
        held::detach(row, &mut self.stacks, slot);
        retain_if(&mut self.occupied, slot, row.occupied);
    }

    /// Makes this the table of the child process of a thread (fork). The other table is that of the parent, and the thread's
    /// slot is occupied in it. Afterwards this table has as many slots as the other; the thread's slot alone is occupied, by a
    /// copy of the thread with the same id; and as many threads were ever created on each slot as in the other table.
    pub fn clone_one_from(&mut self, other: &Threads, slot: u32)
        requires { is_occupied_at other.now slot ≡ true }
        ensures { self.new ≡ replica_of slot other.now }
    {
        free_as(&mut self.rows, &other.rows);
        self.stacks.reset(None);
        let row = &mut self.rows[slot as usize];
        held::copy(
            row,
            &mut self.stacks,
            &other.rows[slot as usize],
            &other.stacks,
            slot,
        );
        self.occupied = SlotSet::new();
        self.occupied.insert(slot);
    }

    /// The newest frame of the thread. It is `None` exactly if the thread has no frame.
    #[inline(always)]
    pub fn top_frame(&self, slot: u32) -> Option<FrameRef<'_>>
        requires { is_occupied_at self.now slot ≡ true }
        ensures { result ≡ slice_get (frames_at self.now slot) 0 }
    {
        FrameRef::top(&self.rows[slot as usize], &self.stacks, slot)
    }

    /// The frames of the thread, the newest first.
    #[inline(always)]
    pub fn frames(&self, slot: u32) -> Frames<'_>
        requires { is_occupied_at self.now slot ≡ true }
        ensures { result ≡ frames_at self.now slot }
    {
        Frames::new(&self.rows[slot as usize], &self.stacks, slot)
    }

    /// Adds a frame of `func`, at its first statement, to a thread with fewer than 17 frames. The frame's first local is
    /// `arg`, its other locals are 0. Its kind has the number `kind`: 0 for `Main`, 1 `Start`, 2 `Call`, 3 `PopHandler`,
    /// 4 `Handler`, 5 `Destructor`, 6 `ForkFn`, 7 `ExitFn`, and 8 + o for `OnceFn` of the once control with the index o.
    pub fn push_frame(&mut self, slot: u32, func: u32, arg: u32, kind: u32)
        requires occupied { is_occupied_at self.old slot ≡ true }
        requires room { length (frames_at self.old slot) < MAX_DEPTH }
        ensures { self.new ≡ on_held slot (with_frame func arg kind) self.old }
    {
        self.call(slot, func, arg, kind_of(kind));
    }

    /// The same with a kind: adds a frame of `func`, at its first statement, to a thread with fewer than 17 frames. The frame's
    /// first local is `arg`, its other locals are 0.
    pub fn call(&mut self, slot: u32, func: u32, arg: u32, kind: FrameKind)
        requires occupied { is_occupied_at self.old slot ≡ true }
        requires room { length (frames_at self.old slot) < MAX_DEPTH }
        ensures { self.new ≡ on_held slot (with_call func arg kind) self.old }
    {
        let row = &mut self.rows[slot as usize];
        held::call(row, &mut self.stacks, slot, func, arg, kind);
    }

    /// Adds a frame as `call` does, after it removed all others.
    pub fn call_alone(&mut self, slot: u32, func: u32, arg: u32, kind: FrameKind)
        requires { is_occupied_at self.old slot ≡ true }
        ensures { self.new ≡ on_held slot (with_call_alone func arg kind) self.old }
    {
        let row = &mut self.rows[slot as usize];
        held::call_alone(row, &mut self.stacks, slot, func, arg, kind);
    }

    /// Sets the program counter of the newest frame. Nothing changes if the thread has no frame.
    pub fn set_pc(&mut self, slot: u32, pc: u32)
        requires { is_occupied_at self.old slot ≡ true }
        ensures { self.new ≡ on_held slot (with_pc pc) self.old }
    {
        held::set_pc(&self.rows[slot as usize], &mut self.stacks, slot, pc);
    }

    /// Sets a local of the newest frame. Nothing changes if the thread has no frame, or the frame no such local.
    pub fn set_local(&mut self, slot: u32, i: u32, value: u32)
        requires { is_occupied_at self.old slot ≡ true }
        ensures { self.new ≡ on_held slot (with_local i value) self.old }
    {
        held::set_local(&self.rows[slot as usize], &mut self.stacks, slot, i, value);
    }

    /// Removes the newest frame of a thread that has a frame.
    pub fn pop_frame(&mut self, slot: u32)
        requires { 0 < length (frames_at self.old slot) }
        ensures { self.new ≡ on_held slot without_frame self.old }
    {
        let row = &mut self.rows[slot as usize];
        held::pop_frame(row, &self.stacks, slot);
    }

    /// Removes all frames of the thread.
    pub fn drop_frames(&mut self, slot: u32)
        requires { is_occupied_at self.old slot ≡ true }
        ensures { self.new ≡ on_held slot without_frames self.old }
    {
        let row = &mut self.rows[slot as usize];
        held::drop_frames(row, &self.stacks, slot);
    }

    /// A word of a frame. Frames are counted from the oldest, which is 0. The words are the function, the program counter,
    /// the number of the kind as in `push_frame`, and the eight locals.
    pub fn frame_word(&self, slot: u32, frame: u32, i: u32) -> u32
        requires frame { frame < length (frames_at self.now slot) }
        requires word { i < 11 }
        ensures { result ≡ frame_word_of (frame_at (frames_at self.now slot) frame) i }
    {
        held::frame_word(&self.rows[slot as usize], &self.stacks, slot, frame, i)
    }

    /// Sets a word of a frame, both named as in `frame_word`.
    pub fn set_frame_word(&mut self, slot: u32, frame: u32, i: u32, value: u32)
        requires frame { frame < length (frames_at self.old slot) }
        requires word { i < 11 }
        ensures { self.new ≡ on_held slot (with_frame_word frame i value) self.old }
    {
        let row = &self.rows[slot as usize];
        held::set_frame_word(row, &mut self.stacks, slot, frame, i, value);
    }

    // The index of the first slot whose thread has this id.
    fn index_of(&self, id: u32) -> Option<usize>
        ensures value { result ≡ position (has_id id) self.now }
        ensures few { length self.now ≤ MAX_SLOTS }
    {
        row_with(&self.rows, id)
    }
}

// The index of the first row whose thread has this id.
fn row_with(rows: &Vec<Row>, id: u32) -> Option<usize>
    ensures { result ≡ position (is_row id) rows.now.items }
{
    rows.iter().position(|row| row.has_id(id))
}

// Makes this many rows, for which there is room, on which no thread was created. A row keeps what no one sees of it.
fn free_all(rows: &mut Vec<Row>, count: usize)
    requires few { count ≤ MAX_SLOTS }
    requires room { MAX_SLOTS ≤ vec_capacity rows.old }
    ensures long { length rows.new.items ≡ count }
    ensures made { (i : ℕ) → (row_at rows.new.items i).made ≡ 0 }
    ensures free { (i : ℕ) → (row_at rows.new.items i).occupied ≡ false }
    ensures deep { (i : ℕ) → (row_at rows.new.items i).depth ≤ 17 }
    ensures room { MAX_SLOTS ≤ vec_capacity rows.new }
{
    let unused = Row::new();
    rows.resize_with(count, Row::new).unwrap();
    for slot in 0..count {
        rows[slot].free_as(&unused);
    }
}

// Makes the number of rows that of the other rows, gives back every slot, and makes the number of threads ever created on each that of
// the other.
fn free_as(rows: &mut Vec<Row>, other: &Vec<Row>)
    requires few { length other.now.items ≤ MAX_SLOTS }
    requires room { MAX_SLOTS ≤ vec_capacity rows.old }
    ensures long { length rows.new.items ≡ length other.now.items }
    ensures made { (i : ℕ) → (row_at rows.new.items i).made ≡ (row_at other.now.items i).made }
    ensures free { (i : ℕ) → (row_at rows.new.items i).occupied ≡ false }
    ensures deep { (i : ℕ) → (row_at rows.new.items i).depth ≤ 17 }
    ensures room { MAX_SLOTS ≤ vec_capacity rows.new }
{
    let count = other.len();
    rows.resize_with(count, Row::new).unwrap();
    for slot in 0..count {
        rows[slot].free_as(&other[slot]);
    }
}

// Inserts the slot if the test holds.
fn insert_if(set: &mut SlotSet, slot: u32, test: bool)
    requires { slot < 64 }
    ensures { set.new ≡ (if test then with_slot slot set.old else set.old) }
{
    if test {
        set.insert(slot);
    }
}

// Removes the slot unless the test holds.
fn retain_if(set: &mut SlotSet, slot: u32, test: bool)
    requires { slot < 64 }
    ensures { set.new ≡ (if test then set.old else without_slot slot set.old) }
{
    if !test {
        set.remove(slot);
    }
}

/// The slot of a thread id in a table of this many slots: the id less 1, modulo the number of slots.
pub fn slot_of(slots: u32, id: u32) -> u32
    requires { 1 ≤ slots }
    ensures value { result ≡ slot_of slots id }
    ensures within { result < slots }
{
    let index = id.saturating_sub(1);
    // A division is dear. It is left for ids above the number of slots, where that is not the number of a run without options.
    if index < slots {
        index
    } else if slots == DEFAULT_SLOTS {
        index % DEFAULT_SLOTS
    } else {
        index % slots
    }
}
