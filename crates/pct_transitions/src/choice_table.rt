//! The choices of the scheduler for each thread.

ghost use Rattle.std.specs.Prelude.{◌≡◌, ◌<◌, ◌++◌, ◌&&◌, ℕ, true, false, not, List, All, length, map, nat_eq, slice_get};
ghost use Rattle.std.specs.List.{list_any};
ghost use Rattle.pct_model.specs.declared.schedule.Alt.TheVariants as alt;
ghost use Rattle.pct_model.specs.declared.state.Status.TheVariants as status;
ghost use Rattle.pct_model.specs.declared.statement.Stmt.{Stmt as Statement};
ghost use Rattle.pct_model.specs.World.{Thread, SharedState, body_of};
ghost use Rattle.pct_model.specs.NextStatement.{next_of, body_at};
ghost use Rattle.pct_model.specs.Environment.{Waiter, Environment};
ghost use Rattle.pct_model.specs.Keys.{new_keys, left_keys};
ghost use Rattle.pct_model.specs.ChoiceTable.{choices_at, running_choices, ending_choices, new_or_go, dtor_or_go, pick_or_go, hand_on_or_act, go_if, expire_if, can_expire, act_if, offers};
ghost use Rattle.pct_keys.specs.Tables.{Table, row_at};
ghost use Rattle.pct_threads.specs.Slots.{Slot};
ghost use Rattle.pct_threads.specs.Tables.{is_occupied_at, next_id_at};
ghost use Rattle.pct_step_context.specs.Numbers.{IdsFit, NextKeysFit, NumbersFit};
ghost use Rattle.pct_step_context.specs.Contexts.{IsContext, IsEnvironment, IsWhole};
ghost use Rattle.pct_transitions.specs.Listed.{listed, statement_choices, requested_choices, AreWithin, HasRowFor};
ghost use Rattle.pct_step_context.specs.OtherThreads.{ids_on};
ghost use Rattle.pct_transitions.specs.declared.choice_table.Choices.TheVariants as choices;
ghost use Rattle.pct_step_context.specs.Positions.{next_at};

use crate::stop_table::is_forbidden_in_child;
use pct_ending_calls::cancel_calls::{called_kind, may_pass_point};
use pct_ending_calls::mutex_calls::is_free_mutex;
use pct_keys::{Keys, key_place};
use pct_model::{Alt, Cause, MAX_KEYS, PointKind, Status, Stmt};
use pct_set::SlotSet;
use pct_statements::once_calls::{is_busy, once_at};
use pct_statements::sem_calls::count_of;
use pct_step_context::{At, Context, is_timed_next};
use pct_threads::Threads;

/// The choices of a thread, in their order. In a contract, `listed` is the list of them.
#[derive(Clone, Copy, Debug)]
pub enum Choices {
    None,
    /// `go`.
    Go,
    /// `act`, which names no other thread.
    Act,
    /// `go`, and then `act`.
    GoOrAct,
    /// `expire`.
    Expire,
    /// `expire`, and then `act`.
    ExpireOrAct,
    /// `new`, with the id of the next thread on each of these slots.
    New(SlotSet),
    /// `new`, with the number of the next key on each place that has none.
    NewKey,
    /// `dtor`, with the number of each key that is left in the pass of the thread on this slot.
    Dtor(u32),
    /// `pick`, with the id of the thread on each of these slots.
    Pick(SlotSet),
    /// `act`, with the id of the thread on each of these slots.
    HandOn(SlotSet),
    /// `go`, and then `act`, with the id of the thread on each of these slots.
    GoOrHandOn(SlotSet),
}

impl Choices {
    /// Whether this choice is among them, in a process with these threads and keys. The ids and the numbers of the next threads
    /// and keys fit 32 bits.
    #[inline(always)]
    pub fn offers(&self, threads: &Threads, keys: &Keys, choice: Alt) -> bool
        requires within { AreWithin threads.now self.now }
        requires rows { length keys.now.rows ≡ length threads.now }
        requires numbers { NumbersFit threads.now keys.now }
        ensures { result ≡ offers (listed threads.now keys.now self.now) choice }
    {
        match self {
            Choices::None => false,
            Choices::Go => matches!(choice, Alt::Go),
            Choices::Act => matches!(choice, Alt::Act(0)),
            Choices::GoOrAct => matches!(choice, Alt::Go | Alt::Act(0)),
            Choices::Expire => matches!(choice, Alt::Expire),
            Choices::ExpireOrAct => matches!(choice, Alt::Expire | Alt::Act(0)),
            Choices::New(free) => match choice {
                Alt::New(id) => offers_id(threads, free, id),
                _ => false,
            },
            Choices::NewKey => match choice {
                Alt::New(key) => offers_new_key(keys, key),
                _ => false,
            },
            Choices::Dtor(slot) => match choice {
                Alt::Dtor(key) => offers_dtor(keys, *slot, key),
                _ => false,
            },
            Choices::Pick(waiting) => match choice {
                Alt::Pick(id) => has_id(threads, waiting, id),
                _ => false,
            },
            Choices::HandOn(waiting) => offers_act(threads, waiting, choice),
            Choices::GoOrHandOn(waiting) => {
                matches!(choice, Alt::Go) || offers_act(threads, waiting, choice)
            }
        }
    }

    /// The number of choices, in a process with these keys.
    pub fn count(&self, keys: &Keys) -> usize
        requires { HasRowFor keys.now self.now }
        ensures { (threads : List Slot) → result ≡ length (listed threads keys.now self.now) }
    {
        match self {
            Choices::None => 0,
            Choices::Go => 1,
            Choices::Act => 1,
            Choices::GoOrAct => 2,
            Choices::Expire => 1,
            Choices::ExpireOrAct => 2,
            Choices::New(free) => free.len() as usize,
            Choices::NewKey => (MAX_KEYS - keys.live()) as usize,
            Choices::Dtor(slot) => keys.left(*slot) as usize,
            Choices::Pick(waiting) => waiting.len() as usize,
            Choices::HandOn(waiting) => waiting.len() as usize,
            Choices::GoOrHandOn(waiting) => 1 + waiting.len() as usize,
        }
    }

    /// The choice at an index, in a process with these threads and keys. `None` if there are not more choices than that. The ids
    /// and the numbers of the next threads and keys fit 32 bits.
    pub fn nth(&self, threads: &Threads, keys: &Keys, n: usize) -> Option<Alt>
        requires within { AreWithin threads.now self.now }
        requires rows { length keys.now.rows ≡ length threads.now }
        requires numbers { NumbersFit threads.now keys.now }
        ensures { result ≡ slice_get (listed threads.now keys.now self.now) n }
    {
        match self {
            Choices::None => None,
            Choices::Go => { if n == 0 { Some(Alt::Go) } else { None } }
            Choices::Act => { if n == 0 { Some(Alt::Act(0)) } else { None } }
            Choices::GoOrAct => match n {
                0 => Some(Alt::Go),
                1 => Some(Alt::Act(0)),
                _ => None,
            },
            Choices::Expire => { if n == 0 { Some(Alt::Expire) } else { None } }
            Choices::ExpireOrAct => match n {
                0 => Some(Alt::Expire),
                1 => Some(Alt::Act(0)),
                _ => None,
            },
            Choices::New(free) => nth_new(threads, free, n),
            Choices::NewKey => nth_new_key(keys, n),
            Choices::Dtor(slot) => nth_dtor(keys, *slot, n),
            Choices::Pick(waiting) => nth_id(threads, waiting, n).map(Alt::Pick),
            Choices::HandOn(waiting) => nth_id(threads, waiting, n).map(Alt::Act),
            Choices::GoOrHandOn(waiting) => {
                if n == 0 {
                    Some(Alt::Go)
                } else {
                    nth_id(threads, waiting, n - 1).map(Alt::Act)
                }
            }
        }
    }
}

// Whether an id is that of the next thread on one of these slots.
fn offers_id(threads: &Threads, free: &SlotSet, id: u32) -> bool
    requires within { All (λ s. s < length threads.now) free.now }
    requires ids { IdsFit threads.now }
    ensures { (keys : Table) → result ≡ offers (listed threads.now keys (choices.New free.now)) (alt.New id) }
{
    if id == 0 {
        return false;
    }
    let slot = (id - 1) % threads.slot_count();
    free.contains(slot) && threads.next_id(slot) == id
}

// The choice at an index, of those with the id of the next thread on one of these slots.
fn nth_new(threads: &Threads, free: &SlotSet, n: usize) -> Option<Alt>
    requires within { All (λ s. s < length threads.now) free.now }
    requires ids { IdsFit threads.now }
    ensures { (keys : Table) → result ≡ slice_get (listed threads.now keys (choices.New free.now)) n }
{
    if n >= free.len() as usize {
        return None;
    }
    match free.nth(n as u32) {
        None => None,
        Some(slot) => Some(Alt::New(threads.next_id(slot))),
    }
}

// Whether a number is that of the next key on a place that has none.
fn offers_new_key(keys: &Keys, key: u32) -> bool
    requires { NextKeysFit keys.now.places }
    ensures { (threads : List Slot) → result ≡ offers (listed threads keys.now choices.NewKey) (alt.New key) }
{
    let place = key_place(key);
    !keys.is_live(place) && keys.next_key(place) == key
}

// The choice at an index, of those with the number of the next key on a place that has none.
fn nth_new_key(keys: &Keys, n: usize) -> Option<Alt>
    requires { NextKeysFit keys.now.places }
    ensures { (threads : List Slot) → result ≡ slice_get (listed threads keys.now choices.NewKey) n }
{
    if n >= MAX_KEYS as usize {
        return None;
    }
    match keys.free_nth(n as u32) {
        None => None,
        Some(place) => Some(Alt::New(keys.next_key(place))),
    }
}

// Whether a number is that of a key which is left in the pass of the thread on a slot.
fn offers_dtor(keys: &Keys, slot: u32, key: u32) -> bool
    requires { slot < length keys.now.rows }
    ensures { (threads : List Slot) → result ≡ offers (listed threads keys.now (choices.Dtor slot)) (alt.Dtor key) }
{
    match keys.find(key) {
        None => false,
        Some(place) => keys.is_left(slot, place),
    }
}

// The choice at an index, of those with the number of a key which is left in the pass of the thread on a slot.
fn nth_dtor(keys: &Keys, slot: u32, n: usize) -> Option<Alt>
    requires { slot < length keys.now.rows }
    ensures { (threads : List Slot) → result ≡ slice_get (listed threads keys.now (choices.Dtor slot)) n }
{
    if n >= MAX_KEYS as usize {
        return None;
    }
    match keys.left_nth(slot, n as u32) {
        None => None,
        Some(place) => Some(Alt::Dtor(keys.number(place))),
    }
}

// Whether a choice is `act` with the id of the thread on one of these slots.
fn offers_act(threads: &Threads, waiting: &SlotSet, choice: Alt) -> bool
    requires { All (λ s. is_occupied_at threads.now s ≡ true) waiting.now }
    ensures { result ≡ offers (map (λ n. alt.Act n) (ids_on threads.now waiting.now)) choice }
{
    match choice {
        Alt::Act(id) => has_id(threads, waiting, id),
        _ => false,
    }
}

// Whether an id is that of the thread on one of these slots.
fn has_id(threads: &Threads, held: &SlotSet, id: u32) -> bool
    requires { All (λ s. is_occupied_at threads.now s ≡ true) held.now }
    ensures { result ≡ list_any (nat_eq id) (ids_on threads.now held.now) }
{
    for slot in 0..threads.slot_count() {
        if held.contains(slot) && threads.has_id(slot, id) {
            return true;
        }
    }
    false
}

// The id at an index, of those of the threads on these slots.
fn nth_id(threads: &Threads, held: &SlotSet, n: usize) -> Option<u32>
    requires { All (λ s. is_occupied_at threads.now s ≡ true) held.now }
    ensures { result ≡ slice_get (ids_on threads.now held.now) n }
{
    if n >= held.len() as usize {
        return None;
    }
    match held.nth(n as u32) {
        None => None,
        Some(slot) => Some(threads.place(slot).id),
    }
}

/// The choices of a thread in this context. A running thread with a next statement that its process may not execute has `go`. With
/// another one it has `go`, or at pthread_create an id for a new thread, where a slot is free, at pthread_key_create a number for a
/// new key, where a place is free, and at pthread_cond_signal the id of a thread that waits, where one does; at pthread_mutex_lock it
/// has none while the mutex has an owner, and at pthread_once none while the control is busy; where it may act upon a pending request it
/// has `go` and `act`, and where it must, `act` alone. One that is suspended at a cancellation point has `go`, if what it waits for may occur
/// at any time, one that joins another, once that has ended, one in sem_wait, while the count is above 0, and one in waitpid, unless
/// it has the child and the child has not ended; one that waits on a condition variable has none, and once it was unblocked it has `go`
/// while its mutex has no owner. One that waits with a time, and has no `go` or waits on a condition variable, has `expire`, if the run
/// has texts of format 2. Each of them has `act`, if a request is pending and cancelability is enabled, unless a request
/// unblocked it; one that a signal unblocked hands it on to a thread that waits, where one does. One that is ending has the keys that
/// are left in its pass, after its cleanup handlers, and else `go`; one in fork and one that exits its process have `go`. A thread that
/// has ended has none.
#[tactic(auto, unfolding(pct_model::specs::ChoiceTable::choices_at))]
#[inline(always)]
pub(crate) fn choices_at(context: &Context) -> Choices
    requires { IsWhole context.now }
    ensures value { (shared : SharedState) (t : Thread) (environment : Environment) → IsContext shared t environment context.now
        → let script = context.now.program.now.script in
        listed context.now.threads.now context.now.position.keys.now result ≡ choices_at (body_at script t.frames) shared t environment (next_of script t.frames) t.status }
    ensures within { AreWithin context.now.threads.now result }
{
    let cancel = &context.position.thread.cancel;
    match context.position.thread.status {
        Status::Running => at_next(context),
        Status::AtPoint(index) => go_or_act(may_pass_point(index), cancel.deliverable()),
        Status::Joining(id) => go_or_act(
            context.exit_value_with(id).is_some(),
            cancel.deliverable(),
        ),
        Status::InSem(sem) => go_expire_or_act(
            count_of(context.counts(), sem) > 0,
            can_expire(context),
            cancel.deliverable(),
        ),
        Status::InWaitPid(pid) => go_or_act(!context.is_running_child(pid), cancel.deliverable()),
        Status::Waiting(_, _) => expire_or_act(can_expire(context), cancel.deliverable()),
        Status::Reacquire(cond, mutex, cause) => unblocked_choices(context, cond, mutex, cause),
        Status::Ending => ending_choices(context),
        Status::Forking(_) => Choices::Go,
        Status::Exiting => Choices::Go,
        _ => Choices::None,
    }
}

// The choices of a running thread: none without a next statement.
#[tactic(auto, unfolding(pct_model::specs::ChoiceTable::choices_at))]
#[inline(always)]
fn at_next(context: &Context) -> Choices
    requires { IsWhole context.now }
    ensures value { (shared : SharedState) (t : Thread) (environment : Environment) → IsContext shared t environment context.now
        → let script = context.now.program.now.script in
        listed context.now.threads.now context.now.position.keys.now result ≡ choices_at (body_at script t.frames) shared t environment (next_of script t.frames) status.Running }
    ensures within { AreWithin context.now.threads.now result }
{
    match &context.position.next {
        None => Choices::None,
        Some(at) => running_choices(context, at),
    }
}

// The choices of a thread that was unblocked on a condition variable: `go`, if its mutex has no owner; and, where it may still act
// upon a request, `act`, by which it hands on a signal.
#[tactic(auto, unfolding(pct_model::specs::ChoiceTable::choices_at))]
#[inline(always)]
fn unblocked_choices(context: &Context, cond: u32, mutex: u32, cause: Cause) -> Choices
    requires { IsWhole context.now }
    ensures value { (body : List Statement) (shared : SharedState) (t : Thread) (environment : Environment) → IsContext shared t environment context.now
        → listed context.now.threads.now context.now.position.keys.now result ≡ choices_at body shared t environment (next_at context.now.position.next) (status.Reacquire cond mutex cause) }
    ensures within { AreWithin context.now.threads.now result }
{
    let free = is_free_mutex(context.owners(), mutex);
    if !context.position.thread.cancel.deliverable() {
        return go_or_act(free, false);
    }
    match cause {
        Cause::Signalled => go_or_hand_on(free, &context.waiters(cond)),
        Cause::Broadcast | Cause::TimedOut => go_or_act(free, true),
        Cause::Canceled => go_or_act(free, false),
    }
}

// The choices of an ending thread: the keys that are left in its pass, after its cleanup handlers, and else `go`.
#[tactic(auto, unfolding(pct_model::specs::ChoiceTable::ending_choices))]
fn ending_choices(context: &Context) -> Choices
    requires { IsWhole context.now }
    ensures value { (body : List Statement) (shared : SharedState) (t : Thread) (environment : Environment) → IsContext shared t environment context.now
        → listed context.now.threads.now context.now.position.keys.now result ≡ ending_choices body shared t environment t.handlers }
    ensures within { AreWithin context.now.threads.now result }
{
    let position = &context.position;
    if position.thread.handlers.len() == 0 {
        dtor_or_go(position.keys, position.slot)
    } else {
        Choices::Go
    }
}

// The choices of a running thread at a statement of its top frame: a statement that its process may not execute is a stop, and then
// what its cancelability decides comes first.
#[inline(always)]
fn running_choices(context: &Context, at: &At) -> Choices
    requires { IsWhole context.now }
    ensures value { (shared : SharedState) (t : Thread) (environment : Environment) → IsContext shared t environment context.now
        → listed context.now.threads.now context.now.position.keys.now result ≡ running_choices (body_of context.now.program.now.script at.now.frame.func) shared t environment at.now.frame at.now.statement.now }
    ensures within { AreWithin context.now.threads.now result }
{
    let cancel = &context.position.thread.cancel;
    if is_forbidden_in_child(context, at) {
        Choices::Go
    } else if cancel.async_on() {
        go_or_act(true, cancel.pending)
    } else if cancel.deliverable() {
        requested_choices(context, at.statement)
    } else {
        statement_choices(context, at.statement)
    }
}

// The choices of a running thread at a statement, where a request is pending that is acted upon at cancellation points: the
// thread does so at a required one, and may do so at an optional one.
#[inline(always)]
fn requested_choices(context: &Context, statement: &Stmt) -> Choices
    requires { IsWhole context.now }
    ensures value { (shared : SharedState) (t : Thread) (environment : Environment) → IsContext shared t environment context.now
        → listed context.now.threads.now context.now.position.keys.now result ≡ requested_choices shared environment statement.now }
    ensures within { AreWithin context.now.threads.now result }
{
    match called_kind(statement) {
        Some(PointKind::Required) => Choices::Act,
        Some(PointKind::Optional) => Choices::GoOrAct,
        None => statement_choices(context, statement),
    }
}

// The choices of a running thread at a statement, whatever its cancelability.
#[inline(always)]
fn statement_choices(context: &Context, statement: &Stmt) -> Choices
    requires { IsWhole context.now }
    ensures value { (shared : SharedState) (t : Thread) (environment : Environment) → IsContext shared t environment context.now
        → listed context.now.threads.now context.now.position.keys.now result ≡ statement_choices shared environment statement.now }
    ensures within { AreWithin context.now.threads.now result }
{
    match statement {
        Stmt::Create { .. } => new_or_go(&context.free_slots()),
        Stmt::KeyCreate { .. } => new_key_or_go(context.position.keys),
        Stmt::Lock(mutex) => go_or_act(is_free_mutex(context.owners(), *mutex), false),
        Stmt::CallOnce { once, .. } => go_or_act(!is_busy(once_at(context.onces(), *once)), false),
        Stmt::Signal(cond) => pick_or_go(&context.waiters(*cond)),
        _ => Choices::Go,
    }
}

// The next thread on one of these slots, or `go` if there is none.
fn new_or_go(free: &SlotSet) -> Choices
    ensures value { (threads : List Slot) (keys : Table) → listed threads keys result ≡ new_or_go (map (next_id_at threads) free.now) }
    ensures within { (threads : List Slot) → All (λ s. s < length threads) free.now → AreWithin threads result }
{
    if free.len() == 0 {
        Choices::Go
    } else {
        Choices::New(*free)
    }
}

// The next key on a place that has none, or `go` if each place has one.
fn new_key_or_go(keys: &Keys) -> Choices
    ensures value { (threads : List Slot) → listed threads keys.now result ≡ new_or_go (new_keys keys.now.places) }
    ensures within { (threads : List Slot) → AreWithin threads result }
{
    if keys.free_nth(0).is_none() {
        Choices::Go
    } else {
        Choices::NewKey
    }
}

// The keys that are left in the pass of the thread on a slot, or `go` if there is none.
fn dtor_or_go(keys: &Keys, slot: u32) -> Choices
    requires { slot < length keys.now.rows }
    ensures value { (threads : List Slot) → listed threads keys.now result ≡ dtor_or_go (left_keys keys.now.places (row_at keys.now slot)) }
    ensures within { (threads : List Slot) → slot < length threads → AreWithin threads result }
{
    if keys.left_nth(slot, 0).is_none() {
        Choices::Go
    } else {
        Choices::Dtor(slot)
    }
}

// `go`, if the first test holds, and then `act`, if the second one does.
fn go_or_act(go: bool, act: bool) -> Choices
    ensures value { (threads : List Slot) (keys : Table) → listed threads keys result ≡ go_if go ++ act_if act }
    ensures within { (threads : List Slot) → AreWithin threads result }
{
    match (go, act) {
        (true, true) => Choices::GoOrAct,
        (true, false) => Choices::Go,
        (false, true) => Choices::Act,
        (false, false) => Choices::None,
    }
}

// `expire`, if the first test holds, and then `act`, if the second one does.
fn expire_or_act(expire: bool, act: bool) -> Choices
    ensures value { (threads : List Slot) (keys : Table) → listed threads keys result ≡ expire_if expire ++ act_if act }
    ensures within { (threads : List Slot) → AreWithin threads result }
{
    match (expire, act) {
        (true, true) => Choices::ExpireOrAct,
        (true, false) => Choices::Expire,
        (false, true) => Choices::Act,
        (false, false) => Choices::None,
    }
}

// `go`, if the first test holds, or else `expire`, if the second one does; and then `act`, if the third one does.
fn go_expire_or_act(go: bool, expire: bool, act: bool) -> Choices
    ensures value { (threads : List Slot) (keys : Table) → listed threads keys result ≡ go_if go ++ expire_if (expire && not go) ++ act_if act }
    ensures within { (threads : List Slot) → AreWithin threads result }
{
    if go {
        go_or_act(true, act)
    } else {
        expire_or_act(expire, act)
    }
}

// Whether the time of a wait at the next statement may expire.
#[tactic(auto, using(pct_step_context::proofs::EnvironmentRead::timeouts_read))]
fn can_expire(context: &Context) -> bool
    ensures { (environment : Environment) → IsEnvironment context.now environment → result ≡ can_expire environment (next_at context.now.position.next) }
{
    context.program.has_timeouts() && is_timed_next(&context.position.next)
}

// A signal to one of the threads on these slots, or `go` if there is none.
fn pick_or_go(waiting: &SlotSet) -> Choices
    ensures value { (threads : List Slot) (keys : Table) (waiters : List Waiter) → ids_on threads waiting.now ≡ map (λ waiter. waiter.id) waiters → listed threads keys result ≡ pick_or_go waiters }
    ensures within { (threads : List Slot) → All (λ s. is_occupied_at threads s ≡ true) waiting.now → AreWithin threads result }
{
    if waiting.len() == 0 {
        Choices::Go
    } else {
        Choices::Pick(*waiting)
    }
}

// `go`, if the test holds, and then a signal that is handed on to one of the threads on these slots, or `act` if there is none.
fn go_or_hand_on(go: bool, waiting: &SlotSet) -> Choices
    ensures value { (threads : List Slot) (keys : Table) (waiters : List Waiter) → ids_on threads waiting.now ≡ map (λ waiter. waiter.id) waiters → listed threads keys result ≡ go_if go ++ hand_on_or_act waiters }
    ensures within { (threads : List Slot) → All (λ s. is_occupied_at threads s ≡ true) waiting.now → AreWithin threads result }
{
    if waiting.len() == 0 {
        go_or_act(go, true)
    } else if go {
        Choices::GoOrHandOn(*waiting)
    } else {
        Choices::HandOn(*waiting)
    }
}
