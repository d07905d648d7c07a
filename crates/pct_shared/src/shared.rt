//! The shared host.

ghost use Rattle.std.specs.Prelude.{◌≡◌, ◌<◌, ◌≤◌, ℕ, [], ◌++◌, map, All, Some, IfOk, IfErr, option_map, vec_capacity};
ghost use Rattle.pct_model.specs.declared.limits.TheConstants.{MAX_WORKER};
ghost use Rattle.pct_shared.specs.declared.view.View.{View};
ghost use Rattle.pct_shared.specs.Hosts.{AreNewWorkers, IsNewDesk, IsNewWorker};
ghost use Rattle.pct_shared.specs.Passes.{IsDesk};
ghost use Rattle.pct_shared.specs.TurnSteps.{HasLifted, HasNumber, HasTakenTurn, IsSeatOf, MayGive, MissedTurn, gave_view};
ghost use Rattle.pct_shared.specs.Views.{new_view, opened};

use crate::pass::Pass;
use crate::turns::{Chair, Desk, Gives, NextPass, Slot, Takes, TakesIn};
use crate::view::Opening;
use crate::worker::Worker;
use pct_engine::Engine;
use pct_io::NoMemory;
use pct_model::{Entry, Verdict};
use pct_scheduled_run::stream_of;
use std::alloc::Global;
use std::marker::Model;
use std::snapshot::Snapshot;

/// How a turn went.
#[derive(Clone, Copy, Debug, PartialEq, Eq)]
pub enum Turn {
    /// The worker made the step of this entry.
    Did(Entry),
    /// The worker with this number had the turn.
    Busy(u64),
    /// The run cannot go on: its verdict is this one, which is not `Open`.
    Over(Verdict),
}

/// A run that several workers step, one at a time. In a contract it is the table with the turn, and what it was opened with.
#[derive(Drop)]
pub struct Shared {
    desk: Desk,
}

impl Model for Shared {
    ghost use Rattle.pct_shared.specs.Passes.{IsDesk, SharedValue};

    ghost Value = { SharedValue };

    ghost view = { λ s. record { host = s.desk.shared.table_id; opening = s.desk.shared.key } };

    ghost invariant = { λ s. IsDesk s.desk.shared.table_id s.desk.shared.key };
}

impl Shared {
    ghost use Rattle.std.specs.Prelude.{◌≡◌, ◌<◌, ◌≤◌, IfOk};
    ghost use Rattle.pct_model.specs.declared.limits.TheConstants.{MAX_WORKER};
    ghost use Rattle.pct_shared.specs.Hosts.{AreAllWorkers, IsClosing, IsOpening};
    ghost use Rattle.pct_shared.specs.Passes.{IsPassOf, IsTurn, TookOneTurn};

    /// Opens a host for 1 to 16 workers, which go on with the run of an engine. Worker i, from 1 on, has the number i and the stream of
    /// words of that number under the seed. `NoMemory` means that there is no memory for the host; the engine is dropped then.
    pub fn open(
        alloc: Global,
        engine: Engine,
        workers: u32,
        seed: u64,
    ) -> Result<(Shared, Vec<Worker>), NoMemory>
        requires { (0 < workers) × (workers ≤ MAX_WORKER) }
        ensures { IfOk result (λ opened. IsOpening engine workers seed opened.0 opened.1.items) }
    {
        let mut all = Vec::with_capacity(alloc, workers as usize)?;
        let opening = Opening {
            engine: Snapshot::of(&engine),
            workers,
        };
        let (desk, first) = new_desk(alloc, engine, &opening)?;
        let host = Opened {
            desk: &desk,
            opening: &opening,
        };
        make_workers(&host, first, seed, &mut all);
        Ok((Shared { desk }, all))
    }

    /// Takes one turn. `Did(e)` means that the pass got the turn and made the step of the entry e, which the numbers `a` and `b` choose for
    /// its worker as `Engine::choose` says. `Busy(n)` means that the worker n, another one, had the turn at that moment; nothing is
    /// changed. `Over(v)` means that the pass got the turn, and that the run cannot go on, since its verdict is v, which is not `Open`.
    ///
    /// The pass is one of this host. The call does not wait, and allocates no memory.
    pub fn step(&self, pass: &mut Pass, a: u32, b: u32) -> Turn
        requires { IsPassOf self.now pass.old }
        ensures one { TookOneTurn pass.old pass.new }
        ensures turn { IsTurn pass.old.view pass.new.view a b result }
    {
        let number = pass.number();
        let seat = &mut pass.seat;
        try_turn(&self.desk, seat, Choice { number, a, b })
    }

    /// Closes the host, and returns the engine with the whole history. The workers are all those of this host. The call allocates no memory.
    pub fn close(self, mut workers: Vec<Worker>) -> Engine
        requires { AreAllWorkers self workers.items }
        ensures { IsClosing self.opening workers.items result }
    {
        let Shared { desk } = self;
        let last = workers.pop().unwrap();
        let mut seat = last.pass.into_seat();
        join_passes(&desk, &mut seat, &mut workers);
        let mut closed = desk.close_with(seat);
        let engine = closed.take(0);
        closed.free();
        Box::into_inner(engine.unwrap())
    }
}

// A host while it is opened: its table, and what it is opened with.
#[derive(Clone, Copy)]
struct Opened<'a> {
    desk: &'a Desk,
    opening: &'a Opening,
}

// The table of a host with an engine, and its first seat.
fn new_desk(alloc: Global, engine: Engine, opening: &Opening) -> Result<(Desk, Chair), NoMemory>
    requires { (engine ≡ opened opening.now) × (0 < opening.now.workers) × (opening.now.workers ≤ MAX_WORKER) }
    ensures { IfOk result (λ made. IsNewDesk opening.now made.0.shared.table_id made.0.shared.key made.1.table_id made.1.me) }
{
    let mut slots = Vec::with_capacity(alloc, 1)?;
    slots.push(Some(Box::new(alloc, engine)?))?;
    match Desk::new(alloc, &[0], slots, opening) {
        Ok(made) => Ok(made),
        Err(_) => Err(NoMemory),
    }
}

// Makes the workers from the first seat on: each pass is split off the one before it.
fn make_workers(host: &Opened<'_>, first: Chair, seed: u64, workers: &mut Vec<Worker>)
    requires desk { IsNewDesk host.now.opening.now host.now.desk.now.shared.table_id host.now.desk.now.shared.key first.table_id first.me }
    requires few { IsDesk host.now.desk.now.shared.table_id host.now.opening.now }
    requires none { workers.old.items ≡ [] }
    requires room { host.now.opening.now.workers ≤ vec_capacity workers.old }
    ensures { AreNewWorkers (record { host = host.now.desk.now.shared.table_id; opening = host.now.opening.now }) host.now.opening.now.workers seed workers.new.items }
{
    let mut newest = first;
    let mut number = 1;
    while number < host.opening.workers {
        let next = host.desk.shared.split_seat::<NextPass>(&mut newest);
        let worker = new_worker(host.opening, newest, number, seed);
        workers.push(worker).unwrap();
        newest = next;
        number += 1;
    }
    let worker = new_worker(host.opening, newest, number, seed);
    workers.push(worker).unwrap();
}

// The worker with a number, on a new seat.
fn new_worker(opening: &Opening, seat: Chair, number: u32, seed: u64) -> Worker
    requires seat { (made : ℕ) × seat.me ≡ (Some (record (new_view opening.now number) { made = made }), []) }
    requires few { number ≤ MAX_WORKER }
    ensures { IsNewWorker (record { host = seat.table_id; opening = opening.now }) seed number result }
{
    Worker {
        pass: Pass::new(seat, number, opening),
        picks: stream_of(seed, number),
    }
}

// A worker's number, and the two numbers by which it chooses.
#[derive(Clone, Copy)]
struct Choice {
    number: u32,
    a: u32,
    b: u32,
}

// Takes the passes of the workers in.
fn join_passes(desk: &Desk, seat: &mut Chair, workers: &mut Vec<Worker>)
    requires desk { IsDesk desk.now.shared.table_id desk.now.shared.key }
    requires table { seat.old.table_id ≡ desk.now.shared.table_id }
    requires view { (v : View) × IsSeatOf seat.old.me v }
    requires passes { All (λ w. w.pass.host ≡ desk.now.shared.table_id) workers.old.items }
    ensures table { seat.new.table_id ≡ seat.old.table_id }
    ensures olds { (v : View) → IsSeatOf seat.old.me v → IsSeatOf seat.new.me (record v { olds = map (λ w. w.pass.view.known) workers.old.items ++ v.olds }) }
{
    while let Some(worker) = workers.pop() {
        desk.shared
            .join_seat::<TakesIn>(seat, worker.pass.into_seat());
    }
}

// Takes the turn word once, and makes a turn if the pass got it.
fn try_turn(desk: &Desk, seat: &mut Chair, choice: Choice) -> Turn
    requires desk { IsDesk desk.now.shared.table_id desk.now.shared.key }
    requires table { seat.old.table_id ≡ desk.now.shared.table_id }
    requires number { HasNumber seat.old.me choice.number }
    requires few { choice.number ≤ MAX_WORKER }
    ensures table { seat.new.table_id ≡ seat.old.table_id }
    ensures turn { (v : View) → IsSeatOf seat.old.me v → HasTakenTurn v seat.new.me choice.a choice.b result }
{
    match take_turn(desk, seat, choice.number) {
        Ok(engine) => use_turn(desk, seat, engine, choice),
        Err(found) => Turn::Busy(found),
    }
}

// Takes the turn and lifts the engine, or finds the number of another worker.
fn take_turn(desk: &Desk, seat: &mut Chair, number: u32) -> Result<Box<Engine>, u64>
    requires desk { IsDesk desk.now.shared.table_id desk.now.shared.key }
    requires table { seat.old.table_id ≡ desk.now.shared.table_id }
    requires number { HasNumber seat.old.me number }
    ensures table { seat.new.table_id ≡ seat.old.table_id }
    ensures got { (v : View) → IsSeatOf seat.old.me v → IfOk result (λ engine. HasLifted v seat.new.me engine.value) }
    ensures missed { (v : View) → IsSeatOf seat.old.me v → IfErr result (λ found. (0 < found) × MissedTurn v found seat.new.me) }
{
    let found = desk
        .shared
        .compare_exchange::<Takes>(seat, 0, 0, u64::from(number));
    if found != 0 {
        return Err(found);
    }
    let engine = desk.shared.exchange(seat, 0, None);
    Ok(engine.unwrap())
}

// Makes a step, or finds the verdict, and gives the turn back.
fn use_turn(desk: &Desk, seat: &mut Chair, mut engine: Box<Engine>, choice: Choice) -> Turn
    requires desk { IsDesk desk.now.shared.table_id desk.now.shared.key }
    requires table { seat.old.table_id ≡ desk.now.shared.table_id }
    requires lifted { (v : View) × HasLifted v seat.old.me engine.value × (v.known.number ≡ choice.number) }
    requires few { choice.number ≤ MAX_WORKER }
    ensures table { seat.new.table_id ≡ seat.old.table_id }
    ensures turn { (v : View) → HasLifted v seat.old.me engine.value → HasTakenTurn v seat.new.me choice.a choice.b result }
{
    match engine.advance(choice.number, choice.a, choice.b) {
        Some(entry) => {
            give_turn(desk, seat, engine);
            Turn::Did(entry)
        }
        None => {
            let verdict = engine.verdict();
            give_turn(desk, seat, engine);
            Turn::Over(verdict)
        }
    }
}

// Puts the engine back and gives the turn.
fn give_turn(desk: &Desk, seat: &mut Chair, engine: Box<Engine>)
    requires desk { IsDesk desk.now.shared.table_id desk.now.shared.key }
    requires table { seat.old.table_id ≡ desk.now.shared.table_id }
    requires gives { MayGive seat.old.me engine.value }
    ensures table { seat.new.table_id ≡ seat.old.table_id }
    ensures gave { seat.new.me ≡ (option_map (gave_view engine.value.history) seat.old.me.0, []) }
{
    drop(desk.shared.exchange(seat, 0, Some(engine)));
    desk.shared.store::<Gives>(seat, 0, 0);
}
