//! The turns of workers.

ghost use Rattle.std.specs.Prelude.{◌≡◌, ◌<◌, ℕ, length, slice_index_or, All};
ghost use Rattle.pct_scheduled_run.specs.Streams.{after_words, draws};
ghost use Rattle.pct_shared.specs.declared.worker.Worker.{Worker};
ghost use Rattle.pct_shared.specs.Passes.{IsPassOf, IsTurn, TookOneTurn};
ghost use Rattle.pct_workers.specs.Work.{Worked};

use pct_io::Gate;
use pct_scheduled_run::Scheduler;
use pct_shared::{Shared, Turn, Worker};
use std::thread;
use std::thread::Threads;

// The most threads that run workers.
const MOST_THREADS: usize = 16;

/// Lets a worker take at most `turns` turns, and fewer only if the run cannot go on. Before each turn the gate is called, and two words of
/// the worker's stream are drawn, by which it chooses its entry. A turn that finds the turn of another worker counts, and is not waited for.
///
/// The pass is one of this host. The call allocates no memory.
pub fn work<G: Gate>(shared: &Shared, worker: &mut Worker, turns: u32, gate: &G)
    requires { IsPassOf shared.now worker.old.pass }
    ensures { Worked turns worker.old worker.new }
{
    let number = worker.pass.number();
    let mut made = 0;
    while made < turns {
        made += 1;
        gate.at(number, made);
        if let Turn::Over(_) = work_once(shared, worker) {
            return;
        }
    }
}

// Takes one turn, by the next two words of the worker's stream.
fn work_once(shared: &Shared, worker: &mut Worker) -> Turn
    requires { IsPassOf shared.now worker.old.pass }
    ensures one { TookOneTurn worker.old.pass worker.new.pass }
    ensures picks { worker.new.picks ≡ after_words 2 worker.old.picks }
    ensures turn { IsTurn worker.old.pass.view worker.new.pass.view (draws worker.old.picks 0).0 (draws worker.old.picks 0).1 result }
{
    let (a, b) = worker.picks.draw();
    shared.step(&mut worker.pass, a, b)
}

/// Lets all workers take turns as `work` does, each on a thread of its own if threads can be made, and else one after another.
///
/// The passes are some of this host.
pub fn run_workers<R: Threads + Sync, G: Gate>(
    rt: &R,
    shared: &Shared,
    workers: &mut [Worker],
    turns: u32,
    gate: &G,
)
    requires { All (λ w. IsPassOf shared.now w.pass) workers.old }
    ensures count { length workers.new ≡ length workers.old }
    ensures each { (index : ℕ) (d : Worker) → index < length workers.old → Worked turns (slice_index_or workers.old index d) (slice_index_or workers.new index d) }
{
    let each = |_: usize, worker: &mut Worker|
        requires { IsPassOf shared.now worker.now.pass }
        ensures { Worked turns worker.entry.now worker.exit.now }
    { work(shared, worker, turns, gate) };
    thread::for_each_mut(rt, workers, MOST_THREADS, &each);
}
