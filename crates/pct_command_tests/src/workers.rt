//! Runs of workers, and gates before their turns. What the gates of the tests with two workers wait for comes soon if the workers are on
//! threads of their own; they look for it a bounded number of times.

use pct_command::command;
use pct_engine::Engine;
use pct_io::{Gate, MemSink, MemSource};
use pct_model::Config;
use pct_shared::Shared;
use pct_vectors::generate;
use pct_workers::run_workers;
use std::sync::atomic::{AtomicU64, Ordering};
use std::test::Fail;

// How often a gate looks for what it waits for.
const LOOKS: u64 = 100_000_000;

// Looks at a number until it has come to the least one. Whether it has.
fn has_come(number: &AtomicU64, least: u64) -> bool {
    for _ in 0..LOOKS {
        if number.load(Ordering::SeqCst) >= least {
            return true;
        }
    }
    false
}

// Two workers that meet at their first turns.
#[derive(Drop)]
struct Meeting {
    first: AtomicU64,
    second: AtomicU64,
    met: AtomicU64,
}

impl Gate for Meeting {
    fn at(&self, worker: u32, turn: u32) {
        let (own, other) = if worker == 1 {
            (&self.first, &self.second)
        } else {
            (&self.second, &self.first)
        };
        if turn == 1 {
            own.store(1, Ordering::SeqCst);
            if has_come(other, 1) {
                self.met.fetch_add(1, Ordering::SeqCst);
            }
        }
    }
}

#[test]
fn both_workers_at_once(rt: HostRuntime) -> Result<(), Fail> {
    let alloc = rt.alloc();
    let engine = Engine::open(alloc, generate(alloc, 0)?, Config::DEFAULT)?;
    let (shared, mut workers) = Shared::open(alloc, engine, 2, 1)?;
    let meeting = Meeting {
        first: AtomicU64::new(0),
        second: AtomicU64::new(0),
        met: AtomicU64::new(0),
    };
    run_workers(&rt, &shared, workers.as_mut_slice(), 1, &meeting);
    assert!(rt; meeting.met.load(Ordering::SeqCst) == 2);
    Ok(())
}

// The turns to which two workers have come. The one that begins makes four turns, then the other makes two.
#[derive(Drop)]
struct Order {
    begins: u32,
    first: AtomicU64,
    second: AtomicU64,
}

impl Gate for Order {
    fn at(&self, worker: u32, turn: u32) {
        if worker == self.begins {
            self.first.store(u64::from(turn), Ordering::SeqCst);
            if turn == 5 {
                has_come(&self.second, 3);
            }
        } else {
            self.second.store(u64::from(turn), Ordering::SeqCst);
            if turn == 1 {
                has_come(&self.first, 5);
            }
        }
    }
}

const PATH: &[u8] =
    b"fn h x\nemit x\nend\nfn main x\npthread_cleanup_push h 1\nemit 5\npthread_cleanup_pop 1\nreturn 0\nend\n";

// The worker that begins, and how the report begins.
static ORDERS: [(u32, &[u8]); 2] = [
    (
        1,
        b"report 1\n1.1 push h 1\n1.1 emit 5\n1.1 pop h 1 run\n1.1 emit 1\n1.1 exit 0\n1.1 process_end 0\nverdict complete\nschedule 1 10000 4 64\n1 1 1 go\n1 1 1 go\n1 1 1 go\n1 1 1 go\n2 1 1 go\n2 1 1 go\n",
    ),
    (
        2,
        b"report 1\n1.1 push h 1\n1.1 emit 5\n1.1 pop h 1 run\n1.1 emit 1\n1.1 exit 0\n1.1 process_end 0\nverdict complete\nschedule 1 10000 4 64\n2 1 1 go\n2 1 1 go\n2 1 1 go\n2 1 1 go\n1 1 1 go\n1 1 1 go\n",
    ),
];

#[test]
fn gate_orders_the_run(rt: HostRuntime) -> Result<(), Fail> {
    let alloc = rt.alloc();
    for row_number in 0..2 {
        let (begins, expected) = ORDERS[row_number];
        let mut words = Vec::new(alloc);
        for word in ["run", "--workers", "2"] {
            words.push(String::from_str(alloc, word)?)?;
        }
        let mut source = MemSource::new(alloc, PATH, 4096, &[])?;
        let mut sink = MemSink::new(alloc, 1000, 1000, &[])?;
        let order = Order {
            begins,
            first: AtomicU64::new(0),
            second: AtomicU64::new(0),
        };
        let status = command(&rt, alloc, &words, &mut source, &mut sink, &order);
        assert!(rt; status.code() == 0, "row {row_number}");
        assert!(rt; sink.written().starts_with(expected), "row {row_number}");
    }
    Ok(())
}

// The turns of one worker: the number of the next one, and how many calls were of another worker or another turn.
#[derive(Drop)]
struct Alone {
    next: AtomicU64,
    others: AtomicU64,
}

impl Gate for Alone {
    fn at(&self, worker: u32, turn: u32) {
        let next = self.next.fetch_add(1, Ordering::SeqCst);
        if worker != 1 || u64::from(turn) != next {
            self.others.fetch_add(1, Ordering::SeqCst);
        }
    }
}

// The most turns of the worker, the turn after its last one, and the report. The run of the script has seven steps: five statements, the end
// of h and the end of the process. So an eighth turn finds that it is complete; and after three turns the number 0 makes the other four
// steps, before which no gate is called.
static TURNS: [(&str, u64, &[u8]); 2] = [
    (
        "9",
        9,
        b"report 1\n1.1 push h 1\n1.1 emit 5\n1.1 pop h 1 run\n1.1 emit 1\n1.1 exit 0\n1.1 process_end 0\nverdict complete\nschedule 1 10000 4 64\n1 1 1 go\n1 1 1 go\n1 1 1 go\n1 1 1 go\n1 1 1 go\n1 1 1 go\n1 1 1 go\nend 7\n",
    ),
    (
        "3",
        4,
        b"report 1\n1.1 push h 1\n1.1 emit 5\n1.1 pop h 1 run\n1.1 emit 1\n1.1 exit 0\n1.1 process_end 0\nverdict complete\nschedule 1 10000 4 64\n1 1 1 go\n1 1 1 go\n1 1 1 go\n0 1 1 go\n0 1 1 go\n0 1 1 go\n0 1 1 go\nend 7\n",
    ),
];

#[test]
fn gate_is_called_for_one_worker(rt: HostRuntime) -> Result<(), Fail> {
    let alloc = rt.alloc();
    for row_number in 0..2 {
        let (turns, last, expected) = TURNS[row_number];
        let mut words = Vec::new(alloc);
        for word in ["run", "--turns", turns] {
            words.push(String::from_str(alloc, word)?)?;
        }
        let mut source = MemSource::new(alloc, PATH, 4096, &[])?;
        let mut sink = MemSink::new(alloc, 1000, 1000, &[])?;
        let alone = Alone {
            next: AtomicU64::new(1),
            others: AtomicU64::new(0),
        };
        let status = command(&rt, alloc, &words, &mut source, &mut sink, &alone);
        assert!(rt; status.code() == 0, "row {row_number}");
        assert!(rt; sink.written() == expected, "row {row_number}");
        assert!(rt;
            alone.next.load(Ordering::SeqCst) == last,
            "row {row_number}"
        );
        assert!(rt;
            alone.others.load(Ordering::SeqCst) == 0,
            "row {row_number}"
        );
    }
    Ok(())
}
