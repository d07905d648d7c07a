//! The candidates of the scheduler: the threads that are ready, of one process after the other.

ghost use Rattle.std.specs.Prelude.{◌≡◌, ◌+◌, ◌*◌, ◌%◌, ◌<◌, ◌^◌, ℕ, suc, if◌then◌else◌, nat_eq, length, map, Some, is_some, slice_get};
ghost use Rattle.std.specs.List.{list_all, list_any};
ghost use Rattle.pct_model.specs.Formats.{has_timeouts};
ghost use Rattle.pct_engine_laws.specs.SeenSteps.{has_ready_in, ready_in};
ghost use Rattle.pct_process.specs.ProcessViews.{thread_on_slot};
ghost use Rattle.pct_machine.specs.declared.scheduler.Pick.TheVariants as pick;
ghost use Rattle.pct_machine.specs.Places.{families};
ghost use Rattle.pct_machine.specs.Candidates.{candidates_among, pick_after, picked, IfHere, IsSeat};
ghost use Rattle.pct_ready_sets.specs.ReadyConditions.{FollowsAt, FollowAll};

use crate::processes::Processes;
use crate::scheduler::{Pick, Seat};
use pct_place::Place;
use pct_ready_sets::ReadySets;
use pct_set::SlotSet;
use pct_step_context::Program;

/// Whether each process has ended.
pub(crate) fn all_ended(processes: &Processes) -> bool
    ensures { result ≡ list_all (λ p. is_some p.ended) processes.now.processes }
{
    processes.as_slice().iter().all(|place| place.has_ended())
}

/// Whether a thread of one of the processes is ready.
pub(crate) fn any_ready(program: &Program, processes: &Processes) -> bool
    requires { processes.now.made + 1 < 2 ^ 32 }
    ensures { result ≡ list_any (λ p. has_ready_in program.now.script (has_timeouts program.now.config.format) (length p.slots) (families processes.now p.pid) p) processes.now.processes }
{
    processes.as_slice().iter().any(|place| place.has_ready(processes.around(program, place.pid())))
}

/// What a number chooses among the threads of these processes that are ready, which follow this many of other processes. The threads that
/// are ready are looked for once.
#[cycle(pick)]
#[inline(always)]
pub(crate) fn pick(
    program: &Program,
    processes: &Processes,
    places: &[Place],
    sets: &[ReadySets],
    before: u32,
    number: u32,
) -> Pick
    requires follow { FollowAll program.now.script (has_timeouts program.now.config.format) places.now sets.now }
    requires made { processes.now.made + 1 < 2 ^ 32 }
    requires few { before + 64 * length places.now < 2 ^ 32 }
    ensures value { picked program.now.script (has_timeouts program.now.config.format) (families processes.now) places.now result ≡ pick_after before number (candidates_among program.now.script (has_timeouts program.now.config.format) (families processes.now) places.now) }
    ensures seat { IfHere result (IsSeat places.now) }
{
    let Some((place, rest)) = places.split_first() else {
        return pick_before(before, number);
    };
    let ready = ready(program, processes, place, sets);
    let index = match pick_later(
        program,
        processes,
        rest,
        after_first(sets),
        before + ready.len(),
        number,
    ) {
        Pick::Nobody => return Pick::Nobody,
        Pick::Here(seat) => {
            return Pick::Here(Seat {
                place: seat.place + 1,
                slot: seat.slot,
            });
        }
        Pick::Before(index) => index,
    };
    if index < before {
        return Pick::Before(index);
    }
    match ready.nth(index - before) {
        Some(slot) => Pick::Here(Seat { place: 0, slot }),
        None => Pick::Nobody,
    }
}

// The same. Where there is no process, nothing is called: most often there is one process alone.
#[cycle(pick)]
#[inline(always)]
fn pick_later(
    program: &Program,
    processes: &Processes,
    places: &[Place],
    sets: &[ReadySets],
    before: u32,
    number: u32,
) -> Pick
    requires follow { FollowAll program.now.script (has_timeouts program.now.config.format) places.now sets.now }
    requires made { processes.now.made + 1 < 2 ^ 32 }
    requires few { before + 64 * length places.now < 2 ^ 32 }
    ensures value { picked program.now.script (has_timeouts program.now.config.format) (families processes.now) places.now result ≡ pick_after before number (candidates_among program.now.script (has_timeouts program.now.config.format) (families processes.now) places.now) }
    ensures seat { IfHere result (IsSeat places.now) }
{
    if places.is_empty() {
        pick_before(before, number)
    } else {
        pick_more(program, processes, places, sets, before, number)
    }
}

// The same. Its code stands once, whereas `pick` is inline.
#[cycle(pick)]
#[inline(never)]
fn pick_more(
    program: &Program,
    processes: &Processes,
    places: &[Place],
    sets: &[ReadySets],
    before: u32,
    number: u32,
) -> Pick
    requires follow { FollowAll program.now.script (has_timeouts program.now.config.format) places.now sets.now }
    requires made { processes.now.made + 1 < 2 ^ 32 }
    requires few { before + 64 * length places.now < 2 ^ 32 }
    ensures value { picked program.now.script (has_timeouts program.now.config.format) (families processes.now) places.now result ≡ pick_after before number (candidates_among program.now.script (has_timeouts program.now.config.format) (families processes.now) places.now) }
    ensures seat { IfHere result (IsSeat places.now) }
{
    pick(program, processes, places, sets, before, number)
}

// What a number chooses, where there is no process.
#[inline(always)]
fn pick_before(before: u32, number: u32) -> Pick
    ensures { result ≡ (if nat_eq before 0 then pick.Nobody else pick.Before (number % before)) }
{
    if before == 0 {
        Pick::Nobody
    } else {
        Pick::Before(number % before)
    }
}

// The slots of the threads of a process that are ready, by the first of these sets, if there is one.
#[inline(always)]
fn ready(program: &Program, processes: &Processes, place: &Place, sets: &[ReadySets]) -> SlotSet
    requires made { processes.now.made + 1 < 2 ^ 32 }
    requires follows { FollowsAt program.now.script (has_timeouts program.now.config.format) place.now 0 sets.now }
    ensures { map (thread_on_slot place.now.slots) result ≡ map (λ t. Some t) (ready_in program.now.script (has_timeouts program.now.config.format) (length place.now.slots) (families processes.now place.now.pid) place.now) }
{
    let around = processes.around(program, place.pid());
    match sets.first() {
        None => place.ready(around),
        Some(own) => place.ready_by(around, own),
    }
}

// The sets after the first one.
#[inline(always)]
fn after_first(sets: &[ReadySets]) -> &[ReadySets]
    ensures { (i : ℕ) → slice_get result.now i ≡ slice_get sets.now (suc i) }
{
    match sets.split_first() {
        None => sets,
        Some((_, others)) => others,
    }
}
