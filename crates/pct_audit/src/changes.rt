//! What an event changes in the rows.

ghost use Rattle.std.specs.Prelude.{◌≡◌, ℕ, suc, ◌<◌, if◌then◌else◌, ◌&&◌, length, false, OnOk, IfOk, nat_eq};
ghost use Rattle.std.specs.Option.{option_map_or};
ghost use Rattle.pct_model.specs.ThreadCalls.{join_point};
ghost use Rattle.pct_laws.specs.KnownThreads.{makes_process};
ghost use Rattle.pct_laws.specs.NewestEvents.{reports_call};
ghost use Rattle.pct_laws.specs.ThreadSummary.{ThreadSummary, with_event};
ghost use Rattle.pct_laws.specs.WaitStages.{stage_after, stage_at_call};
ghost use Rattle.pct_audit.specs.IsRow.{IsRow, Grows, KeepsMarks, IsOwnChange, names, marked, copied};
ghost use Rattle.pct_audit.specs.Rows.{row_of};

use crate::rows::{Row, Rows};
use crate::stacks::Stacks;
use pct_io::NoMemory;
use pct_laws::WaitStage;
use pct_model::{COND_TIMEDWAIT_POINT, COND_WAIT_POINT, JOIN_POINT, Reason, What};

/// The process that an event makes.
pub fn child_of(what: What) -> Option<u32>
    ensures { (pid : ℕ) → makes_process pid what ≡ option_map_or (λ child. nat_eq child pid) result false }
{
    match what {
        What::Forked(child) => Some(child),
        _ => None,
    }
}

// The handlers and the end in a row, after an event of its thread.
fn own_row(stacks: &mut Stacks, row: Row, what: What) -> Result<Row, NoMemory>
    requires handlers { row.handlers < length stacks.old }
    requires left { row.left < length stacks.old }
    ensures stacks { OnOk result (Grows stacks.old stacks.new) }
    ensures marks { IfOk result (λ next. KeepsMarks what row next) }
    ensures row { IfOk result (λ next. (s : ThreadSummary) → IsRow stacks.old row s → IsRow stacks.new next (with_event what s)) }
{
    match what {
        What::Pushed(f, a) => {
            let handlers = stacks.push(row.handlers, f, a)?;
            Ok(Row { handlers, ..row })
        }
        What::Popped { .. } => Ok(Row {
            handlers: stacks.below(row.handlers),
            ..row
        }),
        What::HandlerRun(_, _) => {
            let handlers = stacks.below(row.handlers);
            let left = stacks.below(row.left);
            Ok(Row {
                handlers,
                left,
                ..row
            })
        }
        What::EndingExit(value) => Ok(Row {
            reason: Reason::Exit(value),
            left: row.handlers,
            ..row
        }),
        What::EndingCanceled => Ok(Row {
            reason: Reason::Canceled,
            left: row.handlers,
            ..row
        }),
        What::EndingInWait(_, _) => Ok(Row {
            reason: Reason::Canceled,
            left: row.handlers,
            ..row
        }),
        What::EndedWith(value) => Ok(Row {
            ended: Some(value),
            ..row
        }),
        What::PassBegun(_) => Ok(Row {
            passes: one_more(row.passes)?,
            ..row
        }),
        _ => Ok(row),
    }
}

// The number of passes after one more. There is no memory for 2 ^ 32 events.
fn one_more(passes: u32) -> Result<u32, NoMemory>
    ensures { IfOk result (λ next. next ≡ suc passes) }
{
    passes.checked_add(1).ok_or(NoMemory)
}

// The stage of a condition wait after an event of its thread.
fn next_stage(what: What, stage: WaitStage) -> WaitStage
    ensures { result ≡ stage_after what stage }
{
    match (what, stage) {
        (What::Called(index), _) => stage_at_call(index),
        (What::Released(m), WaitStage::AtCall { timed }) => WaitStage::InWait { timed, mutex: m },
        (What::Acquired(_), WaitStage::InWait { timed, .. }) => WaitStage::ToReturn { timed },
        (What::Acquired(_), WaitStage::Expired { .. }) => WaitStage::ToTimeOut,
        (What::Acquired(_), WaitStage::Leaving { cond, mutex, .. }) => WaitStage::ToEnd {
            cond,
            mutex,
        },
        (What::Acquired(_), WaitStage::Left { cond, mutex, .. }) => WaitStage::ToEnd {
            cond,
            mutex,
        },
        (What::WaitExpired(cond), WaitStage::InWait { timed: true, mutex }) => WaitStage::Expired {
            cond,
            mutex,
        },
        (What::WaitCanceled(cond), WaitStage::InWait { timed, mutex }) => WaitStage::Leaving {
            timed,
            cond,
            mutex,
        },
        (What::WaitCanceled(_), WaitStage::Expired { cond, mutex }) => WaitStage::Left {
            timed: true,
            cond,
            mutex,
        },
        (What::HandedOn(c, _), WaitStage::Leaving { timed, cond, mutex }) => {
            if c == cond {
                WaitStage::Left { timed, cond, mutex }
            } else {
                WaitStage::NoWait
            }
        }
        _ => WaitStage::NoWait,
    }
}

// The stage at the call of a cancellation point.
fn stage_at_call(index: u32) -> WaitStage
    ensures { result ≡ stage_at_call index }
{
    if index == COND_WAIT_POINT {
        WaitStage::AtCall { timed: false }
    } else if index == COND_TIMEDWAIT_POINT {
        WaitStage::AtCall { timed: true }
    } else {
        WaitStage::NoWait
    }
}

// Whether an event is the call of pthread_join.
fn calls_join(what: What) -> bool
    ensures { result ≡ reports_call join_point what }
{
    match what {
        What::Called(index) => index == JOIN_POINT,
        _ => false,
    }
}

/// The row of a thread after an event of its own.
pub fn next_row(stacks: &mut Stacks, row: Row, what: What) -> Result<Row, NoMemory>
    requires handlers { row.handlers < length stacks.old }
    requires left { row.left < length stacks.old }
    ensures stacks { OnOk result (Grows stacks.old stacks.new) }
    ensures marks { IfOk result (λ next. IsOwnChange what row next) }
    ensures row { IfOk result (λ next. (s : ThreadSummary) → IsRow stacks.old row s → IsRow stacks.new next (with_event what s)) }
{
    let next = own_row(stacks, row, what)?;
    let joining = calls_join(what);
    let stage = next_stage(what, next.stage);
    Ok(Row {
        joining,
        stage,
        ..next
    })
}

/// Changes the row of a thread that an event names.
pub fn mark(rows: &mut Rows, pid: u32, what: What) -> Result<(), NoMemory>
    ensures { OnOk result ((p t : ℕ) → row_of rows.new p t ≡ (if nat_eq pid p && names t what then marked what (row_of rows.old p t) else row_of rows.old p t)) }
{
    match what {
        What::Created { id, detached } => {
            let row = rows.at(pid, id);
            let detached = detached || row.detached;
            rows.set(
                pid,
                id,
                Row {
                    known: true,
                    detached,
                    ..row
                },
            )
        }
        What::Detached(id) => {
            let row = rows.at(pid, id);
            rows.set(
                pid,
                id,
                Row {
                    detached: true,
                    ..row
                },
            )
        }
        What::Joined(id, _) => {
            let row = rows.at(pid, id);
            rows.set(
                pid,
                id,
                Row {
                    joined: true,
                    ..row
                },
            )
        }
        _ => Ok(()),
    }
}

/// Changes the row of the replica that a fork makes of the thread that called it.
pub fn replicate(rows: &mut Rows, what: What, tid: u32, caller: Row) -> Result<(), NoMemory>
    ensures { OnOk result ((p t : ℕ) → row_of rows.new p t ≡ (if nat_eq tid t && makes_process p what then copied caller (row_of rows.old p t) else row_of rows.old p t)) }
{
    let Some(child) = child_of(what) else {
        return Ok(());
    };
    let replica = rows.at(child, tid);
    let detached = caller.detached || replica.detached;
    rows.set(
        child,
        tid,
        Row {
            handlers: caller.handlers,
            known: true,
            detached,
            ..replica
        },
    )
}
