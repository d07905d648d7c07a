//! The law of cleanup handlers and destructors.

ghost use Rattle.std.specs.Prelude.{◌≡◌};
ghost use Rattle.pct_model.specs.StopTable.{has_begun_to_end};
ghost use Rattle.pct_laws.specs.Once.{value_of_end};
ghost use Rattle.pct_audit.specs.CleanupTests.{allows, is_newest};

use crate::snapshot::Snapshot;
use pct_model::{PTHREAD_CANCELED, Reason, What};

fn has_begun(reason: Reason) -> bool
    ensures { result ≡ has_begun_to_end reason }
{
    match reason {
        Reason::None => false,
        Reason::Exit(_) => true,
        Reason::Canceled => true,
    }
}

fn value_of_end(reason: Reason) -> u32
    ensures { result ≡ value_of_end reason }
{
    match reason {
        Reason::None => 0,
        Reason::Exit(value) => value,
        Reason::Canceled => PTHREAD_CANCELED,
    }
}

fn is_same(f: u32, a: u32, newest: Option<(u32, u32)>) -> bool
    ensures { result ≡ is_newest f a newest }
{
    match newest {
        Some((function, argument)) => function == f && argument == a,
        None => false,
    }
}

/// Whether the law of cleanup handlers allows an event of a thread.
#[tactic(auto, unfolding(crate::specs::CleanupTests::allows))]
pub fn may_come(passes: u32, what: What, thread: &Snapshot, destroyed: bool) -> bool
    ensures { result ≡ allows passes what thread.now destroyed }
{
    match what {
        What::Popped { f, a, .. } => is_same(f, a, thread.newest)
            && (!has_begun(thread.reason) || thread.left < thread.pushed),
        What::HandlerRun(f, a) => is_same(f, a, thread.newest)
            && has_begun(thread.reason)
            && thread.pushed == thread.left,
        What::EndingExit(_) => !has_begun(thread.reason),
        What::EndingCanceled => !has_begun(thread.reason),
        What::EndingInWait(_, _) => !has_begun(thread.reason),
        What::EndedWith(value) => has_begun(thread.reason)
            && thread.ended.is_none()
            && thread.pushed == 0
            && value == value_of_end(thread.reason),
        What::PassBegun(number) => has_begun(thread.reason)
            && thread.pushed == 0
            && (number > 0 && number - 1 == thread.passes)
            && number <= passes,
        What::DtorRun { pass, .. } => pass == thread.passes
            && 0 < pass
            && thread.pushed == 0
            && !destroyed,
        What::Leftover(count) => 0 < count && thread.passes == passes,
        _ => true,
    }
}
