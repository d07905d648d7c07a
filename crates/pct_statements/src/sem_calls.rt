//! The counts of semaphores, and the transitions of sem_wait, sem_timedwait and sem_post. `next` is the program counter of the next
//! statement.

ghost use Rattle.std.specs.Prelude.{◌≡◌, ◌-◌, [], ◌∷◌, Some, slice_index};
ghost use Rattle.pct_model.specs.declared.event.What.TheVariants as what;
ghost use Rattle.pct_model.specs.declared.transition.SharedAction.TheVariants as shared_action;
ghost use Rattle.pct_model.specs.NextStatement.{StatementIn};
ghost use Rattle.pct_model.specs.SemCalls.{begins_sem_wait, ends_sem_wait, posts};
ghost use Rattle.pct_model.specs.Transitions.{goes_on};
ghost use Rattle.pct_step_context.specs.Contexts.{IsWhole};
ghost use Rattle.pct_step_context.specs.Positions.{next_at, IsAt};

use pct_ending_calls::transitions::{acts, fails, goes_on, no_change};
use pct_model::{
    Alt, Caller, ETIMEDOUT, OwnAction, SharedAction, Status, Stmt, Transition, UpToThree, What,
};
use pct_step_context::{At, Context, next_pc};

/// The count of the semaphore with this index, by the counts of all semaphores.
pub fn count_of(counts: &[u32], sem: u32) -> u32
    ensures { result ≡ slice_index counts.now sem }
{
    counts.get(sem as usize).copied().unwrap_or(0)
}

/// A call of the cancellation point with this index: the thread is suspended until the count of the semaphore with this index is above 0.
#[tactic(auto, unfolding(pct_model::specs::SemCalls::begins_sem_wait))]
pub fn begins_sem_wait(point: u32, sem: u32) -> Transition
    ensures { result ≡ begins_sem_wait point sem }
{
    Transition {
        own: Some(OwnAction::SetStatus(Status::InSem(sem))),
        ..acts(UpToThree::one(What::Called(point)))
    }
}

/// A thread that is suspended in sem_wait or sem_timedwait for the semaphore with this index decrements the count, and returns; or, by the
/// choice `expire`, it returns ETIMEDOUT.
#[tactic(auto, unfolding(pct_model::specs::SemCalls::ends_sem_wait))]
#[inline(always)]
pub fn ends_sem_wait(context: &Context, choice: Alt, sem: u32, transition: &mut Transition)
    requires { IsWhole context.now }
    ensures { transition.new ≡ ends_sem_wait choice sem (slice_index context.now.process.now.shared.counts sem) (next_at context.now.position.next) }
{
    match &context.position.next {
        None => *transition = no_change(),
        Some(at) => *transition = ends_sem_wait_in(context, at, choice, sem),
    }
}

// The same, at a statement of its top frame.
#[tactic(auto, using(pct_step_context::proofs::Bodies::pc_within), unfolding(pct_model::specs::SemCalls::ends_sem_wait))]
fn ends_sem_wait_in(context: &Context, at: &At, choice: Alt, sem: u32) -> Transition
    requires { IsAt context.now.program.now.script at.now }
    ensures { result ≡ ends_sem_wait choice sem (slice_index context.now.process.now.shared.counts sem) (StatementIn at.now.frame at.now.statement.now) }
{
    match at.statement {
        Stmt::SemWait(_) => takes(next_pc(&at.frame), sem, count_of(context.counts(), sem)),
        Stmt::SemTimedWait { result: answer, .. } => match choice {
            Alt::Expire => fails(next_pc(&at.frame), *answer, Caller::SemTimedWait, ETIMEDOUT),
            _ => Transition {
                writes: UpToThree::one((*answer, 0)),
                ..takes(next_pc(&at.frame), sem, count_of(context.counts(), sem))
            },
        },
        _ => no_change(),
    }
}

// The count of the semaphore with this index is decremented, unless it is 0.
fn takes(next: u32, sem: u32, count: u32) -> Transition
    ensures { result ≡ record (goes_on next (what.Taken sem ∷ [])) { shared = Some (shared_action.SetCount sem (count - 1)) } }
{
    Transition {
        shared: Some(SharedAction::SetCount(sem, count.saturating_sub(1))),
        ..goes_on(next, UpToThree::one(What::Taken(sem)))
    }
}

/// sem_post: the count of the semaphore with this index is incremented, modulo 2^32.
#[tactic(auto, unfolding(pct_model::specs::SemCalls::posts))]
pub fn posts(next: u32, sem: u32, count: u32) -> Transition
    ensures { result ≡ posts next sem count }
{
    Transition {
        shared: Some(SharedAction::SetCount(sem, count.wrapping_add(1))),
        ..goes_on(next, UpToThree::one(What::Posted(sem)))
    }
}
