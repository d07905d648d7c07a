//! What a thread sees of the other threads of its process, as the tables ask for it. Nothing is looked for before it is asked.

ghost use Rattle.std.specs.Prelude.{◌≡◌, ◌<◌, true, All, length, map, option_map};
ghost use Rattle.pct_model.specs.Environment.{Environment, exit_value_with, waits_with_another_mutex};
ghost use Rattle.pct_threads.specs.Tables.{is_occupied_at, next_id_at};
ghost use Rattle.pct_step_context.specs.Contexts.{IsEnvironment, IsWhole};
ghost use Rattle.pct_step_context.specs.OtherThreads.{ended_value, ids_on};

use crate::context::Context;
use pct_process::Standing;
use pct_set::SlotSet;

impl<'a> Context<'a> {
    /// Whether the thread with the id is detached. `None` if no thread has the id, or the lifetime of the id is over.
    #[inline(always)]
    pub fn detached(&self, id: u32) -> Option<bool>
        requires { IsWhole self.now }
        ensures { (environment : Environment) → IsEnvironment self.now environment → result ≡ option_map (λ t. t.detached) (environment.named id) }
    {
        let slot = self.threads.slot_named(id)?;
        Some(self.threads.place(slot).detached)
    }

    /// The exit value of the thread with the id, once it has ended.
    #[inline(always)]
    pub fn exit_value_with(&self, id: u32) -> Option<u32>
        requires { IsWhole self.now }
        ensures { (environment : Environment) → IsEnvironment self.now environment → result ≡ exit_value_with id environment }
    {
        // A table has at most 64 slots.
        let _count = self.threads.slot_count();
        let slot = self.threads.slot_named(id)?;
        ended_value(self.standings.standing(slot))
    }

    /// Whether a thread is suspended in pthread_join for this id.
    #[inline(always)]
    pub fn another_joins(&self, id: u32) -> bool
        requires { IsWhole self.now }
        ensures { (environment : Environment) → IsEnvironment self.now environment → result ≡ environment.another_joins id }
    {
        // A table has at most 64 slots.
        let _count = self.threads.slot_count();
        self.standings.is_joined(id)
    }

    /// The slots on which a new thread can be created.
    #[inline(always)]
    pub fn free_slots(&self) -> SlotSet
        requires { IsWhole self.now }
        ensures ids { (environment : Environment) → IsEnvironment self.now environment → map (next_id_at self.now.threads.now) result ≡ environment.new_ids }
        ensures within { All (λ s. s < length self.now.threads.now) result }
    {
        self.threads.free()
    }

    /// The slots of the threads that wait on the condition variable with this index.
    #[inline(always)]
    pub fn waiters(&self, cond: u32) -> SlotSet
        requires { IsWhole self.now }
        ensures ids { (environment : Environment) → IsEnvironment self.now environment → ids_on self.now.threads.now result ≡ map (λ waiter. waiter.id) (environment.waiters cond) }
        ensures held { All (λ s. is_occupied_at self.now.threads.now s ≡ true) result }
    {
        // A table has at most 64 slots.
        let _count = self.threads.slot_count();
        self.standings.waiters(cond)
    }

    /// Whether a thread waits on the condition variable with an index, with another mutex than the one with an index.
    #[inline(always)]
    pub fn waits_with_another_mutex(&self, cond: u32, mutex: u32) -> bool
        requires { IsWhole self.now }
        ensures { (environment : Environment) → IsEnvironment self.now environment → result ≡ waits_with_another_mutex cond mutex environment }
    {
        // A table has at most 64 slots.
        let _count = self.threads.slot_count();
        self.standings.waits_with_another_mutex(cond, mutex)
    }

    /// Whether each other thread has ended.
    #[inline(always)]
    pub fn is_last(&self) -> bool
        requires { IsWhole self.now }
        ensures { (environment : Environment) → IsEnvironment self.now environment → result ≡ environment.is_last }
    {
        self.standings.is_last(self.threads, self.position.id)
    }
}

/// The exit value of a thread that stands so, once it has ended.
pub fn ended_value(standing: Standing) -> Option<u32>
    ensures { result ≡ ended_value standing }
{
    match standing {
        Standing::Ended(value) => Some(value),
        _ => None,
    }
}
