//! The slots of a process, by when the thread on each has a choice.

ghost use Rattle.std.specs.Prelude.{◌≡◌, ◌<◌, ◌≤◌, true, [], ◌∷◌, IfOk, length, nat_eq, replicate, slice_set, slice_index_or};
ghost use Rattle.pct_set.specs.Slots.{slots_where, with_slot, without_slot};
ghost use Rattle.pct_ready_sets.specs.ReadyGroups.{group_of, indexed};
ghost use Rattle.pct_ready_sets.specs.declared.ready_sets.TheConstants.{GROUPS};
ghost use Rattle.pct_transitions.specs.declared.readiness.ReadyWhen.TheVariants as ready;

use pct_io::NoMemory;
use pct_set::SlotSet;
use pct_transitions::ReadyWhen;
use std::alloc::Global;
use std::marker::Model;

/// The number of groups of slots.
pub const GROUPS: usize = 99;

/// For each of 64 slots the condition under which its thread has a choice, as it was when the slot was last looked at; and the slots that
/// are stale: the condition may be another one now. In a contract it is both lists.
#[derive(Drop)]
pub struct ReadySets {
    conditions: Vec<ReadyWhen>,
    // For each group, the slots whose conditions are in it.
    groups: Vec<SlotSet>,
    stale: SlotSet,
}

impl Model for ReadySets {
    ghost use Rattle.pct_ready_sets.specs.ReadyGroups.{ReadyValue, AreGroups};

    ghost Value = { ReadyValue };

    ghost view = { λ r. record { conditions = r.conditions.items; stale = r.stale } };

    ghost invariant = { λ r. AreGroups r.conditions.items r.groups.items };
}

impl ReadySets {
    ghost use Rattle.std.specs.Prelude.{◌≡◌, ◌<◌, IfOk, length, slice_set};
    ghost use Rattle.pct_set.specs.Slots.{slots_where, without_slot};
    ghost use Rattle.pct_ready_sets.specs.ReadyGroups.{condition_on, is_in_group, is_conditional, is_alike, with_stale, all_stale, unknown};

    /// The sets of a process of which nothing is known: each slot is stale. `NoMemory` is returned if they do not fit into memory.
    pub fn new(alloc: Global) -> Result<ReadySets, NoMemory>
        ensures { IfOk result (λ sets. sets ≡ unknown) }
    {
        Ok(ReadySets {
            conditions: no_conditions(alloc)?,
            groups: first_groups(alloc)?,
            stale: SlotSet::all(),
        })
    }

    /// The condition under which the thread on a slot, which must be below 64, has a choice, unless the slot is stale.
    pub fn condition(&self, slot: u32) -> ReadyWhen
        requires { slot < 64 }
        ensures { result ≡ condition_on self.now.conditions slot }
    {
        self.conditions[slot as usize]
    }

    /// The slots that are stale.
    pub fn stale(&self) -> SlotSet
        ensures value { result ≡ self.now.stale }
        // This holds of all sets.
        ensures all { length self.now.conditions ≡ 64 }
    {
        self.stale
    }

    /// The slots whose threads have a choice whatever the others do.
    pub fn ready_now(&self) -> SlotSet
        ensures { result ≡ slots_where (λ k. is_in_group 1 (condition_on self.now.conditions k)) }
    {
        self.groups[1]
    }

    /// The slots whose threads have a choice or not by what the others do.
    pub fn conditional(&self) -> SlotSet
        ensures { result ≡ slots_where (λ k. is_conditional (condition_on self.now.conditions k)) }
    {
        SlotSet::all().minus(&self.groups[0]).minus(&self.groups[1])
    }

    /// The slots with the same condition as this slot, which must be below 64: the slot itself, and those that are known to have it.
    pub fn alike(&self, slot: u32) -> SlotSet
        requires { slot < 64 }
        ensures { result ≡ slots_where (λ k. is_alike self.now.conditions slot k) }
    {
        let group = group_of(self.condition(slot));
        if group == 2 {
            only(slot)
        } else {
            self.groups[group]
        }
    }

    /// Writes the condition under which the thread on a slot, which must be below 64, has a choice. The slot is not stale afterwards.
    pub fn put(&mut self, slot: u32, condition: ReadyWhen)
        requires { slot < 64 }
        ensures { self.new ≡ record { conditions = slice_set self.old.conditions slot condition; stale = without_slot slot self.old.stale } }
    {
        // Most often a thread has a choice now, and had one.
        if are_now(self.condition(slot), condition) {
            self.stale.remove(slot);
        } else {
            self.replace(slot, condition);
        }
    }

    // The same, whatever the condition was.
    fn replace(&mut self, slot: u32, condition: ReadyWhen)
        requires { slot < 64 }
        ensures { self.new ≡ record { conditions = slice_set self.old.conditions slot condition; stale = without_slot slot self.old.stale } }
    {
        let (from, to) = (group_of(self.condition(slot)), group_of(condition));
        if from != to {
            take_out(&mut self.groups, from, slot);
            put_in(&mut self.groups, to, slot);
        }
        self.conditions[slot as usize] = condition;
        self.stale.remove(slot);
    }

    /// These slots become stale.
    #[inline]
    pub fn mark(&mut self, slots: &SlotSet)
        ensures { self.new ≡ with_stale slots.now self.old }
    {
        self.stale = self.stale.union(slots);
    }

    /// Each slot becomes stale.
    #[inline]
    pub fn mark_all(&mut self)
        ensures { self.new ≡ all_stale self.old }
    {
        self.stale = SlotSet::all();
    }
}

// The condition of each slot, before any is known.
fn no_conditions(alloc: Global) -> Result<Vec<ReadyWhen>, NoMemory>
    ensures { IfOk result (λ v. v.items ≡ replicate 64 ready.Never) }
{
    Ok(vec![in alloc; ReadyWhen::Never; 64]?)
}

// All slots are in the first group.
fn first_groups(alloc: Global) -> Result<Vec<SlotSet>, NoMemory>
    ensures { IfOk result (λ v. v.items ≡ slots_where (λ _. true) ∷ replicate 98 []) }
{
    let mut groups = vec![in alloc; SlotSet::new(); GROUPS]?;
    groups[0] = SlotSet::all();
    Ok(groups)
}

// Whether both conditions hold in each state.
fn are_now(first: ReadyWhen, second: ReadyWhen) -> bool
    ensures { result ≡ true → (first ≡ ready.Now) × (second ≡ ready.Now) }
{
    match (first, second) {
        (ReadyWhen::Now, ReadyWhen::Now) => true,
        _ => false,
    }
}

// The group of a condition.
fn group_of(condition: ReadyWhen) -> usize
    ensures value { result ≡ group_of condition }
    ensures few { result < GROUPS }
{
    match condition {
        ReadyWhen::Never => 0,
        ReadyWhen::Now => 1,
        ReadyWhen::MutexFree(mutex) => indexed(3, mutex),
        ReadyWhen::CountAboveZero(sem) => indexed(35, sem),
        ReadyWhen::OnceNotBusy(once) => indexed(67, once),
        ReadyWhen::ThreadEnded(_) | ReadyWhen::ChildEnded(_) => 2,
    }
}

// The group with an index below 32 after the first one of its kind.
fn indexed(first: usize, index: u32) -> usize
    requires { first ≤ 67 }
    ensures value { result ≡ indexed first index }
    ensures few { result < GROUPS }
{
    if index < 32 {
        first + index as usize
    } else {
        2
    }
}

/// The set of one slot.
pub(crate) fn only(slot: u32) -> SlotSet
    requires { slot < 64 }
    ensures { result ≡ slots_where (nat_eq slot) }
{
    let mut set = SlotSet::new();
    set.insert(slot);
    set
}

// Removes a slot from a group.
fn take_out(groups: &mut Vec<SlotSet>, group: usize, slot: u32)
    requires group { group < length groups.old.items }
    requires slot { slot < 64 }
    ensures { groups.new.items ≡ slice_set groups.old.items group (without_slot slot (slice_index_or groups.old.items group [])) }
{
    groups[group].remove(slot);
}

// Adds a slot to a group.
fn put_in(groups: &mut Vec<SlotSet>, group: usize, slot: u32)
    requires group { group < length groups.old.items }
    requires slot { slot < 64 }
    ensures { groups.new.items ≡ slice_set groups.old.items group (with_slot slot (slice_index_or groups.old.items group [])) }
{
    groups[group].insert(slot);
}
