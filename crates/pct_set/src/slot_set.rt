//! A set of slots in one word: slot `s` is in the set if bit `s` is set. A contract sees the list of the slots in rising
//! order.

ghost use Rattle.std.specs.Prelude.{◌≡◌, ◌<◌, ◌≤◌, true, [], length, All, IfSome, slice_get};
ghost use Rattle.std.specs.List.Sorted.{IsStrictlyIncreasing};
ghost use Rattle.pct_set.specs.Slots.{slots_where, has_slot, with_slot, without_slot, union_of, difference_of};

use std::marker::Model;

/// A set of slots. A slot is a number below 64.
#[derive(Clone, Copy, Debug)]
pub struct SlotSet {
    bits: u64,
}

impl Model for SlotSet {
    ghost use Rattle.std.specs.Prelude.{ℕ, List, ◌<◌, ◌^◌};
    ghost use Rattle.pct_set.specs.Layout.{slots_of, bits_of};
    ghost use Rattle.pct_set.specs.Inverse.{bits_of-slots_of};

    ghost Value = { List ℕ };

    ghost view = { λ set. slots_of set.bits };

    ghost invariant = { λ set. set.bits < 2 ^ 64 };

    ghost inverse = { λ slots. record { bits = bits_of slots } };

    ghost inverse_ok = { λ set small i. record { bits = bits_of-slots_of set.bits small i } };
}

impl SlotSet {
    /// The empty set.
    #[tactic(auto, using(crate::proofs::BitLemmas::empty))]
    pub fn new() -> SlotSet
        ensures { result ≡ [] }
    {
        SlotSet { bits: 0 }
    }

    /// The set of all slots.
    #[tactic(auto, using(crate::proofs::BitLemmas::full))]
    pub fn all() -> SlotSet
        ensures { result ≡ slots_where (λ _. true) }
    {
        SlotSet { bits: u64::MAX }
    }

    /// Adds a slot, which must be below 64. A slot that is in the set stays in it.
    #[tactic(auto, using(crate::proofs::BitLemmas::or_small, crate::proofs::BitLemmas::inserted))]
    pub fn insert(&mut self, slot: u32)
        requires { slot < 64 }
        ensures { self.new ≡ with_slot slot self.old }
    {
        self.bits |= 1 << slot;
    }

    /// Removes a slot, which must be below 64. The set is unchanged if the slot is not in it.
    #[tactic(auto, using(crate::proofs::BitLemmas::removed))]
    pub fn remove(&mut self, slot: u32)
        requires { slot < 64 }
        ensures { self.new ≡ without_slot slot self.old }
    {
        self.bits &= !(1 << slot);
    }

    /// Whether a slot, which must be below 64, is in the set.
    #[tactic(auto, using(crate::proofs::BitLemmas::tested))]
    pub fn contains(&self, slot: u32) -> bool
        requires { slot < 64 }
        ensures { result ≡ has_slot self.now slot }
    {
        (self.bits >> slot) & 1 == 1
    }

    /// The number of slots in the set, at most 64.
    pub fn len(&self) -> u32
        ensures value { result ≡ length self.now }
        ensures fits { result ≤ 64 }
        // These hold of every set: its slots rise, each is below 64, and `has_slot` determines the list.
        ensures rising { IsStrictlyIncreasing self.now }
        ensures below { All (λ slot. slot < 64) self.now }
        ensures determined { self.now ≡ slots_where (has_slot self.now) }
    {
        self.bits.count_ones()
    }

    /// The slot at index `n` of the set in rising order. `None` exactly if the set has at most `n` slots.
    pub fn nth(&self, n: u32) -> Option<u32>
        ensures value { result ≡ slice_get self.now n }
        ensures below { IfSome result (λ slot. slot < 64) }
    {
        if n >= self.bits.count_ones() {
            return None;
        }
        let mut rest = self.bits;
        for _ in 0..n {
            rest &= !(1 << rest.trailing_zeros());
        }
        Some(rest.trailing_zeros())
    }

    /// The slots that are in this set, in the other, or in both.
    #[tactic(auto, using(crate::proofs::BitLemmas::or_small, crate::proofs::BitLemmas::joined))]
    pub fn union(&self, other: &SlotSet) -> SlotSet
        ensures { result ≡ union_of self.now other.now }
    {
        SlotSet {
            bits: self.bits | other.bits,
        }
    }

    /// The slots that are in this set and not in the other.
    #[tactic(auto, using(crate::proofs::BitLemmas::subtracted))]
    pub fn minus(&self, other: &SlotSet) -> SlotSet
        ensures { result ≡ difference_of self.now other.now }
    {
        SlotSet {
            bits: self.bits & !other.bits,
        }
    }
}
