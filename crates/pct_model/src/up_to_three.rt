//! Short lists without an allocation.

ghost use Rattle.std.specs.Prelude.{◌≡◌, ◌≤◌, [], ◌∷◌, length, slice_get};

use std::marker::Model;

// The items, in order.
#[derive(Drop)]
enum Items<T> {
    Zero,
    One([T; 1]),
    Two([T; 2]),
    Three([T; 3]),
}

/// A list of at most three items. In a contract it is the list.
#[derive(Drop)]
pub struct UpToThree<T> {
    items: Items<T>,
}

impl<T> Model for UpToThree<T> {
    ghost use Rattle.std.specs.Prelude.{List};
    ghost use Rattle.pct_model.specs.ThreeItems.{items_of};

    ghost Value = { List T };

    ghost view = { λ list. items_of list.items };
}

impl<T: Copy + Drop> UpToThree<T> {
    /// The empty list.
    pub fn none() -> UpToThree<T>
        ensures { result ≡ [] }
    {
        UpToThree { items: Items::Zero }
    }

    /// A list of one item.
    pub fn one(a: T) -> UpToThree<T>
        ensures { result ≡ a ∷ [] }
    {
        UpToThree {
            items: Items::One([a]),
        }
    }

    /// A list of two items.
    pub fn two(a: T, b: T) -> UpToThree<T>
        ensures { result ≡ a ∷ b ∷ [] }
    {
        UpToThree {
            items: Items::Two([a, b]),
        }
    }

    /// A list of three items.
    pub fn three(a: T, b: T, c: T) -> UpToThree<T>
        ensures { result ≡ a ∷ b ∷ c ∷ [] }
    {
        UpToThree {
            items: Items::Three([a, b, c]),
        }
    }

    /// The items, in order.
    #[inline(always)]
    pub fn as_slice(&self) -> &[T]
        ensures value { result.now ≡ self.now }
        ensures few { length result.now ≤ 3 }
    {
        match &self.items {
            Items::Zero => &[],
            Items::One(items) => items,
            Items::Two(items) => items,
            Items::Three(items) => items,
        }
    }

    /// The item at an index. `None` exactly if there are not more items than that.
    #[inline(always)]
    pub fn get(&self, index: usize) -> Option<T>
        ensures value { result ≡ slice_get self.now index }
        ensures few { length self.now ≤ 3 }
    {
        self.as_slice().get(index).copied()
    }
}
