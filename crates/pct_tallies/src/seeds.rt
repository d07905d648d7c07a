//! Ranges of seeds.

ghost use Rattle.std.specs.Prelude.{◌≡◌};
ghost use Rattle.pct_tallies.specs.Seeds.{IsRange, first_seeds, is_in, is_range, seed_count};

/// The most seeds that one tally is made for.
pub const MAX_TALLIED: u64 = 1_000_000;

/// The seeds from the first to the last. The seed 0 is in no range.
#[derive(Clone, Copy, Debug, PartialEq, Eq)]
pub struct Seeds {
    pub first: u64,
    pub last: u64,
}

impl Seeds {
    /// The seeds 1 to `last`.
    pub fn up_to(last: u64) -> Seeds
        ensures { result ≡ first_seeds last }
    {
        Seeds { first: 1, last }
    }

    /// Whether there is a seed in the range, and 0 is not in it.
    pub fn is_range(self) -> bool
        ensures { result ≡ is_range self }
    {
        1 <= self.first && self.first <= self.last
    }

    /// How many seeds are in the range.
    pub fn count(self) -> u64
        requires { IsRange self }
        ensures { result ≡ seed_count self }
    {
        self.last - self.first + 1
    }

    /// Whether a seed is in the range.
    pub fn contains(self, seed: u64) -> bool
        ensures { result ≡ is_in self seed }
    {
        self.first <= seed && seed <= self.last
    }
}
