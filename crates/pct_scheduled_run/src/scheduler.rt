//! Schedulers.

ghost use Rattle.std.specs.Prelude.{◌≡◌, ℕ, suc};

/// A source of the numbers by which a worker chooses its entries, two at each turn.
pub trait Scheduler {
    /// The two numbers of each turn from now on.
    ghost draws: { Self → ℕ → ℕ × ℕ };

    /// The two numbers of the next turn.
    fn draw(&mut self) -> (u32, u32)
        ensures drawn { result ≡ draws self.old 0 }
        ensures rest { (turn : ℕ) → draws self.new turn ≡ draws self.old (suc turn) };
}
