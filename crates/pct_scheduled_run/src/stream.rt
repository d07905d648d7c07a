//! The words of random generators as schedulers.

ghost use Rattle.std.specs.Prelude.{◌≡◌, ℕ, suc};
ghost use Rattle.pct_scheduled_run.specs.Streams.{after_words, draws, stream_of};

use crate::scheduler::Scheduler;
use rand_core::utils::NextWord;
use rand_pcg::Lcg64Xsh32;

/// The generator of a worker's words under a seed.
#[tactic(auto, unfolding(crate::specs::Streams::stream_of))]
pub fn stream_of(seed: u64, worker: u32) -> Lcg64Xsh32
    ensures { result ≡ stream_of seed worker }
{
    Lcg64Xsh32::new(seed, u64::from(worker))
}

impl Scheduler for Lcg64Xsh32 {
    ghost draws = { draws };

    #[tactic(auto, using(crate::proofs::Words::draws_rest), unfolding(crate::specs::Streams::word_at, crate::specs::Streams::after_words))]
    fn draw(&mut self) -> (u32, u32)
        ensures drawn { result ≡ draws self.old 0 }
        ensures rest { (turn : ℕ) → draws self.new turn ≡ draws self.old (suc turn) }
        ensures words { self.new ≡ after_words 2 self.old }
    {
        let a = self.next_word();
        let b = self.next_word();
        (a, b)
    }
}
