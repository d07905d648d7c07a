//! Workers.

use crate::pass::Pass;
use rand_pcg::Lcg64Xsh32;

/// A worker: its pass, and the stream of words by which it chooses.
#[derive(Drop)]
pub struct Worker {
    pub pass: Pass,
    pub picks: Lcg64Xsh32,
}
