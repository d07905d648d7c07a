//! The tally of a range of seeds: `tally`, and the sum of tallies, `sum`.

ghost use Rattle.std.specs.Prelude.{◌≡◌, ◌<◌, ◌≤◌, ℕ, List, length, IfOk, IsErr};
ghost use Rattle.hex.specs.Hex.{encode_lower};
ghost use Rattle.sha2.specs.Sha256.{sha256};
ghost use Rattle.pct_model.specs.declared.limits.TheConstants.{MAX_INPUT};
ghost use Rattle.pct_model.specs.Canon.{canon};
ghost use Rattle.pct_model.specs.Spells.{Spells};
ghost use Rattle.pct_tallies.specs.Faults.{GivesTotal};
ghost use Rattle.pct_inspection.specs.TallyOutcomes.{Exhausted};
ghost use Rattle.pct_inspection.specs.declared.words.Inspection.TheVariants as inspection;
ghost use Rattle.pct_inspection.specs.Answer.{Answered, AsksFor};
ghost use Rattle.pct_inspection.specs.TallyOutcomes.{IsTallied, IsTotalIn};

use crate::answer::Answer;
use crate::resources::Resources;
use hex::encode_to_slice;
use pct_io::{Failed, NoMemory};
use pct_model::{Config, Script};
use pct_printer::print;
use pct_sample::sample;
use pct_tallies::{Limits, RangeTally, Seeds, Subject, TallyFault, read_tallies, total_of};
use pct_view_texts::TextBuffer;
use sha2::{Digest, Sha256};
use std::alloc::Global;
use std::thread::Threads;

// The numbers that the runs of a tally are limited by, which are those of `run` without options.
const LIMITS: Limits = Limits {
    budget: Config::DEFAULT.budget,
    passes: Config::DEFAULT.passes,
    slots: Config::DEFAULT.slots,
};

/// The answer of `tally` to a script.
pub(crate) fn tally_script<R: Threads + Sync>(
    resources: &Resources<'_, R>,
    seeds: Seeds,
    script: &Script,
) -> Result<Answer, NoMemory>
    requires tallied { IsTallied seeds }
    ensures { (words : List (List ℕ)) (input : List ℕ) → AsksFor words (inspection.Tally seeds) → length input ≤ MAX_INPUT → Spells input script.now → Answered words input result }
{
    let subject = Subject {
        digest: digest_of(resources.alloc, script)?,
        limits: LIMITS,
    };
    let tally = sample(resources.rt, resources.alloc, script, seeds)?;
    Ok(Answer::Tallied(RangeTally {
        seeds,
        subject,
        tally,
    }))
}

// The digits of the SHA-256 of the canonical text of a script.
fn digest_of(alloc: Global, script: &Script) -> Result<[u8; 64], NoMemory>
    ensures { IfOk result (λ digits. digits ≡ encode_lower (sha256 (canon script.now))) }
{
    let text = canonical_text(alloc, script)?;
    let digest = Sha256::digest(text.as_slice());
    let mut digits = [0; 64];
    encode_to_slice(digest.as_slice(), &mut digits).unwrap();
    Ok(digits)
}

// The canonical text of a script.
fn canonical_text(alloc: Global, script: &Script) -> Result<Vec<u8>, NoMemory>
    ensures { IfOk result (λ text. text.items ≡ canon script.now) }
{
    let mut text = TextBuffer::new(alloc);
    match print(script, &mut text) {
        Ok(()) => Ok(text.into_bytes()),
        Err(Failed) => Err(NoMemory),
    }
}

/// The answer of `sum` to an input of tallies.
pub(crate) fn sum_tallies(alloc: Global, input: &[u8]) -> Result<Answer, NoMemory>
    requires { length input.now ≤ MAX_INPUT }
    ensures answer { (words : List (List ℕ)) → AsksFor words inspection.Sum → Answered words input.now result }
    ensures memory { IsErr result → 0 < length input.now }
{
    match total_in(alloc, input) {
        Ok(range) => Ok(Answer::Tallied(range)),
        Err(TallyFault::Refused { line, why }) => Ok(Answer::TallyRefused { line, why }),
        Err(TallyFault::NoMemory) => Err(NoMemory),
    }
}

// The sum of the tallies in a text.
fn total_in(alloc: Global, text: &[u8]) -> Result<RangeTally, TallyFault>
    requires { length text.now ≤ MAX_INPUT }
    ensures total { GivesTotal (IsTotalIn text.now) result }
    ensures memory { result ≡ Exhausted → 0 < length text.now }
{
    let tallies = read_tallies(alloc, text)?;
    total_of(alloc, tallies)
}
