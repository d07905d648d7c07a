//! The runs of a script under many seeds.

ghost use Rattle.std.specs.Prelude.{◌≤◌, IfOk};
ghost use Rattle.pct_tallies.specs.declared.seeds.TheConstants.{MAX_TALLIED};
ghost use Rattle.pct_tallies.specs.Seeds.{IsRange, seed_count};
ghost use Rattle.pct_sample.specs.FirstSeeds.{AreFirstSeeds};
ghost use Rattle.pct_sample.specs.Parts.{AreParts, IsPart};
ghost use Rattle.pct_sample.specs.Samples.{TallyOf};
ghost use Rattle.pct_sample.specs.declared.sampling.TheConstants.{MOST_IN_PART};

use crate::seed_run::{open_default, run_seed};
use pct_io::NoMemory;
use pct_model::Script;
use pct_tallies::{Seeds, Tally, sum_of, tally_of};
use rayon::current_num_threads;
use rayon::prelude::*;
use std::alloc::Global;
use std::thread::Threads;

// The most seeds of a part of a range, whose rows are kept until they are counted.
pub(crate) const MOST_IN_PART: u64 = 1_000;

// The parts for each processor, if a range has so many seeds. The runs of a part may take longer than those of another.
const PARTS_EACH: usize = 8;

// The most processors for which there are threads.
const MOST_PROCESSORS: usize = 32;

/// The tally of the runs of a script under the seeds of a range. It has at most 1,000,000 seeds. The run of a seed is the one that `run --seed S`
/// makes of the script without other options, so the first seed of a verdict shows a run with this verdict. The runs are spread over threads, if
/// threads can be made, each run on one of them; the answer does not depend on how many there are. The memory that the call takes is bounded: each
/// thread keeps what is counted of at most 1,000 runs, and there are at most 1,000 tallies of parts of the range.
///
/// `NoMemory` is returned if memory runs out.
pub fn sample<R: Threads + Sync>(
    rt: &R,
    alloc: Global,
    script: &Script,
    seeds: Seeds,
) -> Result<Tally, NoMemory>
    requires range { IsRange seeds }
    requires few { seed_count seeds ≤ MAX_TALLIED }
    ensures tally { IfOk result (TallyOf script.now seeds) }
    ensures first { IfOk result (AreFirstSeeds script.now seeds) }
{
    let size = part_size(rt, seeds);
    let parts = part_tallies(rt, alloc, script, seeds, size)?;
    let mut tally = tally_of(alloc, &[])?;
    for part in parts.as_slice() {
        tally = sum_of(alloc, &tally, part)?;
    }
    Ok(tally)
}

// How many seeds each part of a range has, but the last, which may have fewer.
fn part_size<R: Threads>(rt: &R, seeds: Seeds) -> u64
    requires { IsRange seeds }
    ensures some { 1 ≤ result }
    ensures few { result ≤ MOST_IN_PART }
{
    let parts = PARTS_EACH * current_num_threads(rt).min(MOST_PROCESSORS);
    (seeds.count() / parts as u64).clamp(1, MOST_IN_PART)
}

// The tallies of the parts of a range.
fn part_tallies<R: Threads + Sync>(
    rt: &R,
    alloc: Global,
    script: &Script,
    seeds: Seeds,
    size: u64,
) -> Result<Vec<Tally>, NoMemory>
    requires range { IsRange seeds }
    requires few { seed_count seeds ≤ MAX_TALLIED }
    requires some { 1 ≤ size }
    requires size { size ≤ MOST_IN_PART }
    ensures { IfOk result (λ parts. AreParts script.now seeds size parts.items) }
{
    let last = (seeds.count() - 1) / size;
    (0..last as u32 + 1)
        .into_par_iter()
        .with_min_len(1)
        .map(
            |part: u32| -> Result<Tally, NoMemory>
                requires { IsRange seeds × (size ≤ MOST_IN_PART) }
                ensures { IfOk result (IsPart script.entry.now seeds size part) }
            { sample_part(alloc, script, seeds, size, part) },
        )
        .collect::<Result<Vec<Tally>, NoMemory>>(rt, alloc)?
}

// The tally of a part of a range, whose runs are made one after the other, with one engine.
fn sample_part(
    alloc: Global,
    script: &Script,
    seeds: Seeds,
    size: u64,
    part: u32,
) -> Result<Tally, NoMemory>
    requires range { IsRange seeds }
    requires size { size ≤ MOST_IN_PART }
    ensures { IfOk result (IsPart script.now seeds size part) }
{
    let mut engine = open_default(alloc, script)?;
    let mut runs = Vec::new(alloc);
    let before = (u64::from(part) * size).min(seeds.count());
    let count = (seeds.count() - before).min(size);
    for more in 0..count {
        runs.push(run_seed(&mut engine, seeds.first + before + more))?;
    }
    tally_of(alloc, runs.as_slice())
}
