//! The runs of a script under the seeds from 1 on, spread over threads.

ghost use Rattle.std.specs.Prelude.{◌≡◌, ◌+◌, ◌≤◌, length, IfOk, IsTrue};
ghost use Rattle.std.specs.List.{AllZip, flat_map, range_with_len};
ghost use Rattle.pct_model.specs.Run.{is_config};
ghost use Rattle.pct_survey.specs.declared.surveying.TheConstants.{CHUNK};
ghost use Rattle.pct_survey.specs.JudgedRuns.{IsJudgedRun};
ghost use Rattle.pct_survey.specs.Surveys.{IsSurveyOf};

use crate::counting::Survey;
use crate::judging::{JudgedRun, Subject, judged_part};
use pct_io::NoMemory;
use rayon::current_num_threads;
use rayon::prelude::*;
use std::alloc::Global;
use std::thread::Threads;

/// The most seeds of a survey.
pub const MAX_SURVEYED: u32 = 100_000;

// The runs that are kept at a time.
pub(crate) const CHUNK: u32 = 10_000;

// The parts of these for each processor.
const PARTS: usize = 8;

// The most processors for which there are parts.
const MOST_PROCESSORS: usize = 32;

/// What is counted of the runs of a script under the seeds 1 to `count`, at most 100,000: for each rule the runs of which it holds and those of
/// which it does not hold, and the runs with each verdict, each with the first of their seeds. The run of a seed S is the one that `run --seed S`
/// makes with this configuration and one worker. The runs are spread over threads, if threads can be made, each run on one of them; the answer
/// does not depend on how many there are. Beside the runs that are made at a time the memory that the call takes does not grow with the number of
/// seeds.
///
/// `NoMemory` is returned if memory runs out.
pub fn survey<R: Threads + Sync>(
    rt: &R,
    alloc: Global,
    subject: &Subject,
    count: u32,
) -> Result<Survey, NoMemory>
    requires config { IsTrue (is_config subject.now.config) }
    requires few { count ≤ MAX_SURVEYED }
    ensures { IfOk result (IsSurveyOf subject.now.script.now subject.now.config subject.now.rules.now count) }
{
    let mut survey = Survey::of_no_runs(alloc, subject.rules.as_slice())?;
    let mut done = 0;
    while done < count {
        let more = (count - done).min(CHUNK);
        let runs = judged_runs(rt, alloc, subject, done, more)?;
        survey = survey.with(alloc, runs.as_slice())?;
        done += more;
    }
    Ok(survey)
}

// The runs of a script under so many seeds after `done`, in this order.
fn judged_runs<R: Threads + Sync>(
    rt: &R,
    alloc: Global,
    subject: &Subject,
    done: u32,
    more: u32,
) -> Result<Vec<JudgedRun>, NoMemory>
    requires config { IsTrue (is_config subject.now.config) }
    requires few { done + more ≤ MAX_SURVEYED }
    ensures { IfOk result (λ runs. AllZip (IsJudgedRun subject.now.script.now subject.now.config subject.now.rules.now) (range_with_len (done + 1) more) runs.items) }
{
    let parts = PARTS * current_num_threads(rt).min(MOST_PROCESSORS);
    let seeds = seeds_after(alloc, done, more)?;
    let runs = seeds
        .as_slice()
        .par_chunks(more as usize / parts + 1)
        .with_min_len(1)
        .map(
            |part: &[u64]| -> Result<Vec<JudgedRun>, NoMemory>
                requires { IsTrue (is_config subject.now.config) }
                ensures { IfOk result (λ runs. AllZip (IsJudgedRun subject.entry.now.script.now subject.entry.now.config subject.entry.now.rules.now) part.now runs.items) }
            { judged_part(alloc, subject, part) },
        )
        .collect::<Result<Vec<Vec<JudgedRun>>, NoMemory>>(rt, alloc)??;
    in_one(alloc, runs)
}

// So many seeds after `done`.
fn seeds_after(alloc: Global, done: u32, more: u32) -> Result<Vec<u64>, NoMemory>
    requires { done + more ≤ MAX_SURVEYED }
    ensures { IfOk result (λ seeds. seeds.items ≡ range_with_len (done + 1) more) }
{
    let mut seeds = Vec::new(alloc);
    for before in 0..more {
        seeds.push((done + before) as u64 + 1)?;
    }
    Ok(seeds)
}

// The runs of all parts, in order.
fn in_one(alloc: Global, parts: Vec<Vec<JudgedRun>>) -> Result<Vec<JudgedRun>, NoMemory>
    ensures { IfOk result (λ runs. runs.items ≡ flat_map (λ part. part.items) parts.items) }
{
    let mut runs = Vec::new(alloc);
    for mut part in parts {
        runs.append(&mut part)?;
    }
    Ok(runs)
}
