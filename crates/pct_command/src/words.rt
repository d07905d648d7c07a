//! The words after the program's name.

ghost use Rattle.std.specs.Prelude.{◌≡◌, map, string_bytes, true, false, IsOk, ◌↔◌, IfOk};
ghost use Rattle.pct_model.specs.Demo.{demo_number};
ghost use Rattle.pct_model.specs.RunOptions.{run_options};
ghost use Rattle.pct_model.specs.Sample.{sample_number, seed_count};
ghost use Rattle.pct_command.specs.Words.{Asks, accepts};

use pct_model::{Keyword, MAX_SEEDS, RunOptions};
use pct_options::read_options;
use pct_text::numeral;

/// The words are not accepted.
#[derive(Clone, Copy, Debug, PartialEq, Eq)]
pub struct Usage;

/// The command that the words name.
#[derive(Clone, Copy, Debug, PartialEq, Eq)]
pub enum Job {
    /// Run the script of the input, and write the report.
    Run(RunOptions),
    /// Run the script of the input under the schedule that follows it, and write the report.
    Replay,
    /// Read the script of the input, and write its canonical text.
    Check,
    /// Write the table of cancellation points.
    Points,
    /// Run the script that is generated from this number, and write the summary of the run.
    Demo(u32),
    /// Run the script of the input under each seed from 1 to this number, and write what is counted of the runs.
    Sample(u32),
    /// Judge the report in the input by the rules in it, and write the answers.
    Expect,
    /// Audit the report that is the input, and write whether its events keep the laws.
    Audit,
}

/// The command that the words name: `run` with its options, `demo` with a number, `sample` with a number of seeds from 1 to 10,000, or one
/// word, which is `replay`, `check`, `points`, `expect` or `audit`. `Usage` comes with all other words. It allocates no memory.
#[tactic(auto, unfolding(pct_model::specs::Outcome::is_asked, crate::specs::Words::asks_expect, crate::specs::Words::asks_audit))]
pub fn read_words(words: &[String]) -> Result<Job, Usage>
    ensures accepted { IsOk result ↔ (accepts (map string_bytes words.now) ≡ true) }
    ensures job { IfOk result (λ job. Asks (map string_bytes words.now) job) }
{
    if let Some(options) = run_options(words) {
        return Ok(Job::Run(options));
    }
    if let Some(number) = demo_number(words) {
        return Ok(Job::Demo(number));
    }
    if let Some(seeds) = sample_number(words) {
        return Ok(Job::Sample(seeds));
    }
    match words {
        [word] if word.as_bytes() == Keyword::Replay.text() => Ok(Job::Replay),
        [word] if word.as_bytes() == Keyword::Check.text() => Ok(Job::Check),
        [word] if word.as_bytes() == Keyword::Points.text() => Ok(Job::Points),
        [word] if word.as_bytes() == b"expect".as_slice() => Ok(Job::Expect),
        [word] if word.as_bytes() == b"audit".as_slice() => Ok(Job::Audit),
        _ => Err(Usage),
    }
}

// The numbers of the run that the words ask for, if they are `run` and its options.
#[tactic(auto, unfolding(pct_model::specs::RunOptions::run_options))]
fn run_options(words: &[String]) -> Option<RunOptions>
    ensures { result ≡ run_options (map string_bytes words.now) }
{
    let (command, options) = words.split_first()?;
    if command.as_bytes() == Keyword::Run.text() {
        read_options(options)
    } else {
        None
    }
}

// The number that the words ask for, if they are `demo` and a number.
#[tactic(auto, unfolding(pct_model::specs::Demo::demo_number))]
fn demo_number(words: &[String]) -> Option<u32>
    ensures { result ≡ demo_number (map string_bytes words.now) }
{
    match words {
        [command, number] if command.as_bytes() == Keyword::Demo.text() => numeral(
            number.as_bytes(),
        ),
        _ => None,
    }
}

// The number of seeds that the words ask for, if they are `sample` and such a number.
#[tactic(auto, unfolding(pct_model::specs::Sample::sample_number))]
fn sample_number(words: &[String]) -> Option<u32>
    ensures { result ≡ sample_number (map string_bytes words.now) }
{
    match words {
        [command, count] if command.as_bytes() == Keyword::Sample.text() => seed_count(
            count.as_bytes(),
        ),
        _ => None,
    }
}

// The number of seeds that a word gives, if it is one from 1 to 10,000.
#[tactic(auto, unfolding(pct_model::specs::Sample::seed_count))]
fn seed_count(word: &[u8]) -> Option<u32>
    ensures { result ≡ seed_count word.now }
{
    let count = numeral(word)?;
    if 1 <= count && count <= MAX_SEEDS {
        Some(count)
    } else {
        None
    }
}
