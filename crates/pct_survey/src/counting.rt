//! What is counted of judged runs.

ghost use Rattle.std.specs.Prelude.{◌≡◌, ◌≤◌, [], All, IfOk, length, map};
ghost use Rattle.std.specs.List.{enumerate_from};
ghost use Rattle.pct_tallies.specs.Sums.{no_runs, sum_of_counts};
ghost use Rattle.pct_survey.specs.declared.surveying.TheConstants.{CHUNK, MAX_SURVEYED};
ghost use Rattle.pct_survey.specs.Surveys.{all_endings, count_of, has, has_failure, survey_of};
ghost use Rattle.pct_survey.specs.MoreRuns.{AreFew, IsFewOfEnding, IsFewOfRule, ending_with, rule_with, survey_with};

use crate::judging::JudgedRun;
use crate::property::Property;
use pct_expect::Rule;
use pct_io::NoMemory;
use pct_model::{Sequence, Verdict, Why};
use pct_tallies::Count;
use std::alloc::Global;

/// What is counted of a rule.
#[derive(Clone, Copy)]
pub struct RuleCount {
    /// The line of the rule, counted from 1.
    pub line: u32,
    /// The runs of which it holds.
    pub holds: Count,
    /// The runs of which it does not hold.
    pub fails: Count,
}

/// The runs with a verdict.
#[derive(Clone, Copy)]
pub struct EndingCount {
    pub verdict: Verdict,
    pub count: Count,
}

/// What is counted of the rules, in order.
pub type RuleCounts = Sequence<RuleCount>;
/// The runs with each verdict that a run can end with, in the order of a tally.
pub type EndingCounts = Sequence<EndingCount>;

/// What is counted of runs.
#[derive(Drop)]
pub struct Survey {
    pub rules: RuleCounts,
    pub endings: EndingCounts,
}

impl Survey {
    /// Whether a rule does not hold of one of the runs.
    pub fn has_failure(&self) -> bool
        ensures { result ≡ has_failure self.now }
    {
        self.rules
            .as_slice()
            .iter()
            .any(|rule| rule.fails.runs != 0)
    }

    /// What is counted of no runs.
    pub(crate) fn of_no_runs(alloc: Global, rules: &[Rule]) -> Result<Survey, NoMemory>
        ensures { IfOk result (λ survey. survey ≡ survey_of rules.now []) }
    {
        Ok(Survey {
            rules: Sequence::of(uncounted_rules(alloc, rules)?),
            endings: uncounted_endings(alloc)?,
        })
    }

    /// What is counted of some runs, and of more of them: at most 10,000.
    pub(crate) fn with(&self, alloc: Global, runs: &[JudgedRun]) -> Result<Survey, NoMemory>
        requires counts { AreFew self.now }
        requires runs { length runs.now ≤ CHUNK }
        ensures { IfOk result (λ survey. survey ≡ survey_with self.now runs.now) }
    {
        Ok(Survey {
            rules: Sequence::of(rules_with(alloc, self.rules.as_slice(), runs)?),
            endings: Sequence::of(endings_with(alloc, self.endings.as_slice(), runs)?),
        })
    }
}

// ---- no runs

const NO_RUNS: Count = Count { runs: 0, first: 0 };

/// The verdicts that a run can end with, in the order of a tally.
static ALL_ENDINGS: [Verdict; 19] = [
    Verdict::Complete,
    Verdict::Deadlock,
    Verdict::Budget,
    Verdict::Undefined(Why::ForkChildCall),
    Verdict::Undefined(Why::AsyncCall),
    Verdict::Undefined(Why::EnableInHandler),
    Verdict::Undefined(Why::ExitInEnding),
    Verdict::Undefined(Why::ThreadId),
    Verdict::Undefined(Why::JoinSelf),
    Verdict::Undefined(Why::NotJoinable),
    Verdict::Undefined(Why::JoinTwice),
    Verdict::Undefined(Why::DetachJoined),
    Verdict::Undefined(Why::KeyId),
    Verdict::Undefined(Why::NotOwner),
    Verdict::Undefined(Why::CondTwoMutexes),
    Verdict::Undefined(Why::ExitTwice),
    Verdict::Undefined(Why::ForkInEnding),
    Verdict::Undefined(Why::StackFull),
    Verdict::Undefined(Why::CleanupFull),
];

fn uncounted_rules(alloc: Global, rules: &[Rule]) -> Result<Vec<RuleCount>, NoMemory>
    ensures { IfOk result (λ counts. counts.items ≡ map (λ rule. record { line = rule.line; holds = no_runs; fails = no_runs }) rules.now) }
{
    let mut counts = Vec::new(alloc);
    for rule in rules {
        counts.push(RuleCount {
            line: rule.line,
            holds: NO_RUNS,
            fails: NO_RUNS,
        })?;
    }
    Ok(counts)
}

#[tactic(auto, unfolding(crate::specs::Surveys::all_endings, pct_tallies::specs::Tallies::all_stops))]
fn uncounted_endings(alloc: Global) -> Result<EndingCounts, NoMemory>
    ensures { IfOk result (λ counts. counts ≡ map (λ v. record { verdict = v; count = no_runs }) all_endings) }
{
    Ok(Sequence::of(uncounted(alloc, ALL_ENDINGS.as_slice())?))
}

fn uncounted(alloc: Global, verdicts: &[Verdict]) -> Result<Vec<EndingCount>, NoMemory>
    ensures { IfOk result (λ counts. counts.items ≡ map (λ v. record { verdict = v; count = no_runs }) verdicts.now) }
{
    let mut counts = Vec::new(alloc);
    for verdict in verdicts {
        counts.push(EndingCount {
            verdict: *verdict,
            count: NO_RUNS,
        })?;
    }
    Ok(counts)
}

// ---- more runs

fn rules_with(
    alloc: Global,
    rules: &[RuleCount],
    runs: &[JudgedRun],
) -> Result<Vec<RuleCount>, NoMemory>
    requires rules { All IsFewOfRule rules.now }
    requires runs { length runs.now ≤ CHUNK }
    ensures { IfOk result (λ counts. counts.items ≡ map (rule_with runs.now) (enumerate_from 0 rules.now)) }
{
    let mut counts = Vec::new(alloc);
    for index in 0..rules.len() {
        counts.push(rule_with(rules[index], index, runs))?;
    }
    Ok(counts)
}

fn rule_with(rule: RuleCount, index: usize, runs: &[JudgedRun]) -> RuleCount
    requires rule { IsFewOfRule rule }
    requires runs { length runs.now ≤ CHUNK }
    ensures { result ≡ rule_with runs.now (index, rule) }
{
    RuleCount {
        line: rule.line,
        holds: count_with(rule.holds, Property::Holds(index), runs),
        fails: count_with(rule.fails, Property::Fails(index), runs),
    }
}

fn endings_with(
    alloc: Global,
    endings: &[EndingCount],
    runs: &[JudgedRun],
) -> Result<Vec<EndingCount>, NoMemory>
    requires endings { All IsFewOfEnding endings.now }
    requires runs { length runs.now ≤ CHUNK }
    ensures { IfOk result (λ counts. counts.items ≡ map (ending_with runs.now) endings.now) }
{
    let mut counts = Vec::new(alloc);
    for ending in endings {
        counts.push(ending_with(*ending, runs))?;
    }
    Ok(counts)
}

fn ending_with(ending: EndingCount, runs: &[JudgedRun]) -> EndingCount
    requires ending { IsFewOfEnding ending }
    requires runs { length runs.now ≤ CHUNK }
    ensures { result ≡ ending_with runs.now ending }
{
    EndingCount {
        verdict: ending.verdict,
        count: count_with(ending.count, Property::Ends(ending.verdict), runs),
    }
}

// A count, and that of more runs, whose seeds are greater.
fn count_with(count: Count, property: Property, runs: &[JudgedRun]) -> Count
    requires count { count.runs ≤ MAX_SURVEYED }
    requires runs { length runs.now ≤ CHUNK }
    ensures { result ≡ sum_of_counts count (count_of (has property) runs.now) }
{
    let more = count_of(property, runs);
    Count {
        runs: count.runs + more.runs,
        first: if count.runs == 0 {
            more.first
        } else {
            count.first
        },
    }
}

// The number of the runs with a property, and the seed of the first of them.
fn count_of(property: Property, runs: &[JudgedRun]) -> Count
    ensures { result ≡ count_of (has property) runs.now }
{
    let mut count = NO_RUNS;
    for index in (0..runs.len()).rev() {
        let run = &runs[index];
        if property.is_of(run) {
            count = Count {
                runs: count.runs + 1,
                first: run.seed,
            };
        }
    }
    count
}
