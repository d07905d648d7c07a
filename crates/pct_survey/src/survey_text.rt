//! The text of a survey.

ghost use Rattle.std.specs.Prelude.{[], ◌∷◌, ◌++◌, codes, decimal, flat_map};
ghost use Rattle.std.specs.List.{join_with_byte};
ghost use Rattle.pct_io.specs.Writes.{Writes};
ghost use Rattle.pct_model.specs.Report.{verdict_line};
ghost use Rattle.pct_survey.specs.SurveyTexts.{ending_text, first_text, rule_text, shown_ending, survey_text};

use crate::counting::{EndingCount, RuleCount, Survey};
use itoa::Buffer;
use pct_io::{BufferedSink, Failed, Sink, write_all, write_parts};
use pct_model::{Keyword, Verdict};
use pct_tallies::Count;

/// Writes what is counted of runs: a line for each rule, and a line for each verdict that a run ended with. The fields of a line are separated by
/// one tab.
///
/// `Failed` means that the sink recorded one error, and that a prefix of the text was written. The call allocates no memory.
pub fn write_survey<K: Sink>(survey: &Survey, sink: &mut K) -> Result<(), Failed>
    ensures { Writes K.written K.errors K.inners sink.old sink.new (survey_text survey.now) result }
{
    let mut out = BufferedSink::new(sink);
    write_lines(&mut out, survey)?;
    out.flush()
}

// Writes the lines, one by one.
fn write_lines<K: Sink>(sink: &mut K, survey: &Survey) -> Result<(), Failed>
    ensures { Writes K.written K.errors K.inners sink.old sink.new (survey_text survey.now) result }
{
    write_rules(sink, survey.rules.as_slice())?;
    write_endings(sink, survey.endings.as_slice())
}

fn write_rules<K: Sink>(sink: &mut K, rules: &[RuleCount]) -> Result<(), Failed>
    ensures { Writes K.written K.errors K.inners sink.old sink.new (flat_map rule_text rules.now) result }
{
    for rule in rules {
        write_rule(sink, *rule)?;
    }
    Ok(())
}

// Writes the line of a rule.
fn write_rule<K: Sink>(sink: &mut K, rule: RuleCount) -> Result<(), Failed>
    ensures { Writes K.written K.errors K.inners sink.old sink.new (rule_text rule) result }
{
    write_digits(sink, rule.line as u64)?;
    write_number(sink, b"\tholds ", rule.holds.runs)?;
    write_number(sink, b"\tfails ", rule.fails.runs)?;
    write_first(sink, rule.holds)?;
    write_first(sink, rule.fails)?;
    write_all(sink, b"\n")
}

fn write_endings<K: Sink>(sink: &mut K, endings: &[EndingCount]) -> Result<(), Failed>
    ensures { Writes K.written K.errors K.inners sink.old sink.new (flat_map shown_ending endings.now) result }
{
    for ending in endings {
        write_shown(sink, *ending)?;
    }
    Ok(())
}

// Writes the line of a verdict, if a run ended with it.
fn write_shown<K: Sink>(sink: &mut K, ending: EndingCount) -> Result<(), Failed>
    ensures { Writes K.written K.errors K.inners sink.old sink.new (shown_ending ending) result }
{
    if ending.count.runs == 0 {
        return Ok(());
    }
    write_ending(sink, ending)
}

// Writes the line of a verdict.
fn write_ending<K: Sink>(sink: &mut K, ending: EndingCount) -> Result<(), Failed>
    ensures { Writes K.written K.errors K.inners sink.old sink.new (ending_text ending) result }
{
    write_verdict(sink, ending.verdict)?;
    write_number(sink, b"\t", ending.count.runs)?;
    write_first(sink, ending.count)?;
    write_all(sink, b"\n")
}

// Writes the words of a verdict.
#[tactic(auto, unfolding(pct_model::specs::Report::verdict_line, pct_model::specs::Report::verdict_words, pct_model::specs::StopTexts::stop_words))]
fn write_verdict<K: Sink>(sink: &mut K, verdict: Verdict) -> Result<(), Failed>
    ensures { Writes K.written K.errors K.inners sink.old sink.new (join_with_byte 32 (verdict_line verdict)) result }
{
    let title = Keyword::Verdict.text();
    match verdict {
        Verdict::Complete => write_parts(sink, &[title, b" ", Keyword::Complete.text()]),
        Verdict::Deadlock => write_parts(sink, &[title, b" ", Keyword::Deadlock.text()]),
        Verdict::Budget => write_parts(sink, &[title, b" ", Keyword::Budget.text()]),
        Verdict::Open => write_parts(sink, &[title, b" ", Keyword::Open.text()]),
        Verdict::Undefined(why) => write_parts(
            sink,
            &[title, b" ", why.class().text(), b" ", why.name().text()],
        ),
    }
}

// Writes bytes, and a number in decimal.
fn write_number<K: Sink>(sink: &mut K, bytes: &[u8], number: u64) -> Result<(), Failed>
    ensures { Writes K.written K.errors K.inners sink.old sink.new (bytes.now ++ decimal number) result }
{
    write_all(sink, bytes)?;
    write_digits(sink, number)
}

// Writes a number in decimal.
fn write_digits<K: Sink>(sink: &mut K, number: u64) -> Result<(), Failed>
    ensures { Writes K.written K.errors K.inners sink.old sink.new (decimal number) result }
{
    write_all(sink, Buffer::new().format(number).as_bytes())
}

// Writes a tab, and the first seed of a count.
fn write_first<K: Sink>(sink: &mut K, count: Count) -> Result<(), Failed>
    ensures { Writes K.written K.errors K.inners sink.old sink.new (first_text count) result }
{
    if count.runs == 0 {
        write_all(sink, b"\t-")
    } else {
        write_number(sink, b"\tfirst ", count.first)
    }
}
