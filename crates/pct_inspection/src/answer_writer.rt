//! Writing of an answer.

ghost use Rattle.std.specs.Prelude.{◌≡◌, ◌++◌};
ghost use Rattle.pct_io.specs.Writes.{Writes};
ghost use Rattle.pct_model.specs.Keywords.{line_text};
ghost use Rattle.pct_command.specs.Answer.{text_of_run};
ghost use Rattle.pct_command.specs.Status.{IsAnswered};
ghost use Rattle.pct_inspection.specs.Answer.{status_of_answer, text_of_answer};
ghost use Rattle.pct_inspection.specs.Inspection.{notice};
ghost use Rattle.pct_inspection.specs.SurveyOutcomes.{refused_expect};
ghost use Rattle.pct_inspection.specs.TallyOutcomes.{refused_tally};

use crate::answer::Answer;
use pct_command::{Status, write_refusal};
use pct_engine::Engine;
use pct_expect::ExpectWhy;
use pct_io::{Failed, Field, Sink, write_all, write_line};
use pct_judgement::write_report_refusal;
use pct_model::Keyword;
use pct_report::write_report;
use pct_survey::write_survey;
use pct_tallies::{TallyWhy, write_range_tally};

/// Writes an answer, drops it, and returns its status and whether it was written.
pub(crate) fn give_answer<K: Sink>(answer: Answer, sink: &mut K) -> (Status, Result<(), Failed>)
    ensures status { result.0 ≡ status_of_answer answer }
    ensures answered { IsAnswered result.0 }
    ensures written { Writes K.written K.errors K.inners sink.old sink.new (text_of_answer answer) result.1 }
{
    let status = answer.status();
    let written = write_answer(&answer, sink);
    drop(answer);
    (status, written)
}

// Writes an answer: the line of a refusal, the report of a run and the notice after it, a view, a tally, a survey, or what is found of a report.
fn write_answer<K: Sink>(answer: &Answer, sink: &mut K) -> Result<(), Failed>
    ensures { Writes K.written K.errors K.inners sink.old sink.new (text_of_answer answer.now) result }
{
    match answer {
        Answer::Refused(refusal) => write_refusal(*refusal, sink),
        Answer::Continued { engine, illegal } => write_continued(engine, *illegal, sink),
        Answer::Shown { text, .. } => write_all(sink, text),
        Answer::Judged { text, .. } => write_all(sink, text),
        Answer::Tallied(range) => write_range_tally(range, sink),
        Answer::Surveyed(survey) => write_survey(survey, sink),
        Answer::ExpectRefused { line, why } => write_expect_refusal(*line, *why, sink),
        Answer::TallyRefused { line, why } => write_tally_refusal(*line, *why, sink),
        Answer::ReportRefused { line, why } => write_report_refusal(*line, *why, sink),
    }
}

// Writes the report of a run, and after it the notice.
fn write_continued<K: Sink>(
    engine: &Engine,
    illegal: Option<u32>,
    sink: &mut K,
) -> Result<(), Failed>
    ensures { Writes K.written K.errors K.inners sink.old sink.new (text_of_run engine.now ++ notice illegal) result }
{
    write_report(engine, sink)?;
    write_notice(illegal, sink)
}

// Writes the line that names the reason why an expectation is refused.
#[tactic(auto, unfolding(crate::specs::SurveyOutcomes::refused_expect))]
fn write_expect_refusal<K: Sink>(line: u32, why: ExpectWhy, sink: &mut K) -> Result<(), Failed>
    ensures { Writes K.written K.errors K.inners sink.old sink.new (line_text (refused_expect line why)) result }
{
    write_line(
        sink,
        &[
            Field::Text(Keyword::Refused.text()),
            Field::Text(b"expect"),
            Field::Number(line),
            Field::Text(why.text()),
        ],
    )
}

// Writes the line that names the reason why tallies have no sum.
#[tactic(auto, unfolding(crate::specs::TallyOutcomes::refused_tally))]
fn write_tally_refusal<K: Sink>(line: u32, why: TallyWhy, sink: &mut K) -> Result<(), Failed>
    ensures { Writes K.written K.errors K.inners sink.old sink.new (line_text (refused_tally line why)) result }
{
    write_line(
        sink,
        &[
            Field::Text(Keyword::Refused.text()),
            Field::Text(b"tally"),
            Field::Number(line),
            Field::Text(why.text()),
        ],
    )
}

/// Writes the line that names an entry which is not legal, if there is one.
pub(crate) fn write_notice<K: Sink>(illegal: Option<u32>, sink: &mut K) -> Result<(), Failed>
    ensures { Writes K.written K.errors K.inners sink.old sink.new (notice illegal) result }
{
    match illegal {
        None => Ok(()),
        Some(entry_number) => write_line(
            sink,
            &[
                Field::Text(Keyword::Entry.text()),
                Field::Number(entry_number),
                Field::Text(b"is"),
                Field::Text(b"not"),
                Field::Text(b"legal"),
                Field::Text(b"here"),
            ],
        ),
    }
}
