//! The text of a judgement.

ghost use Rattle.std.specs.Prelude.{◌≡◌, [], ◌∷◌};
ghost use Rattle.std.specs.List.{flat_map};
ghost use Rattle.pct_io.specs.Writes.{Writes};
ghost use Rattle.pct_model.specs.Keywords.{line_text, text_of};
ghost use Rattle.pct_judgement.specs.AnswerTexts.{answer_line, answer_lines, judgement_text, refusal_line, refused_report, report_why_text};

use crate::judgement::{Judgement, failed_count};
use pct_expect::Judged;
use pct_io::{BufferedSink, Failed, Field, Sink, write_line};
use pct_model::Keyword;
use pct_report_reader::ReportWhy;

/// Writes a judgement: `expect LINE yes` or `expect LINE no N` for each rule, and `failed M`, where M is the number of rules that do not hold;
/// or the line of a refusal, `refused expect LINE WHY` or `refused report LINE WHY`.
///
/// `Failed` means that the sink recorded one error, and that a prefix of the text was written. The call allocates no memory.
pub fn write_judgement<K: Sink>(judgement: &Judgement, sink: &mut K) -> Result<(), Failed>
    ensures { Writes K.written K.errors K.inners sink.old sink.new (judgement_text judgement.now) result }
{
    let mut out = BufferedSink::new(sink);
    write_lines(judgement, &mut out)?;
    out.flush()
}

// Writes the lines of a judgement, one by one.
fn write_lines<K: Sink>(judgement: &Judgement, sink: &mut K) -> Result<(), Failed>
    ensures { Writes K.written K.errors K.inners sink.old sink.new (judgement_text judgement.now) result }
{
    match judgement {
        Judgement::Answered(answers) => write_answers(answers.as_slice(), sink),
        Judgement::ExpectRefused { line, why } => write_refusal(b"expect", *line, why.text(), sink),
        Judgement::ReportRefused { line, why } => write_report_refusal(*line, *why, sink),
    }
}

// Writes a line for each rule, and how many of them do not hold.
#[tactic(auto, unfolding(crate::specs::AnswerTexts::answer_lines))]
fn write_answers<K: Sink>(answers: &[Judged], sink: &mut K) -> Result<(), Failed>
    ensures { Writes K.written K.errors K.inners sink.old sink.new (text_of (answer_lines answers.now)) result }
{
    write_each(answers, sink)?;
    write_line(
        sink,
        &[Field::Text(b"failed"), Field::Count(failed_count(answers))],
    )
}

// Writes a line for each rule.
fn write_each<K: Sink>(answers: &[Judged], sink: &mut K) -> Result<(), Failed>
    ensures { Writes K.written K.errors K.inners sink.old sink.new (flat_map (λ answer. line_text (answer_line answer)) answers.now) result }
{
    for answer in answers {
        write_answer(*answer, sink)?;
    }
    Ok(())
}

// Writes the line of the answer to a rule.
#[tactic(auto, unfolding(crate::specs::AnswerTexts::answer_line))]
fn write_answer<K: Sink>(answer: Judged, sink: &mut K) -> Result<(), Failed>
    ensures { Writes K.written K.errors K.inners sink.old sink.new (line_text (answer_line answer)) result }
{
    let title = Field::Text(b"expect");
    let line = Field::Number(answer.line);
    if answer.holds {
        write_line(sink, &[title, line, Field::Text(b"yes")])
    } else {
        write_line(
            sink,
            &[
                title,
                line,
                Field::Text(b"no"),
                Field::Number(answer.number),
            ],
        )
    }
}

/// Writes the line of a refused report, `refused report LINE WHY`.
///
/// `Failed` means that the sink recorded one error, and that a prefix of the line was written. The call allocates no memory.
pub fn write_report_refusal<K: Sink>(line: u32, why: ReportWhy, sink: &mut K) -> Result<(), Failed>
    ensures { Writes K.written K.errors K.inners sink.old sink.new (line_text (refused_report line why)) result }
{
    write_refusal(b"report", line, text_of_why(why), sink)
}

// Writes the line of a refusal.
#[tactic(auto, unfolding(crate::specs::AnswerTexts::refusal_line))]
fn write_refusal<'a, K: Sink>(
    part: &'a [u8],
    line: u32,
    why: &'a [u8],
    sink: &mut K,
) -> Result<(), Failed>
    ensures { Writes K.written K.errors K.inners sink.old sink.new (line_text (refusal_line part.now line why.now)) result }
{
    write_line(
        sink,
        &[
            Field::Text(Keyword::Refused.text()),
            Field::Text(part),
            Field::Number(line),
            Field::Text(why),
        ],
    )
}

// The word for the reason why a report is refused.
#[tactic(auto, unfolding(crate::specs::AnswerTexts::report_why_text))]
fn text_of_why(why: ReportWhy) -> &'static [u8]
    ensures { result.now ≡ report_why_text why }
{
    match why {
        ReportWhy::BadHeader => b"bad_header",
        ReportWhy::BadEvent => b"bad_event",
        ReportWhy::BadVerdict => b"bad_verdict",
        ReportWhy::BadSchedule => b"bad_schedule",
    }
}
