//! Writing of an answer.

ghost use Rattle.std.specs.Prelude.{◌≡◌, [], ◌∷◌, ◌++◌, map};
ghost use Rattle.std.specs.List.{join_with_byte};
ghost use Rattle.pct_io.specs.Writes.{Writes};
ghost use Rattle.pct_io.specs.Fields.{field_text};
ghost use Rattle.pct_model.specs.Keywords.{line_text};
ghost use Rattle.pct_command.specs.Answer.{line_of_refusal, status_of_answer, text_of_answer};
ghost use Rattle.pct_command.specs.Status.{IsAnswered};

use crate::answers::{Answer, Refusal};
use crate::status::Status;
use pct_cancel::write_points;
use pct_demo::write_summary;
use pct_io::{BufferedSink, Failed, Field, Sink, write_line};
use pct_judgement::write_judgement;
use pct_model::Keyword;
use pct_printer::print;
use pct_report::write_report;
use pct_report_audit::write_audit;
use pct_tallies::write_tally;

/// Writes an answer, drops it, and returns its status and whether it was written.
pub(crate) fn give_answer<K: Sink>(answer: Answer, sink: &mut K) -> (Status, Result<(), Failed>)
    ensures status { result.0 ≡ status_of_answer answer }
    ensures answered { IsAnswered result.0 }
    ensures written { Writes K.written K.errors K.inners sink.old sink.new (text_of_answer answer) result.1 }
{
    let status = answer.status();
    let written = write_answer(&answer, sink);
    drop(answer);
    (status, written)
}

// Writes an answer: the line of a refusal, the report of a run, the canonical text of a script, the table of cancellation points,
// the summary of a run, a tally of runs, a judgement, or an audit.
fn write_answer<K: Sink>(answer: &Answer, sink: &mut K) -> Result<(), Failed>
    ensures { Writes K.written K.errors K.inners sink.old sink.new (text_of_answer answer.now) result }
{
    match answer {
        Answer::Refused(refusal) => write_refusal(*refusal, sink),
        Answer::Ran(engine) => write_report(engine, sink),
        Answer::Checked(script) => print(script, sink),
        Answer::Points => write_points(sink),
        Answer::Demonstrated { number, engine } => write_summary(*number, engine, sink),
        Answer::Sampled { seeds, tally } => write_tally(*seeds, tally, sink),
        Answer::Judged(judgement) => write_judgement(judgement, sink),
        Answer::Audited(audit) => write_audit(*audit, sink),
    }
}

/// Writes the line of a refusal.
#[tactic(auto, unfolding(pct_model::specs::Outcome::refused_words, pct_model::specs::Outcome::refused_input, pct_model::specs::Outcome::refused_script, pct_model::specs::Outcome::refused_schedule, pct_model::specs::Outcome::refused_entry))]
pub fn write_refusal<K: Sink>(refusal: Refusal, sink: &mut K) -> Result<(), Failed>
    ensures { Writes K.written K.errors K.inners sink.old sink.new (line_text (line_of_refusal refusal)) result }
{
    let title = Field::Text(Keyword::Refused.text());
    match refusal {
        Refusal::Words => write_alone(sink, &[title, Field::Text(Keyword::Words.text())]),
        Refusal::Input => write_alone(
            sink,
            &[
                title,
                Field::Text(Keyword::Input.text()),
                Field::Text(Keyword::TooLong.text()),
            ],
        ),
        Refusal::Script { line, why } => write_alone(
            sink,
            &[
                title,
                Field::Text(Keyword::Script.text()),
                Field::Number(line),
                Field::Text(why.name().text()),
            ],
        ),
        Refusal::Schedule { line, why } => write_alone(
            sink,
            &[
                title,
                Field::Text(Keyword::Schedule.text()),
                Field::Number(line),
                Field::Text(why.name().text()),
            ],
        ),
        Refusal::Entry { entry_number } => write_alone(
            sink,
            &[
                title,
                Field::Text(Keyword::Entry.text()),
                Field::Number(entry_number),
            ],
        ),
    }
}

// Writes a line through a buffered sink.
fn write_alone<K: Sink>(sink: &mut K, words: &[Field]) -> Result<(), Failed>
    ensures { Writes K.written K.errors K.inners sink.old sink.new (join_with_byte 32 (map field_text words.now) ++ 10 ∷ []) result }
{
    let mut line = BufferedSink::new(sink);
    write_line(&mut line, words)?;
    line.flush()
}
