//! The text of a tally.

ghost use Rattle.std.specs.Prelude.{[], ◌∷◌};
ghost use Rattle.std.specs.List.{flat_map};
ghost use Rattle.pct_io.specs.Writes.{Writes};
ghost use Rattle.pct_io.specs.Fields.{field_text};
ghost use Rattle.pct_model.specs.Keywords.{keyword_text, line_text, text_of};
ghost use Rattle.pct_tallies.specs.TallyTexts.{count_lines, range_lines, stop_line, subject_lines, tally_lines, total_lines, verdict_count_line, verdict_lines};

use crate::count::{Count, StopCount};
use crate::range_tally::{RangeTally, Subject};
use crate::tally::Tally;
use pct_io::{BufferedSink, Failed, Field, Sink, write_line};
use pct_model::Keyword;

/// Writes a tally of the runs under the seeds 1 to `seeds`: the number of seeds; for each verdict, and for each stop that ended a run, how many
/// runs have it and the first seed of them; how many threads were joined, and how many of them were canceled; and the least and the greatest
/// number of entries of a run.
///
/// `Failed` means that the sink recorded one error, and that a prefix of the text was written. The call allocates no memory.
pub fn write_tally<K: Sink>(seeds: u32, tally: &Tally, sink: &mut K) -> Result<(), Failed>
    ensures { Writes K.written K.errors K.inners sink.old sink.new (text_of (tally_lines seeds tally.now)) result }
{
    let mut out = BufferedSink::new(sink);
    write_number(&mut out, Keyword::Sample, Field::Number(seeds))?;
    write_counts(&mut out, tally)?;
    out.flush()
}

/// Writes the tally of a range of seeds: the first and the last of them; the script, by its digest, and the limits; and what `write_tally` writes
/// after the number of seeds.
///
/// `Failed` means that the sink recorded one error, and that a prefix of the text was written. The call allocates no memory.
pub fn write_range_tally<K: Sink>(range: &RangeTally, sink: &mut K) -> Result<(), Failed>
    ensures { Writes K.written K.errors K.inners sink.old sink.new (text_of (range_lines range.now)) result }
{
    let mut out = BufferedSink::new(sink);
    write_range(&mut out, range)?;
    out.flush()
}

// Writes the lines of the tally of a range, one by one.
#[tactic(auto, unfolding(crate::specs::TallyTexts::range_lines))]
fn write_range<K: Sink>(sink: &mut K, range: &RangeTally) -> Result<(), Failed>
    ensures { Writes K.written K.errors K.inners sink.old sink.new (text_of (range_lines range.now)) result }
{
    write_line(
        sink,
        &[
            Field::Text(b"tally"),
            Field::Count(range.seeds.first as usize),
            Field::Count(range.seeds.last as usize),
        ],
    )?;
    write_subject(sink, &range.subject)?;
    write_counts(sink, &range.tally)
}

// The script, by its digest, and the limits.
#[tactic(auto, unfolding(crate::specs::TallyTexts::subject_lines))]
fn write_subject<K: Sink>(sink: &mut K, subject: &Subject) -> Result<(), Failed>
    ensures { Writes K.written K.errors K.inners sink.old sink.new (text_of (subject_lines subject.now)) result }
{
    write_words(sink, Keyword::Script.text(), subject.digest.as_slice())?;
    write_line(
        sink,
        &[
            Field::Text(b"limits"),
            Field::Number(subject.limits.budget),
            Field::Number(subject.limits.passes),
            Field::Number(subject.limits.slots),
        ],
    )
}

// Writes a line of two words.
fn write_words<'a, K: Sink>(sink: &mut K, first: &'a [u8], second: &'a [u8]) -> Result<(), Failed>
    ensures { Writes K.written K.errors K.inners sink.old sink.new (line_text (first.now ∷ second.now ∷ [])) result }
{
    write_line(sink, &[Field::Text(first), Field::Text(second)])
}

// Writes the lines of what is counted, one by one.
fn write_counts<K: Sink>(sink: &mut K, tally: &Tally) -> Result<(), Failed>
    ensures { Writes K.written K.errors K.inners sink.old sink.new (text_of (count_lines tally.now)) result }
{
    write_verdicts(sink, tally)?;
    write_stops(sink, tally.stops())?;
    write_totals(sink, tally)
}

// The runs that no stop ended.
#[tactic(auto, unfolding(crate::specs::TallyTexts::verdict_lines))]
fn write_verdicts<K: Sink>(sink: &mut K, tally: &Tally) -> Result<(), Failed>
    ensures { Writes K.written K.errors K.inners sink.old sink.new (text_of (verdict_lines tally.now)) result }
{
    write_count(sink, Keyword::Complete, tally.complete)?;
    write_count(sink, Keyword::Deadlock, tally.deadlock)?;
    write_count(sink, Keyword::Budget, tally.budget)
}

// The runs that a stop ended, a line for each stop.
fn write_stops<K: Sink>(sink: &mut K, stops: &[StopCount]) -> Result<(), Failed>
    ensures { Writes K.written K.errors K.inners sink.old sink.new (flat_map (λ s. line_text (stop_line s)) stops.now) result }
{
    for stop in stops {
        write_stop(sink, *stop)?;
    }
    Ok(())
}

// The joins, and the numbers of entries.
#[tactic(auto, unfolding(crate::specs::TallyTexts::total_lines))]
fn write_totals<K: Sink>(sink: &mut K, tally: &Tally) -> Result<(), Failed>
    ensures { Writes K.written K.errors K.inners sink.old sink.new (text_of (total_lines tally.now)) result }
{
    write_number(sink, Keyword::Joined, Field::Count(tally.joined as usize))?;
    write_number(
        sink,
        Keyword::Canceled,
        Field::Count(tally.canceled as usize),
    )?;
    write_number(sink, Keyword::Least, Field::Number(tally.least))?;
    write_number(sink, Keyword::Most, Field::Number(tally.most))
}

// Writes a line of a word and a number.
fn write_number<K: Sink>(sink: &mut K, word: Keyword, number: Field) -> Result<(), Failed>
    ensures { Writes K.written K.errors K.inners sink.old sink.new (line_text (keyword_text word ∷ field_text number.entry ∷ [])) result }
{
    write_line(sink, &[Field::Text(word.text()), number])
}

// Writes the line of the runs with a verdict.
#[tactic(auto, unfolding(crate::specs::TallyTexts::count_words))]
fn write_count<K: Sink>(sink: &mut K, word: Keyword, count: Count) -> Result<(), Failed>
    ensures { Writes K.written K.errors K.inners sink.old sink.new (line_text (verdict_count_line word count)) result }
{
    let title = Field::Text(word.text());
    let runs = Field::Count(count.runs as usize);
    if count.runs == 0 {
        write_line(sink, &[title, runs])
    } else {
        write_line(
            sink,
            &[
                title,
                runs,
                Field::Text(Keyword::First.text()),
                Field::Count(count.first as usize),
            ],
        )
    }
}

// Writes the line of the runs that a stop ended.
#[tactic(auto, unfolding(crate::specs::TallyTexts::count_words, pct_model::specs::StopTexts::stop_words))]
fn write_stop<K: Sink>(sink: &mut K, stop: StopCount) -> Result<(), Failed>
    ensures { Writes K.written K.errors K.inners sink.old sink.new (line_text (stop_line stop)) result }
{
    let class = Field::Text(stop.why.class().text());
    let name = Field::Text(stop.why.name().text());
    let runs = Field::Count(stop.count.runs as usize);
    if stop.count.runs == 0 {
        write_line(sink, &[class, name, runs])
    } else {
        write_line(
            sink,
            &[
                class,
                name,
                runs,
                Field::Text(Keyword::First.text()),
                Field::Count(stop.count.first as usize),
            ],
        )
    }
}
