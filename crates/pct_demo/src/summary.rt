//! The summary of a run of a generated script.

ghost use Rattle.std.specs.Prelude.{◌≡◌, [], ◌∷◌, reverse};
ghost use Rattle.std.specs.Option.{option_map_or};
ghost use Rattle.pct_io.specs.Writes.{Writes};
ghost use Rattle.pct_io.specs.Fields.{field_text};
ghost use Rattle.pct_model.specs.Demo.{emitted, summary_lines, summary_of, total_of};
ghost use Rattle.pct_model.specs.Keywords.{keyword_text, line_text, text_of};
ghost use Rattle.pct_model.specs.Run.{Run};
ghost use Rattle.pct_engine.specs.EngineStates.{IsRunOf};

use pct_engine::Engine;
use pct_io::{BufferedSink, Failed, Field, Sink, write_line};
use pct_model::{Event, Keyword, Verdict, What};
use pct_report::write_verdict_line;

/// Writes the summary of a run of the script that is generated from a number: the number, the threads and rounds of the script, the
/// steps of the run, the value of its last event `emit`, or 0, and its verdict.
///
/// `Failed` means that the sink recorded one error, and that a prefix of the summary was written. The call allocates no memory.
pub fn write_summary<K: Sink>(number: u32, engine: &Engine, sink: &mut K) -> Result<(), Failed>
    ensures summary { (after : Run) → IsRunOf engine.now after → Writes K.written K.errors K.inners sink.old sink.new (summary_of number engine.now.script engine.now.config engine.now.history after) result }
    // The run of the entries is defined, for every engine.
    ensures runs { (after : Run) × IsRunOf engine.now after }
{
    write_lines(
        number,
        engine.history().len(),
        total_of(engine.events()),
        engine.verdict(),
        sink,
    )
}

// Writes the lines of a summary. Bytes are collected before they are written to the sink.
fn write_lines<K: Sink>(
    number: u32,
    steps: usize,
    total: u32,
    verdict: Verdict,
    sink: &mut K,
) -> Result<(), Failed>
    ensures { Writes K.written K.errors K.inners sink.old sink.new (text_of (summary_lines number steps total verdict)) result }
{
    let mut out = BufferedSink::new(sink);
    write_parts(&mut out, number, steps, total, verdict)?;
    out.flush()
}

// Writes the lines of a summary, one by one.
#[tactic(auto, unfolding(pct_model::specs::Demo::summary_lines))]
fn write_parts<K: Sink>(
    sink: &mut K,
    number: u32,
    steps: usize,
    total: u32,
    verdict: Verdict,
) -> Result<(), Failed>
    ensures { Writes K.written K.errors K.inners sink.old sink.new (text_of (summary_lines number steps total verdict)) result }
{
    write_number(sink, Keyword::Demo, Field::Number(number))?;
    write_number(sink, Keyword::Threads, Field::Number(1 + number % 28))?;
    write_number(sink, Keyword::Rounds, Field::Number(1 + number / 28 % 200))?;
    write_number(sink, Keyword::Steps, Field::Count(steps))?;
    write_number(sink, Keyword::Total, Field::Number(total))?;
    write_verdict_line(sink, verdict)
}

// Writes a line of a word and a number.
fn write_number<K: Sink>(sink: &mut K, word: Keyword, number: Field) -> Result<(), Failed>
    ensures { Writes K.written K.errors K.inners sink.old sink.new (line_text (keyword_text word ∷ field_text number.entry ∷ [])) result }
{
    write_line(sink, &[Field::Text(word.text()), number])
}

// The value of the last event `emit`, or 0.
fn total_of(events: &[Event]) -> u32
    ensures { result ≡ total_of (reverse events.now) }
{
    let mut total = 0;
    for event in events {
        total = emitted_or(event.what, total);
    }
    total
}

// The value of an event `emit`, or the total before another event.
fn emitted_or(what: What, total: u32) -> u32
    ensures { result ≡ option_map_or (λ value. value) (emitted what) total }
{
    match what {
        What::Emit(value) => value,
        _ => total,
    }
}
