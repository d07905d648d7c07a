//! The text of `trace`: a line for each step of a run, and the line of the verdict.

ghost use Rattle.std.specs.Prelude.{◌≡◌, ◌++◌, ◌≤◌, ◌<◌, [], ◌∷◌, true, false, length, IfOk, IfErr, IsTrue};
ghost use Rattle.pct_engine.specs.EngineStates.{IsRunOf};
ghost use Rattle.pct_history.specs.Replays.{Follows};
ghost use Rattle.pct_model.specs.Run.{Run, is_config};
ghost use Rattle.pct_view_texts.specs.NextSteps.{MakesSomeOf, MakesStep, RefusesStep, steps_text};
ghost use Rattle.pct_view_texts.specs.TextBuffers.{text_in};
ghost use Rattle.pct_view_texts.specs.Trace.{trace_text};

use crate::step::{Step, push_step};
use crate::verdict::push_verdict;
use crate::{Source, TextBuffer};
use pct_engine::{Engine, NotLegal};
use pct_io::NoMemory;
use pct_model::Entry;
use pct_script_lines::StatementLines;
use pct_threads::Steps;
use pct_views::start_of;
use std::alloc::Global;
use std::marker::Brand;
use std::sync::ledger::{Blank, Ledger};

/// The text of `trace` for the entries of a schedule up to the first that is not legal, and the number of this entry, counted from 1, if
/// there is one.
#[derive(Drop)]
pub struct TracedSteps {
    pub text: TextBuffer,
    pub illegal: Option<u32>,
}

/// Makes the steps of the entries of a schedule up to the first that is not legal, with an engine without entries, and returns the text of
/// `trace` for them: a line for each step, and the line of the verdict. `lines` are the lines of the text of the engine's script. `NoMemory`
/// is returned if memory runs out, and then the steps of some of the first entries were made.
pub fn trace_text(
    alloc: Global,
    lines: &StatementLines,
    engine: &mut Engine,
    entries: &[Entry],
) -> Result<TracedSteps, NoMemory>
    requires opened { engine.old.history ≡ [] }
    requires config { IsTrue (is_config engine.old.config) }
    requires few { length entries.now ≤ engine.old.config.budget }
    ensures follows { IfOk result (λ steps. Follows engine.old.script engine.old.config entries.now engine.new steps.illegal) }
    ensures text { IfOk result (λ steps. (after : Run) → IsRunOf engine.new after
        → text_in steps.text ≡ trace_text lines.now engine.new.script engine.new.config engine.new.history after) }
    ensures some { IfErr result (λ _. MakesSomeOf entries.now engine.old engine.new) }
{
    let mut text = TextBuffer::new(alloc);
    let illegal = push_steps(&mut text, lines, engine, entries)?;
    push_verdict(&mut text, engine.verdict())?;
    Ok(TracedSteps { text, illegal })
}

// Makes the steps of the entries up to the first that is not legal, and appends a line for each. It returns the number of the entry that is
// not legal, counted from 1.
fn push_steps(
    text: &mut TextBuffer,
    lines: &StatementLines,
    engine: &mut Engine,
    entries: &[Entry],
) -> Result<Option<u32>, NoMemory>
    requires opened { engine.old.history ≡ [] }
    requires config { IsTrue (is_config engine.old.config) }
    requires few { length entries.now ≤ engine.old.config.budget }
    ensures follows { IfOk result (λ illegal. Follows engine.old.script engine.old.config entries.now engine.new illegal) }
    ensures text { IfOk result (λ _. text_in text.new ≡ text_in text.old ++ steps_text lines.now engine.new) }
    ensures some { MakesSomeOf entries.now engine.old engine.new }
{
    let mut number = 0;
    for entry in entries {
        number += 1;
        if !push_next::<Brand>(text, lines, engine, *entry, Blank::new(1))? {
            return Ok(Some(number));
        }
    }
    Ok(None)
}

// Makes the step of an entry, and appends its line. The result is false exactly if the entry is not legal or the budget has no step left, and
// then the run is as it was. After `NoMemory` the step was made. The records of threads that are lent are counted from 0 on.
fn push_next<L: Ledger>(
    text: &mut TextBuffer,
    lines: &StatementLines,
    engine: &mut Engine,
    entry: Entry,
    blank: Blank,
) -> Result<bool, NoMemory>
    requires name { blank.name ≡ L.name }
    requires parts { blank.parts ≡ L.parts }
    requires some { 0 < blank.parts }
    ensures made { IfOk result (λ made. made ≡ true → MakesStep lines.now entry engine.old engine.new text.old text.new) }
    ensures refused { IfOk result (λ made. made ≡ false → RefusesStep entry engine.old engine.new text.old text.new) }
    ensures kept { IfErr result (λ _. engine.new ≡ record engine.old { history = engine.old.history ++ entry ∷ [] }) }
{
    let start = start_of(engine, &entry);
    let count = engine.events().len();
    let mut steps = Steps::<L>::new(blank);
    if let Err(NotLegal) = engine.step(entry, &mut steps) {
        return Ok(false);
    }
    let (_, events) = engine.events().split_at(count);
    let source = Source {
        script: engine.script(),
        lines,
    };
    let step = Step {
        number: engine.history().len(),
        start,
        entry,
        events,
    };
    push_step(text, source, &step)?;
    Ok(true)
}
