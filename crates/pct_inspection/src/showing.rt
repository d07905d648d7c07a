//! The views of a run: `trace`, `choices`, `states`, `lanes` and `picture`.

ghost use Rattle.std.specs.Prelude.{◌≡◌, ◌≤◌, [], ℕ, List, length, IsTrue, IfOk};
ghost use Rattle.pct_engine.specs.EngineStates.{IsRunOf};
ghost use Rattle.pct_model.specs.Run.{Run, is_config};
ghost use Rattle.pct_model.specs.declared.limits.TheConstants.{MAX_INPUT};
ghost use Rattle.pct_view_texts.specs.TextBuffers.{text_in, Appends};
ghost use Rattle.pct_inspection.specs.declared.words.Inspection.TheVariants as inspection;
ghost use Rattle.pct_inspection.specs.Answer.{Answered, AsksFor, HasParts};
ghost use Rattle.pct_inspection.specs.Inputs.{script_in};
ghost use Rattle.pct_inspection.specs.Inspection.{notice};
ghost use Rattle.pct_inspection.specs.Shown.{IsInForm, ShowsState, ShowsStateAfter, ShowsTrace, state_text};

use crate::answer::Answer;
use crate::answer_writer::write_notice;
use crate::words::{Form, View};
use pct_command::Refusal;
use pct_engine::Engine;
use pct_history::{Entries, ScheduleFault, follow, read_prefix};
use pct_io::{Failed, NoMemory};
use pct_lanes::{Selection, lanes, picture};
use pct_model::{Config, Entry, Script, Verdict, format_of};
use pct_script_lines::{StatementLines, statement_lines};
use pct_view_texts::{TextBuffer, TracedSteps, choices_text, states_text, trace_text};
use std::alloc::Global;

/// The parts of an input.
#[derive(Clone, Copy)]
pub(crate) struct Parts<'a> {
    /// The text of the script.
    pub text: &'a [u8],
    /// The prefix of a schedule.
    pub prefix: &'a [u8],
}

// The run of a prefix: its script, and the configuration and the entries that were read.
#[derive(Drop)]
struct PrefixRun {
    script: Script,
    config: Config,
    entries: Entries,
}

// The steps of a run: what `trace` shows with the notice, the verdict, and the number of the first entry of the prefix that is not legal, if
// there is one; and the text of `choices` after the steps, if that is drawn too.
#[derive(Drop)]
struct Steps {
    text: TextBuffer,
    verdict: Verdict,
    illegal: Option<u32>,
    state: TextBuffer,
}

/// The answer of a view to a script, its text and a prefix.
pub(crate) fn show_script(
    alloc: Global,
    view: View,
    selection: Selection,
    script: Script,
    parts: Parts,
) -> Result<Answer, NoMemory>
    requires text { length parts.text.now ≤ MAX_INPUT }
    requires prefix { length parts.prefix.now ≤ MAX_INPUT }
    ensures { (words : List (List ℕ)) (input : List ℕ) → AsksFor words (inspection.Show view) → HasParts input script parts.entry.prefix.now → parts.entry.text.now ≡ script_in input → Answered words input result }
{
    let lines = statement_lines(alloc, parts.text)?;
    match read_prefix(alloc, parts.prefix, format_of(&script)) {
        Ok((config, entries)) => {
            let run = PrefixRun {
                script,
                config,
                entries,
            };
            match view {
                View::Choices | View::States => show_state(alloc, view, &lines, run),
                View::Steps(form) => {
                    let steps = trace(alloc, &lines, run, form)?;
                    in_form(alloc, form, selection, steps)
                }
            }
        }
        Err(ScheduleFault::Refused { line, why }) => {
            Ok(Answer::Refused(Refusal::Schedule { line, why }))
        }
        Err(ScheduleFault::NoMemory) => Err(NoMemory),
    }
}

// The answer that shows a view of the state after the run of a prefix, up to the first entry that is not legal.
fn show_state(
    alloc: Global,
    view: View,
    lines: &StatementLines,
    run: PrefixRun,
) -> Result<Answer, NoMemory>
    requires config { IsTrue (is_config run.config) }
    requires few { length run.entries ≤ run.config.budget }
    ensures { IfOk result (ShowsStateAfter view lines.now run.script run.config run.entries) }
{
    let (engine, illegal) = follow(alloc, run.script, run.config, run.entries)?;
    let answer = show_reached(alloc, view, lines, &engine, illegal);
    drop(engine);
    answer
}

// The answer that shows a view of the state after the run of an engine that followed a prefix.
fn show_reached(
    alloc: Global,
    view: View,
    lines: &StatementLines,
    engine: &Engine,
    illegal: Option<u32>,
) -> Result<Answer, NoMemory>
    // The run of the entries is defined, for every engine.
    ensures runs { (after : Run) × IsRunOf engine.now after }
    ensures shown { (after : Run) → IsRunOf engine.now after → IfOk result (ShowsState (state_text view lines.now engine.now after) engine.now after illegal) }
{
    let verdict = engine.verdict();
    let mut text = state_text(alloc, view, lines, engine)?;
    push_notice(&mut text, illegal)?;
    Ok(Answer::Shown {
        text: text.into_bytes(),
        verdict,
        illegal,
    })
}

// The text of a view of the state after the run of an engine. A view of the steps shows nothing of it.
fn state_text(
    alloc: Global,
    view: View,
    lines: &StatementLines,
    engine: &Engine,
) -> Result<TextBuffer, NoMemory>
    ensures { (after : Run) → IsRunOf engine.now after → IfOk result (λ text. text_in text ≡ state_text view lines.now engine.now after) }
{
    match view {
        View::Choices => choices_text(alloc, lines, engine),
        View::States => states_text(alloc, lines, engine),
        View::Steps(_) => Ok(TextBuffer::new(alloc)),
    }
}

// The text of `trace` for the run of a prefix, up to the first entry that is not legal; and what is to be drawn in this form of the state
// after it.
fn trace(
    alloc: Global,
    lines: &StatementLines,
    run: PrefixRun,
    form: Form,
) -> Result<Steps, NoMemory>
    requires config { IsTrue (is_config run.config) }
    requires few { length run.entries ≤ run.config.budget }
    ensures { IfOk result (λ steps. ShowsTrace lines.now run.script run.config run.entries steps.illegal (text_in steps.text) steps.verdict) }
{
    let mut engine = Engine::open(alloc, run.script, run.config)?;
    let steps = trace_entries(alloc, lines, &mut engine, run.entries.as_slice(), form);
    drop(engine);
    steps
}

// The text of `trace` for the entries of a prefix, up to the first that is not legal, with an engine without entries; and what is to be
// drawn in this form of the state after them.
fn trace_entries(
    alloc: Global,
    lines: &StatementLines,
    engine: &mut Engine,
    entries: &[Entry],
    form: Form,
) -> Result<Steps, NoMemory>
    requires opened { engine.old.history ≡ [] }
    requires config { IsTrue (is_config engine.old.config) }
    requires few { length entries.now ≤ engine.old.config.budget }
    ensures { IfOk result (λ steps. ShowsTrace lines.now engine.old.script engine.old.config entries.now steps.illegal (text_in steps.text) steps.verdict) }
{
    let TracedSteps { mut text, illegal } = trace_text(alloc, lines, engine, entries)?;
    push_notice(&mut text, illegal)?;
    let state = state_in_form(alloc, lines, engine, form)?;
    Ok(Steps {
        text,
        verdict: engine.verdict(),
        illegal,
        state,
    })
}

// The text of `choices` after the run of an engine, if it is drawn in this form.
fn state_in_form(
    alloc: Global,
    lines: &StatementLines,
    engine: &Engine,
    form: Form,
) -> Result<TextBuffer, NoMemory> {
    match form {
        Form::Picture => choices_text(alloc, lines, engine),
        Form::Trace | Form::Lanes => Ok(TextBuffer::new(alloc)),
    }
}

// The answer that shows the steps of a text of `trace` in a form.
fn in_form(
    alloc: Global,
    form: Form,
    selection: Selection,
    steps: Steps,
) -> Result<Answer, NoMemory>
    ensures { IfOk result (IsInForm form steps.illegal (text_in steps.text) steps.verdict) }
{
    let verdict = steps.verdict;
    let illegal = steps.illegal;
    let text = match form {
        Form::Trace => steps.text.into_bytes(),
        Form::Lanes => lanes(alloc, steps.text.as_slice(), selection)?,
        Form::Picture => picture(
            alloc,
            steps.text.as_slice(),
            steps.state.as_slice(),
            selection,
        )?,
    };
    Ok(Answer::Shown {
        text,
        verdict,
        illegal,
    })
}

// Appends the line that names an entry which is not legal, if there is one.
fn push_notice(text: &mut TextBuffer, illegal: Option<u32>) -> Result<(), NoMemory>
    ensures { Appends text.old text.new (notice illegal) result }
{
    match write_notice(illegal, text) {
        Ok(()) => Ok(()),
        Err(Failed) => Err(NoMemory),
    }
}
