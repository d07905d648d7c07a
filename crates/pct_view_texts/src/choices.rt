//! The text of `choices`: the line of the verdict, and the threads that have not ended, each with its legal entries.

ghost use Rattle.std.specs.Prelude.{◌≡◌, ◌<◌, ◌≤◌, true, [], ◌∷◌, flat_map, is_some, length, slice_get, IfOk};
ghost use Rattle.std.specs.Option.{option_map_or};
ghost use Rattle.pct_engine.specs.EngineStates.{IsRunOf};
ghost use Rattle.pct_engine_laws.specs.Seen.{SeenProcess, seen};
ghost use Rattle.pct_place.specs.ShownProcesses.{ShowsProcess};
ghost use Rattle.pct_model.specs.OtherProcesses.{Family};
ghost use Rattle.pct_model.specs.Run.{Run};
ghost use Rattle.pct_process.specs.ProcessViews.{thread_on_slot};
ghost use Rattle.pct_step_context.specs.Numbers.{NewNumbersFit};
ghost use Rattle.pct_step_context.specs.Programs.{ProgramValue};
ghost use Rattle.pct_view_laws.specs.Listed.{ListedThread};
ghost use Rattle.pct_view_laws.specs.SeenViews.{listed_process, listed_seen};
ghost use Rattle.pct_views.specs.ShownThreads.{ShowsThread, listed_at};
ghost use Rattle.pct_view_texts.specs.TextBuffers.{text_in, Appends};
ghost use Rattle.pct_view_texts.specs.Choices.{choices_text};
ghost use Rattle.pct_view_texts.specs.ListedLines.{choice_line, entry_lines, goes_on, lines_by, listed_if_some};

use crate::choice::push_entry;
use crate::thread::push_thread;
use crate::verdict::push_verdict;
use crate::{Source, TextBuffer};
use pct_engine::Engine;
use pct_io::NoMemory;
use pct_model::{Alt, Entry, MAX_PROCESSES, Verdict};
use pct_place::ProcessView;
use pct_script_lines::StatementLines;
use pct_views::{ThreadView, choice_count, choice_on, thread_on};
use std::alloc::Global;

/// The text of `choices` in the state of a run: the line of the verdict, and for each thread that has not ended a line, with those of its
/// legal entries with worker 1 below it. `lines` are the lines of the text of the engine's script. `NoMemory` is returned if memory runs out.
pub fn choices_text(
    alloc: Global,
    lines: &StatementLines,
    engine: &Engine,
) -> Result<TextBuffer, NoMemory>
    ensures { (after : Run) → IsRunOf engine.now after → IfOk result (λ text. text_in text ≡ choices_text lines.now engine.now.script engine.now.config after.world (length engine.now.history)) }
{
    let mut text = TextBuffer::new(alloc);
    let verdict = engine.verdict();
    push_verdict(&mut text, verdict)?;
    let listing = Listing {
        source: Source {
            script: engine.script(),
            lines,
        },
        goes_on: goes_on(verdict),
    };
    push_processes(&mut text, listing, engine)?;
    Ok(text)
}

// Which script the threads are of that are listed, and whether its run goes on: after a stop no entry is legal.
#[derive(Clone, Copy)]
struct Listing<'a> {
    source: Source<'a>,
    goes_on: bool,
}

// Whether a run with this verdict was not stopped.
fn goes_on(verdict: Verdict) -> bool
    ensures { result ≡ goes_on verdict }
{
    !matches!(verdict, Verdict::Undefined(_))
}

// Appends the threads of all processes, with their entries if the run goes on.
fn push_processes(text: &mut TextBuffer, listing: Listing, engine: &Engine) -> Result<(), NoMemory>
    requires { (after : Run) × IsRunOf engine.now after }
    ensures { (after : Run) → IsRunOf engine.now after
        → Appends text.old text.new (flat_map (lines_by listing.entry.source.lines.now listing.entry.source.script.now listing.entry.goes_on) (listed_seen engine.now.script engine.now.config (seen engine.now.config.slots after.world))) result }
{
    for index in 0..MAX_PROCESSES {
        push_process(text, listing, engine, index)?;
    }
    Ok(())
}

// Appends the threads of the process at an index, if there is one.
fn push_process(
    text: &mut TextBuffer,
    listing: Listing,
    engine: &Engine,
    index: usize,
) -> Result<(), NoMemory>
    requires { (after : Run) × IsRunOf engine.now after }
    ensures few { (after : Run) → IsRunOf engine.now after → length (seen engine.now.config.slots after.world).processes ≤ MAX_PROCESSES }
    ensures text { (after : Run) → IsRunOf engine.now after
        → Appends text.old text.new (flat_map (lines_by listing.entry.source.lines.now listing.entry.source.script.now listing.entry.goes_on) (listed_if_some engine.now.script engine.now.config (seen engine.now.config.slots after.world) (slice_get (seen engine.now.config.slots after.world).processes index))) result }
{
    match engine.process(index) {
        None => Ok(()),
        Some(process) => push_threads(text, listing, process),
    }
}

// Appends the threads of a process.
fn push_threads(
    text: &mut TextBuffer,
    listing: Listing,
    process: ProcessView,
) -> Result<(), NoMemory>
    requires { NewNumbersFit process.state.now }
    ensures { (program : ProgramValue) (family : Family) (p : SeenProcess) → ShowsProcess program family p process.entry
        → Appends text.old text.new (flat_map (lines_by listing.entry.source.lines.now listing.entry.source.script.now listing.entry.goes_on) (listed_process program.script program.config family p)) result }
{
    for slot in 0..process.state.slot_count() {
        push_slot(text, listing, process, slot)?;
    }
    Ok(())
}

// Appends the thread on a slot of a process, if there is one.
fn push_slot(
    text: &mut TextBuffer,
    listing: Listing,
    process: ProcessView,
    slot: u32,
) -> Result<(), NoMemory>
    requires inside { slot < length process.state.now.slots }
    requires numbers { NewNumbersFit process.state.now }
    ensures { (program : ProgramValue) (family : Family) (p : SeenProcess) → ShowsProcess program family p process.entry
        → Appends text.old text.new (flat_map (lines_by listing.entry.source.lines.now listing.entry.source.script.now listing.entry.goes_on) (listed_at program family p slot)) result }
{
    let Some(view) = thread_on(process, slot) else {
        return Ok(());
    };
    push_thread(text, listing.source, &view)?;
    if listing.goes_on {
        push_entries(text, process, slot, &view)
    } else {
        Ok(())
    }
}

// Appends the legal entries of the thread on a slot of a process.
fn push_entries(
    text: &mut TextBuffer,
    process: ProcessView,
    slot: u32,
    view: &ThreadView,
) -> Result<(), NoMemory>
    requires held { is_some (thread_on_slot process.state.now.slots slot) ≡ true }
    requires numbers { NewNumbersFit process.state.now }
    ensures { (program : ProgramValue) (family : Family) (p : SeenProcess) (l : ListedThread) → ShowsProcess program family p process.entry → listed_at program family p slot ≡ l ∷ [] → ShowsThread l view.now
        → Appends text.old text.new (entry_lines l) result }
{
    for index in 0..choice_count(process, slot) {
        push_entry_by(text, view, choice_on(process, slot, index))?;
    }
    Ok(())
}

// Appends the entry of a thread by a choice, if there is one.
fn push_entry_by(
    text: &mut TextBuffer,
    view: &ThreadView,
    choice: Option<Alt>,
) -> Result<(), NoMemory>
    ensures { Appends text.old text.new (option_map_or (choice_line view.now.pid view.now.tid) choice []) result }
{
    match choice {
        None => Ok(()),
        Some(alt) => {
            let entry = Entry {
                worker: 1,
                pid: view.pid,
                tid: view.tid,
                alt,
            };
            push_entry(text, &entry)
        }
    }
}
