//! The text of `states`: the line of the verdict, and the processes that have not ended, each with its threads that have not ended.

ghost use Rattle.std.specs.Prelude.{◌≡◌, ◌<◌, ◌≤◌, [], filter, flat_map, length, slice_get, IfOk};
ghost use Rattle.std.specs.Option.{option_map_or};
ghost use Rattle.pct_engine.specs.EngineStates.{IsRunOf};
ghost use Rattle.pct_engine_laws.specs.Seen.{SeenProcess, seen, threads_on};
ghost use Rattle.pct_place.specs.ShownProcesses.{ShowsProcess};
ghost use Rattle.pct_model.specs.OtherProcesses.{Family};
ghost use Rattle.pct_model.specs.Run.{Run};
ghost use Rattle.pct_process.specs.ProcessViews.{slot_on};
ghost use Rattle.pct_step_context.specs.Programs.{ProgramValue};
ghost use Rattle.pct_view_laws.specs.Listed.{is_unended};
ghost use Rattle.pct_view_laws.specs.ListedProcesses.{ListedProcess, processes_seen};
ghost use Rattle.pct_view_texts.specs.TextBuffers.{text_in, Appends};
ghost use Rattle.pct_view_texts.specs.ListedLines.{process_lines_seen, values_lines};
ghost use Rattle.pct_view_texts.specs.States.{process_lines, states_text};

use crate::process::{push_process_line, push_thread_values};
use crate::verdict::push_verdict;
use crate::{Source, TextBuffer};
use pct_engine::Engine;
use pct_io::NoMemory;
use pct_model::MAX_PROCESSES;
use pct_place::ProcessView;
use pct_process::ProcessState;
use pct_script_lines::StatementLines;
use pct_views::state_on;
use std::alloc::Global;

/// The text of `states` in the state of a run: the line of the verdict, and for each process that has not ended a line with its values, and
/// below it one for each of its threads that has not ended. `lines` are the lines of the text of the engine's script. `NoMemory` is returned
/// if memory runs out.
pub fn states_text(
    alloc: Global,
    lines: &StatementLines,
    engine: &Engine,
) -> Result<TextBuffer, NoMemory>
    ensures { (after : Run) → IsRunOf engine.now after → IfOk result (λ text. text_in text ≡ states_text lines.now engine.now.script engine.now.config after.world (length engine.now.history)) }
{
    let mut text = TextBuffer::new(alloc);
    push_verdict(&mut text, engine.verdict())?;
    let source = Source {
        script: engine.script(),
        lines,
    };
    push_processes(alloc, &mut text, source, engine)?;
    Ok(text)
}

// Appends the lines of all processes that have not ended.
fn push_processes(
    alloc: Global,
    text: &mut TextBuffer,
    source: Source,
    engine: &Engine,
) -> Result<(), NoMemory>
    ensures { (after : Run) → IsRunOf engine.now after
        → Appends text.old text.new (flat_map (process_lines_seen source.entry.lines.now source.entry.script.now) (seen engine.now.config.slots after.world).processes) result }
{
    for index in 0..MAX_PROCESSES {
        push_process_at(alloc, text, source, engine, index)?;
    }
    Ok(())
}

// Appends the lines of the process at an index, if there is one and it has not ended.
fn push_process_at(
    alloc: Global,
    text: &mut TextBuffer,
    source: Source,
    engine: &Engine,
    index: usize,
) -> Result<(), NoMemory>
    ensures few { (after : Run) → IsRunOf engine.now after → length (seen engine.now.config.slots after.world).processes ≤ MAX_PROCESSES }
    ensures text { (after : Run) → IsRunOf engine.now after
        → Appends text.old text.new (option_map_or (process_lines_seen source.entry.lines.now source.entry.script.now) (slice_get (seen engine.now.config.slots after.world).processes index) []) result }
{
    match engine.process(index) {
        None => Ok(()),
        Some(process) => push_process(alloc, text, source, process),
    }
}

// Appends the lines of a process, if it has not ended.
fn push_process(
    alloc: Global,
    text: &mut TextBuffer,
    source: Source,
    process: ProcessView,
) -> Result<(), NoMemory>
    ensures { (program : ProgramValue) (family : Family) (p : SeenProcess) → ShowsProcess program family p process.entry
        → Appends text.old text.new (process_lines_seen source.entry.lines.now source.entry.script.now p) result }
{
    if process.has_ended {
        return Ok(());
    }
    push_process_line(alloc, text, source.script, process.pid, process.state)?;
    push_threads(alloc, text, source, process.pid, process.state)
}

// Appends the lines of the threads of a process with this id and these data.
fn push_threads(
    alloc: Global,
    text: &mut TextBuffer,
    source: Source,
    pid: u32,
    state: &ProcessState,
) -> Result<(), NoMemory>
    ensures { (p : ListedProcess) → p.pid ≡ pid → p.shared ≡ state.now.shared
        → Appends text.old text.new (flat_map (values_lines source.entry.lines.now source.entry.script.now p) (filter is_unended (threads_on state.now.slots))) result }
{
    for slot in 0..state.slot_count() {
        push_slot(alloc, text, source, pid, state, slot)?;
    }
    Ok(())
}

// Appends the line of the thread on a slot, if there is one that has not ended.
fn push_slot(
    alloc: Global,
    text: &mut TextBuffer,
    source: Source,
    pid: u32,
    state: &ProcessState,
    slot: u32,
) -> Result<(), NoMemory>
    requires { slot < length state.now.slots }
    ensures { (p : ListedProcess) → p.pid ≡ pid → p.shared ≡ state.now.shared
        → Appends text.old text.new (flat_map (values_lines source.entry.lines.now source.entry.script.now p) (filter is_unended (slot_on state.now.slots slot).here)) result }
{
    match state_on(state, slot) {
        None => Ok(()),
        Some(thread) => push_thread_values(alloc, text, source, pid, &thread),
    }
}
