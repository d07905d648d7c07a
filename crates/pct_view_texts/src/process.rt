//! The lines of a process and of its threads, with their values.

ghost use Rattle.std.specs.Prelude.{◌≡◌, ◌<◌, [], ◌∷◌, ◌++◌, length};
ghost use Rattle.pct_model.specs.declared.keyword.Keyword.TheVariants as keyword;
ghost use Rattle.pct_model.specs.EventTexts.{either};
ghost use Rattle.pct_model.specs.Report.{thread_text};
ghost use Rattle.pct_model.specs.World.{Thread};
ghost use Rattle.pct_view_laws.specs.ListedProcesses.{ListedProcess};
ghost use Rattle.pct_view_texts.specs.Fields.{field_text, fields_text};
ghost use Rattle.pct_view_texts.specs.States.{process_fields, values_fields};
ghost use Rattle.pct_view_texts.specs.TextBuffers.{Appends};
ghost use Rattle.pct_views.specs.ShownStates.{ShowsState};

use crate::frames::push_frames;
use crate::position::push_position;
use crate::registered::push_registered;
use crate::specific::{push_keys, push_specific};
use crate::values::{push_globals, push_mutexes, push_semaphores};
use crate::{Source, TextBuffer};
use pct_io::NoMemory;
use pct_model::{Keyword, Script};
use pct_process::ProcessState;
use pct_views::ThreadState;
use std::alloc::Global;

/// Appends the line of a process with this id and these data.
pub(crate) fn push_process_line(
    alloc: Global,
    text: &mut TextBuffer,
    script: &Script,
    pid: u32,
    state: &ProcessState,
) -> Result<(), NoMemory>
    ensures { (p : ListedProcess) → p.pid ≡ pid → p.shared ≡ state.now.shared → Appends text.old text.new (fields_text (process_fields script.now p)) result }
{
    text.push_number(pid)?;
    push_globals(
        alloc,
        text,
        script.globals.as_slice(),
        state.globals.as_slice(),
    )?;
    push_mutexes(
        alloc,
        text,
        pid,
        script.mutexes.as_slice(),
        state.owners.as_slice(),
    )?;
    push_semaphores(alloc, text, script.sems.as_slice(), state.counts.as_slice())?;
    push_keys(alloc, text, script, &state.keys)?;
    push_registered(alloc, text, script, pid, state)?;
    text.push(b"\n")
}

/// Appends the line of a thread of a process with this id.
pub(crate) fn push_thread_values(
    alloc: Global,
    text: &mut TextBuffer,
    source: Source,
    pid: u32,
    thread: &ThreadState,
) -> Result<(), NoMemory>
    requires { thread.now.slot < length thread.now.keys.now.rows }
    ensures { (p : ListedProcess) (t : Thread) → p.pid ≡ pid → ShowsState p.shared.keys t thread.now → Appends text.old text.new (fields_text (values_fields source.entry.lines.now source.entry.script.now p t)) result }
{
    text.push_dotted(pid, thread.tid)?;
    text.push(b"\t")?;
    push_position(text, source, thread.position)?;
    push_frames(alloc, text, source.script, &thread.frames)?;
    push_specific(alloc, text, thread.keys, thread.slot)?;
    push_detached(text, thread.detached)
}

// Appends a tab, whether a thread is detached, and the end of the line.
fn push_detached(text: &mut TextBuffer, detached: bool) -> Result<(), NoMemory>
    ensures { Appends text.old text.new (9 ∷ either keyword.Detached keyword.Joinable detached ++ 10 ∷ []) result }
{
    let word = if detached {
        Keyword::Detached
    } else {
        Keyword::Joinable
    };
    text.push(b"\t")?;
    text.push(word.text())?;
    text.push(b"\n")
}
