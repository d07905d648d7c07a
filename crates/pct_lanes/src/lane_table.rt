//! The table of a run: a line for each step, and a column for each thread.

use crate::page::Page;
use crate::run::{Row, Run};
use crate::selection::Selection;
use pct_io::NoMemory;
use std::alloc::Global;

/// The lanes of a trace: a line with `step` and the `PID.TID` of each thread, in the order in which they come into being; then a
/// line for each step, with its number and for each thread a field; then the lines of the trace without a tab. The fields of a
/// line are separated by one tab.
///
/// The thread that makes the step has its events as its field; if there are none, the statement; if there is none, where it was.
/// Another thread has `|` if it is there at this step, else `.`. A thread is there from the step that makes it to the step with
/// which it or its process ends.
/// What the selection leaves out is not shown.
pub fn lanes(alloc: Global, trace: &[u8], selection: Selection) -> Result<Vec<u8>, NoMemory> {
    let run = Run::parse(alloc, trace, &[], selection)?;
    let mut table = Page::new(alloc);
    // The table has at least two bytes for each step and thread that are shown. They are asked for at once, so that a table which cannot
    // fit into memory is refused before it is begun.
    table.reserve(
        run.shown_rows
            .saturating_mul(run.shown_threads)
            .saturating_mul(2),
    )?;
    push_lines(&mut table, &run);
    table.finish()
}

fn push_lines(table: &mut Page, run: &Run) {
    table.push("step");
    for thread in run.threads.iter() {
        if thread.is_shown {
            table.fill("\t%.%", &[thread.id.process, thread.id.thread]);
        }
    }
    table.push("\n");
    for (index, row) in run.rows.iter().enumerate() {
        if row.is_shown {
            table.push(row.step.number);
            push_fields(table, run, index, row);
        }
    }
    for line in run.closing.iter() {
        table.push(line);
        table.push("\n");
    }
}

fn push_fields(table: &mut Page, run: &Run, index: usize, row: &Row) {
    for (at, thread) in run.threads.iter().enumerate() {
        if !thread.is_shown {
            continue;
        }
        table.push("\t");
        table.push(if row.thread == Some(at) {
            row.step.summary()
        } else if thread.is_there(index) {
            "|"
        } else {
            "."
        });
    }
    table.push("\n");
}
