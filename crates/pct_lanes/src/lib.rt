//! Two views of a run, made from its trace: `lanes` is a table with a column for each thread, and `picture` is the same as SVG.
//! A trace, which is ASCII text, passes trace_lines, effects, and run with thread and waits, which note what a selection shows.
//! lane_table writes the table. The picture is made by layout and vertical, which place its parts, and by drawing, lanes_drawing
//! and steps_drawing. Both are written to a page.
#![tactic(auto)]

mod caption;
mod drawing;
mod effects;
mod kinds;
mod lane_table;
mod lanes_drawing;
mod layout;
mod page;
mod run;
mod selection;
mod steps_drawing;
mod thread;
mod thread_id;
mod trace_lines;
mod vertical;
mod waits;

pub use drawing::picture;
pub use lane_table::lanes;
pub use selection::Selection;
