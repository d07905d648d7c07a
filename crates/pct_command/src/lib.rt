//! The top call: `command` reads words and an input. It runs the script of the input, replays a schedule of it, counts what happens under
//! many seeds, writes its canonical text, judges the events in a report by rules, or audits them. Without an input it writes the table of
//! cancellation points, or runs a generated script.
#![tactic(auto)]

mod answer_writer;
mod answering;
mod answers;
mod arguments;
mod demo_command;
mod dispatch;
mod in_memory;
mod law;
mod replay_command;
mod run_command;
mod sample_command;
mod seeded_run;
mod status;
mod text_sink;
mod words;

pub use answer_writer::write_refusal;
pub use answers::Refusal;
pub use arguments::words_of;
pub use dispatch::command;
pub use in_memory::answer;
pub use law::{answers_are_one, first_seeds_reproduce, outcomes_are_one, reports_pass_audit};
pub use pct_model::RunOptions;
pub use seeded_run::continue_seeded;
pub use status::Status;
pub use words::{Job, Usage, read_words};
