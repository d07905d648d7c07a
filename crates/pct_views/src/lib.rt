//! What is shown of a run: its threads that have not ended, with what each waits for and its choices, and with the values of its variables;
//! and where the step of an entry begins.
#![tactic(auto)]

mod records;
mod start;
mod thread_state;
mod thread_view;
mod waiting;

pub use pct_view_laws::{Position, StepStart, Wait, views_show_runs};
pub use start::start_of;
pub use thread_state::{ThreadState, state_on};
pub use thread_view::{ThreadView, choice_count, choice_on, thread_on};
