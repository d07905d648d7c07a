//! The texts of `trace`, `choices` and `states`, in memory.
#![tactic(auto)]

mod choice;
mod choices;
mod events;
mod frames;
mod handlers;
mod phrases;
mod position;
mod process;
mod registered;
mod source;
mod specific;
mod states;
mod status;
mod step;
mod text_buffer;
mod thread;
mod trace;
mod values;
mod verdict;
mod wait;

pub use choices::choices_text;
pub use source::Source;
pub use states::states_text;
pub use text_buffer::TextBuffer;
pub use trace::{TracedSteps, trace_text};
