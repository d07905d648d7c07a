//! What the next step of a thread does, by its choices and by the transition of each; whether a thread is ready, by what it waits
//! for. Nothing is changed here.
#![tactic(auto)]

mod choice_table;
mod process_reads;
mod process_steps;
mod readiness;
mod stop_table;
mod transition_table;

pub use process_reads::{count_in, has_ended, is_unowned, next_on, once_in, record_of};
pub use process_steps::{
    choice_at, choice_by, choice_count, has_choice, transition_by_number, transition_if_offered,
};
pub use readiness::{ReadyWhen, is_met, ready_when};
