//! A process of a machine, as it is shown.

use pct_process::ProcessState;
use pct_step_context::Surroundings;

/// A process, as it is shown: its id, whether it has ended, its data, and what the steps of its threads depend on beside it.
#[derive(Clone, Copy)]
pub struct ProcessView<'a> {
    pub pid: u32,
    pub has_ended: bool,
    pub state: &'a ProcessState,
    pub around: Surroundings<'a>,
}
