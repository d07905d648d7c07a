//! The program that inspects runs: `inspect` reads words and an input. `continue` goes on with a run that begins with the entries
//! of a given prefix of a schedule, as a seed chooses. `trace`, `choices`, `states`, `lanes` and `picture` show the run of these entries.
//! `tally` counts how the runs of a script under the seeds of a range end, and `sum` adds such tallies. `survey` counts of how many runs of a
//! script under the seeds from 1 on the rules of an expectation hold. `judge` says for each law that is about events alone whether the
//! events of a report keep it.
#![tactic(auto)]

mod answer;
mod answer_writer;
mod answering;
mod continuing;
mod inspecting;
mod judging;
mod law;
mod resources;
mod selecting;
mod showing;
mod surveying;
mod tallying;
mod words;

pub use inspecting::inspect;
pub use law::{inspections_are_one, reports_keep_laws, sums_are_tallies};
pub use pct_tallies::Seeds;
pub use words::{Form, Inspection, View, read_inspection};
