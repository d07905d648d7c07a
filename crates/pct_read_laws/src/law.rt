//! A function without effect whose contract states the theorem on the reports of runs. It calls those whose theorems it uses.

ghost use Rattle.pct_read_laws.specs.RunsRead.{ReportsOfRunsAreLawful};

use pct_ending_laws::runs_end_threads;
use pct_event_bounds::{numbers_of_runs_fit, runs_name_items};
use pct_event_laws::{laws_are_of_events, renaming_changes_no_law};
use pct_event_lines::event_lines_are_read_back;
use pct_report_laws::reports_are_read;

/// The report of every run is read back, with the configuration of the run, as many events as the run has, and an event line for each; and
/// the events that are read keep the laws of events.
pub fn reports_of_runs_are_lawful()
    ensures { ReportsOfRunsAreLawful }
{
    runs_end_threads();
    laws_are_of_events();
    renaming_changes_no_law();
    runs_name_items();
    numbers_of_runs_fit();
    event_lines_are_read_back();
    reports_are_read();
}
