//! A function without effect whose contract states the theorem on what is found in the reports of runs. It calls the one whose theorem it
//! uses.

ghost use Rattle.pct_judge_laws.specs.RunsKeep.{ReportsOfRunsKeepLaws};

use pct_read_laws::reports_of_runs_are_lawful;

/// The report of every run is read back, with the configuration of the run, as many events as the run has, and an event line for each; and
/// each law that is about events alone allows each of the events that are read.
pub fn reports_of_runs_keep_laws()
    ensures { ReportsOfRunsKeepLaws }
{
    reports_of_runs_are_lawful();
}
