//! A function without effect whose contract states the theorem on audits of the reports of runs. It calls the one whose theorem it uses.

ghost use Rattle.pct_audit_laws.specs.RunsPass.{ReportsOfRunsPass};

use pct_read_laws::reports_of_runs_are_lawful;

/// The report of every run is read back, with the configuration of the run, as many events as the run has, and an event line for each; and
/// an audit of the events that are read finds no fault.
pub fn reports_of_runs_pass()
    ensures { ReportsOfRunsPass }
{
    reports_of_runs_are_lawful();
}
