//! An empty function whose contract states the theorem on reports.

ghost use Rattle.pct_report_laws.specs.ReportsRead.{ReportsAreRead};

/// A report of a script is read: its configuration, and its event lines, the words of which are those of its events. This
/// holds for every script, each format, all numbers within the limits of a schedule, every verdict, and events that name
/// items of the script and cancellation points, by numbers of 32 bits, and ids from 1.
pub fn reports_are_read()
    ensures { ReportsAreRead }
{}
