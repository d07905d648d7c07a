//! The outcome of an inspection is unique; the sum of tallies is a tally; and the reports of runs keep the laws that `judge` judges by.

ghost use Rattle.pct_inspection.specs.Inspection.{InspectionsAreOne};
ghost use Rattle.pct_inspection.specs.JudgeLaws.{ReportsKeepLaws};
ghost use Rattle.pct_inspection.specs.SumLaws.{SumsAreTallies};

use pct_judge_laws::reports_of_runs_keep_laws;

/// An empty function whose contract states a theorem: words and an input have at most one outcome of `inspect`, which is an exit
/// code and a text. Of `lanes` and `picture`, of whose text nothing is said, they have one exit code.
pub fn inspections_are_one()
    ensures { InspectionsAreOne }
{}

/// An empty function whose contract states a theorem: `sum` of what `tally` writes of an input for two ranges of seeds, the second of which begins
/// right after the first, writes what `tally` writes for the seeds of both, whichever of the two comes first.
pub fn sums_are_tallies()
    ensures { SumsAreTallies }
{}

/// A function without effect whose contract states a theorem: `judge` of the report of a run of a script, if it has at most 16,777,216
/// bytes, answers of each law that the events keep it.
pub fn reports_keep_laws()
    ensures { ReportsKeepLaws }
{
    reports_of_runs_keep_laws();
}
