//! Empty functions whose contracts state the theorems on schedules: what is written is read back, and a script and a
//! schedule have an input of `replay`.

ghost use Rattle.pct_schedule_laws.specs.ReadBack.{ReportsAreReadBack, RunReportsAreReadBack};
ghost use Rattle.pct_schedule_laws.specs.ReplayInput.{ReplayInputsAreSplit, ReplayInputsExist, RunsHaveInputs, ReadSchedulesHaveInputs};

/// The schedule of a report is read back from the report's text: for every script, each format, all numbers within the
/// limits of a schedule, every list of events, every verdict, and at most as many entries as the budget, with numbers of 32
/// bits, workers of at most 16 and choices that the format has. The schedule of every run is read back from the report of
/// that run.
pub fn reports_are_read_back()
    ensures texts { ReportsAreReadBack }
    ensures runs { RunReportsAreReadBack }
{}

/// Every script and every schedule (numbers within the limits, at most as many entries as the budget, with numbers of 32
/// bits, workers of at most 16 and choices that the format has) have an input of `replay`: the canonical text of the script, the line `%%` and the
/// text of the schedule. It has at most 16,777,216 bytes, and it is split into the script and the schedule again. The
/// schedule of every run is such a schedule, and so is every schedule that is read from a text. Whatever text follows the
/// canonical text and the line `%%`, a whole report among others, the input is split into the canonical text and that text.
pub fn replay_inputs_exist()
    ensures split { ReplayInputsAreSplit }
    ensures exist { ReplayInputsExist }
    ensures runs { RunsHaveInputs }
    ensures read { ReadSchedulesHaveInputs }
{}
