//! The theorems on the schedule and the prefix in a text.

ghost use Rattle.pct_schedule.specs.PrefixLaws.{SchedulesArePrefixes, PrefixFaultsAreScheduleFaults, OnlyTheEndIsMissing};

/// An empty function whose contract states the theorems. A text that `read_schedule` accepts is read the same by
/// `read_prefix`. A text that `read_prefix` refuses is refused by `read_schedule`, at the same line with the same reason.
/// Where `read_prefix` accepts a text with at least one byte and `read_schedule` refuses it, the last line is missing: the
/// refused line is the one after all lines of the text, and the reason is `BadEnd`.
pub fn schedules_are_prefixes()
    ensures same { SchedulesArePrefixes }
    ensures refused { PrefixFaultsAreScheduleFaults }
    ensures unended { OnlyTheEndIsMissing }
{}
