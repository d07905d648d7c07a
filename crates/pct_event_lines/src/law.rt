//! An empty function whose contract states the theorem on event lines.

ghost use Rattle.pct_event_lines.specs.EventLines.{EventLinesAreReadBack};

/// The lines of a script's events are read back as these events, but for the numbers of names: a name has the number of
/// different names of its kind before its first occurrence, and no longer its index in the script. So different items have
/// different numbers. The events have to name items of the script and cancellation points, by numbers of 32 bits, and ids
/// from 1.
pub fn event_lines_are_read_back()
    ensures { EventLinesAreReadBack }
{}
