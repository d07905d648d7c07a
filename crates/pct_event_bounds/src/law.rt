//! The theorems on what the events of runs name.

ghost use Rattle.pct_event_bounds.specs.EventBounds.{RunsNameItems, ScriptsHaveNames};
ghost use Rattle.pct_event_bounds.specs.EventNumbers.{NumbersOfRunsFit};

/// An empty function whose contract states a theorem: each index in an event of a run is that of an item of its kind in the script, or of a
/// cancellation point in the table; and the ids of its process and its thread, and of the thread or the process that it makes, are not 0.
pub fn runs_name_items()
    ensures { RunsNameItems }
{}

/// An empty function whose contract states a theorem: the items of each kind in a script have valid names, and no two have the same.
pub fn scripts_have_names()
    ensures { ScriptsHaveNames }
{}

/// An empty function whose contract states a theorem: each number in an event of a run, other than the indexes of items, has 32 bits.
pub fn numbers_of_runs_fit()
    ensures { NumbersOfRunsFit }
{}
