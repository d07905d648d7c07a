//! The theorems on the laws of events.

ghost use Rattle.pct_event_laws.specs.EventLaws.{LawsAreOfEvents};
ghost use Rattle.pct_event_laws.specs.Renamed.{RenamingChangesNoLaw, RenamingKeepsLaws};

/// An empty function whose contract states a theorem: a run that keeps the laws of runs keeps those that are about its events alone.
pub fn laws_are_of_events()
    ensures { LawsAreOfEvents }
{}

/// An empty function whose contract states two theorems on events whose functions, mutexes, condition variables, semaphores and once
/// controls have other numbers, where different items of a kind get different ones: each law of events holds of them exactly if it holds
/// of the events as they were, and so they keep the laws if those do.
pub fn renaming_changes_no_law()
    ensures exact { RenamingChangesNoLaw }
    ensures kept { RenamingKeepsLaws }
{}
