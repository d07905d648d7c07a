//! The theorems on what is shown of a run.

ghost use Rattle.pct_view_laws.specs.Listed.{BlockedThreadsWait, ListsLegalEntries};
ghost use Rattle.pct_view_laws.specs.ListedProcesses.{ProcessesAreSeen};
ghost use Rattle.pct_view_laws.specs.TracedSteps.{TracesRuns};
ghost use Rattle.pct_view_laws.specs.SeenViews.{ListedIsSeen, StartIsSeen};

/// An empty function whose contract states the theorems. After each run, the entries that are listed are the legal ones with worker 1, and no
/// others. A thread that waits cannot go on, and one without a choice waits. The steps of a run have its entries and its events, in order. What
/// is listed of a state, its threads and its processes, and where a step begins in it, depends only on what an engine keeps of the state.
pub fn views_show_runs()
    ensures legal { ListsLegalEntries }
    ensures waits { BlockedThreadsWait }
    ensures traces { TracesRuns }
    ensures listed { ListedIsSeen }
    ensures processes { ProcessesAreSeen }
    ensures starts { StartIsSeen }
{}
