//! The theorems on what an engine keeps of a state of the machine, and on runs that go on.

ghost use Rattle.pct_engine_laws.specs.SeenLaws.{TransitionIsSeen, AfterIsSeen, VerdictIsSeen, ChosenIsSeen};
ghost use Rattle.pct_engine_laws.specs.RunLaws.{StepsIfLegal, GoesOnWhileOpen};
ghost use Rattle.pct_engine_laws.specs.ThreadCounts.{NextIdIsSeen, FewThreadsMade};
ghost use Rattle.pct_engine_laws.specs.KeyCounts.{FewKeysMade};
ghost use Rattle.pct_engine_laws.specs.ProcessCounts.{FewProcessesMade};
ghost use Rattle.pct_engine_laws.specs.RunNumbers.{RunNumbersFit};

/// An empty function whose contract states the theorems. The processes that are not reaped, with the threads that hold a slot,
/// decide which transition an entry takes, the verdict, and the choice of the scheduler. What is kept of a state after a
/// transition depends only on what was kept before it. An entry makes a step exactly if it is legal, and its step is then that of the
/// legal entry. A run can go on by an entry exactly if its verdict is `Open` and the
/// entry is legal in the state after the run. The id of the next thread on a slot follows from the number of threads ever made on
/// it, and a run makes at most one thread for each entry beside the initial one. On each place, a run makes at most one key of
/// thread-specific data for each entry. A run makes at most one process for each entry beside the first one. The numbers in the
/// entries of a run have 32 bits.
pub fn seen_parts_decide()
    ensures transition { TransitionIsSeen }
    ensures after { AfterIsSeen }
    ensures verdict { VerdictIsSeen }
    ensures chosen { ChosenIsSeen }
    ensures step { StepsIfLegal }
    ensures open { GoesOnWhileOpen }
    ensures next_id { NextIdIsSeen }
    ensures few { FewThreadsMade }
    ensures few_keys { FewKeysMade }
    ensures few_processes { FewProcessesMade }
    ensures numbers { RunNumbersFit }
{}
