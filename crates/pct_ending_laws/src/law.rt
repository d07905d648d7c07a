//! The theorems on how threads end.

ghost use Rattle.pct_ending_laws.specs.EndingLaws.{RunsKeepLaws, StatesAreKept};

/// An empty function whose contract states the theorems. Of every script, configuration and schedule: the run keeps the laws,
/// and the state after the run keeps the invariant. By the laws:
///
/// - No cleanup handler is removed twice, the newest is removed first, by a pop or as the thread ends, and a thread ends once,
///   with none left. The handlers that ran in a thread that has ended are all those that were open as it began to end. After
///   its end a thread only exits its process, as the last thread does.
/// - After the handlers come the passes over destructors, no more than their limit; no key has two events of its destructor in
///   a pass, a pass goes on until no key is left in it, and values with destructors are left only after the last pass.
/// - Each event that a function is called comes with its call, with its argument, and the call has returned before the next
///   stage of an end.
/// - A thread is canceled only by a request, with cancelability enabled, at a cancellation point or with the asynchronous type;
///   with a request to act upon it calls no function that shall be a cancellation point.
/// - A running thread makes the events of its next statement, with the values of its operands, unless it acts upon a request or
///   the statement is a stop; and a call suspends it for what the operands name.
/// - A call that has a result stores it in the variable that its statement names, as do `set` and `add`: the number that its event
///   reports, or one of the state before. Each other global keeps its value, and so does each other local of a function that goes on.
/// - pthread_setspecific gives its thread the value of the operand; a new thread has NULL for each key, and each thread for a new key;
///   a step changes no other value of another thread, and no thread of another process.
/// - A function is called at its first statement, on top of its callers, and executes its statements in turn; it goes by a return of its
///   own, or with all others as its thread begins to end or to exit its process; and a step changes no frame of another thread. From
///   the call of a handler as it ends to the next one, a thread is in the handler, unless that has returned or exited the process.
/// - pthread_create makes one thread, which executes its start routine with the argument, and fork one process, with a copy of the
///   state of its parent and the replica of the thread that called it; no other step makes a thread or a process.
/// - fork calls the fork handlers that were registered at its call: the prepare handlers, the newest first, then the parent and the
///   child handlers, the oldest first. It makes a process, and returns, with none of them left to call.
/// - Each join that returns gets the value of a thread that has ended, no thread is joined twice or while it is detached, and no
///   request and no detach names a thread that is not known, or that has both ended and been joined or detached.
/// - Each mutex is acquired while no thread owns it, and released by its owner; a condition wait that released its mutex goes on
///   only as its thread acquires it again and returns, or acts upon a request, acquires the mutex and then begins to end; a
///   signal is handed on only directly after a request was acted upon in a wait.
/// - The init routine of a once control is called only while no call of it is in progress and none has returned, it returns in the
///   thread that called it, and a call of pthread_once that does not call it returns after one return of it.
/// - A signal unblocks a thread that waits on its condition variable, if one does, and a broadcast each that does; each goes for the
///   mutex of its wait, and no other thread is unblocked. A thread that a signal unblocked, and that acts upon a request, hands the
///   signal on if another one waits. A step changes nothing of another thread but its status by these events, a request, that it is
///   detached or joined, and its values of a deleted key.
/// - Owners of mutexes, counts of semaphores and once controls change by the events that say so; atexit and pthread_atfork register what
///   they name, unless they fail, and no other step registers anything; each exit takes the newest exit function away as it calls it.
/// - A new thread gets an id that no thread of its process had, on a slot on which each earlier thread has ended and was joined
///   or is detached.
/// - A process makes no event after its end, and is made by one fork, before its first event; exit begins once in it, and the
///   thread that exits it ends it with the low eight bits of its value; and waitpid gives the status of a child once.
pub fn runs_end_threads()
    ensures laws { RunsKeepLaws }
    ensures kept { StatesAreKept }
{}
