//! The limits of a script and of a run, and the numbers of a run that is given no options. Each limit is the greatest value that is
//! allowed, but for `MIN_PASSES`.

/// Bytes of the program's input.
pub const MAX_INPUT: u32 = 16_777_216;
/// Globals of a script; and mutexes, condition variables, semaphores and once controls, each.
pub const MAX_DECLARED: usize = 32;
/// Functions of a script.
pub const MAX_FUNCTIONS: usize = 64;
/// Statement lines of a script; the closing `end` of a function is one.
pub const MAX_STATEMENTS: usize = 2_000;
/// Locals of a function, its parameter included.
pub const MAX_LOCALS: usize = 8;
/// Frames of a thread.
pub const MAX_FRAMES: usize = 16;
/// Cleanup handlers of a thread.
pub const MAX_HANDLERS: usize = 32;
/// Functions that a process has registered with atexit.
pub const MAX_EXIT_FUNCTIONS: usize = 32;
/// Live keys of thread-specific data of a process, each on a place of its own.
pub const MAX_KEYS: u32 = 128;
/// Registrations of fork handlers of a process (pthread_atfork).
pub const MAX_FORK_HANDLERS: usize = 16;
/// Processes of a run that are not reaped.
pub const MAX_PROCESSES: usize = 8;
/// Initial count of a semaphore.
pub const MAX_COUNT: u32 = 32_767;
/// Workers of a run, and the number of a worker.
pub const MAX_WORKER: u32 = 16;
/// Budget of a run: its number of steps; and turns of a worker.
pub const MAX_BUDGET: u32 = 200_000;
/// The least limit on the passes over the destructors of a thread that ends.
pub const MIN_PASSES: u32 = 4;
/// Limit on the passes over the destructors of a thread that ends.
pub const MAX_PASSES: u32 = 16;
/// Thread slots of a process.
pub const MAX_SLOTS: u32 = 64;
/// Seeds of a sample.
pub const MAX_SEEDS: u32 = 10_000;

/// The budget of a run that is given none.
pub const DEFAULT_BUDGET: u32 = 10_000;
/// The limit on the passes over the destructors of a thread that ends, in a run that is given none.
pub const DEFAULT_PASSES: u32 = 4;
/// The thread slots of a process, in a run that is given no number of them.
pub const DEFAULT_SLOTS: u32 = 64;
/// The seed of a run that is given none.
pub const DEFAULT_SEED: u64 = 1;
/// The workers of a run that is given no number of them.
pub const DEFAULT_WORKERS: u32 = 1;
