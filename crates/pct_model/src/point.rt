//! Cancellation points (XSH 2.9.5.2).

ghost use Rattle.std.specs.Prelude.{◌≡◌};
ghost use Rattle.pct_model.specs.Points.{kind_text, wait_text};

/// The index of pthread_cond_timedwait in the table of cancellation points.
pub const COND_TIMEDWAIT_POINT: u32 = 20;
/// The index of pthread_cond_wait in the table of cancellation points.
pub const COND_WAIT_POINT: u32 = 21;
/// The index of pthread_join in the table of cancellation points.
pub const JOIN_POINT: u32 = 22;
/// The index of pthread_testcancel in the table of cancellation points.
pub const TESTCANCEL_POINT: u32 = 23;
/// The index of sem_timedwait in the table of cancellation points.
pub const SEM_TIMEDWAIT_POINT: u32 = 31;
/// The index of sem_wait in the table of cancellation points.
pub const SEM_WAIT_POINT: u32 = 32;
/// The index of close in the table of cancellation points.
pub const CLOSE_POINT: u32 = 3;
/// The index of open in the table of cancellation points.
pub const OPEN_POINT: u32 = 14;
/// The index of pause in the table of cancellation points.
pub const PAUSE_POINT: u32 = 16;
/// The index of read in the table of cancellation points.
pub const READ_POINT: u32 = 25;
/// The index of sleep in the table of cancellation points.
pub const SLEEP_POINT: u32 = 40;
/// The index of write in the table of cancellation points.
pub const WRITE_POINT: u32 = 45;
/// The index of waitpid in the table of cancellation points.
pub const WAITPID_POINT: u32 = 44;

/// Whether a function shall be a cancellation point (required), or may be one (optional).
#[derive(Clone, Copy)]
pub enum PointKind {
    Required,
    Optional,
}

/// What a thread suspended at the point waits for.
#[derive(Clone, Copy)]
pub enum PointWait {
    /// Nothing: a thread is never suspended there.
    NoWait,
    /// An event outside the script, which may occur at any time.
    Outside,
    /// A signal, which is never delivered.
    Never,
    /// An action of another thread or process of the script.
    Inside,
}

/// A cancellation point: its index in the table of points, its kind, and its wait.
#[derive(Clone, Copy)]
pub struct Point {
    pub index: u32,
    pub kind: PointKind,
    pub wait: PointWait,
}

impl PointKind {
    /// The word of the kind in the table of points.
    pub fn text(self) -> &'static [u8]
        ensures { result.now ≡ kind_text self }
    {
        match self {
            PointKind::Required => b"required",
            PointKind::Optional => b"optional",
        }
    }
}

impl PointWait {
    /// The word of the wait in the table of points.
    pub fn text(self) -> &'static [u8]
        ensures { result.now ≡ wait_text self }
    {
        match self {
            PointWait::NoWait => b"no_wait",
            PointWait::Outside => b"outside",
            PointWait::Never => b"never",
            PointWait::Inside => b"inside",
        }
    }
}
