//! The tests of what follows the end of a thread.

ghost use Rattle.std.specs.Prelude.{◌≡◌};
ghost use Rattle.pct_laws.specs.AfterEnd.{begins_exit_with_0, is_of_exit};

use pct_model::What;

/// Whether the event is that exit begins with 0.
pub(crate) fn begins_exit_with_0(what: What) -> bool
    ensures { result ≡ begins_exit_with_0 what }
{
    match what {
        What::ExitBegun(value) => value == 0,
        _ => false,
    }
}

/// Whether the event is one of a thread that exits its process.
pub(crate) fn is_of_exit(what: What) -> bool
    ensures { result ≡ is_of_exit what }
{
    matches!(
        what,
        What::Emit(_)
            | What::ExitRun(_)
            | What::Acquired(_)
            | What::Released(_)
            | What::ProcessEnded(_)
            | What::Stopped(_)
    )
}
