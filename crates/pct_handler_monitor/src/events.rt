//! What an event says of handlers.

ghost use Rattle.std.specs.Prelude.{◌≡◌, option_to_list};
ghost use Rattle.pct_laws.specs.RanAll.{begins_to_end, handler_run};

use pct_model::What;

/// Whether by an event a thread begins to end.
pub fn begins_to_end(what: What) -> bool
    ensures { result ≡ begins_to_end what }
{
    match what {
        What::EndingExit(_) => true,
        What::EndingCanceled => true,
        What::EndingInWait(_, _) => true,
        _ => false,
    }
}

/// The cleanup handler that runs by an event: its function and its argument.
pub fn handler_run(what: What) -> Option<(u32, u32)>
    ensures { option_to_list result ≡ handler_run what }
{
    match what {
        What::HandlerRun(f, a) => Some((f, a)),
        _ => None,
    }
}
