//! The law of joins.

ghost use Rattle.std.specs.Prelude.{◌≡◌};
ghost use Rattle.pct_audit.specs.JoinTests.{may_name};
ghost use Rattle.pct_audit.specs.Rows.{row_of};

use crate::rows::Rows;
use pct_model::{Event, What};

/// Whether the law of joins allows an event.
pub fn may_name(rows: &Rows, event: Event) -> bool
    ensures { result ≡ may_name (row_of rows.now) event.what event.pid event.tid }
{
    let pid = event.pid;
    match event.what {
        What::Joined(id, value) => rows.at(pid, id).can_be_joined(value)
            && rows.at(pid, event.tid).joining,
        What::Request(id) => rows.at(pid, id).is_live(),
        What::Detached(id) => rows.at(pid, id).is_live(),
        _ => true,
    }
}
