//! How a slot stands, as far as other threads of its process ask for it.

ghost use Rattle.std.specs.Prelude.{◌≡◌, ◌<◌, None};
ghost use Rattle.pct_actions.specs.Stands.{stand_of, stand_by, with_stand};

use pct_process::{Standing, Standings, standing_of};
use pct_threads::Thread;

/// How the thread on a slot stands, and whether there is one that has not ended.
#[derive(Clone, Copy)]
pub(crate) struct Stand {
    pub standing: Standing,
    pub unfinished: bool,
}

impl Stand {
    ghost use Rattle.std.specs.Prelude.{◌≡◌, None};
    ghost use Rattle.pct_actions.specs.Stands.{stand_of, stand_by};

    /// That of a slot on which a thread has this record.
    pub(crate) fn of(thread: &Thread) -> Stand
        ensures { result ≡ stand_by thread.now }
    {
        Stand {
            standing: standing_of(thread.status),
            unfinished: !thread.ended,
        }
    }

    /// That of a free slot.
    pub(crate) fn free() -> Stand
        ensures { result ≡ stand_of None }
    {
        Stand {
            standing: Standing::Other,
            unfinished: false,
        }
    }
}

/// Writes how a slot, which must be below 64, stands. With `None` nothing changes.
pub(crate) fn put_stand(standings: &mut Standings, slot: u32, stand: Option<Stand>)
    requires { slot < 64 }
    ensures { standings.new ≡ with_stand slot stand standings.old }
{
    if let Some(stand) = stand {
        standings.put(slot, stand.standing, stand.unfinished);
    }
}
