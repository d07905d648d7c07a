//! What an event changes in what is kept of the processes.

ghost use Rattle.std.specs.Prelude.{◌≡◌, ℕ, ◌&&◌, ◌||◌, if◌then◌else◌, OnOk, nat_eq};
ghost use Rattle.std.specs.Ordering.{nat_cmp};
ghost use Rattle.std.specs.BTreeMap.{get};
ghost use Rattle.pct_laws.specs.KnownThreads.{makes_process};
ghost use Rattle.pct_laws.specs.ProcessEnds.{exit_after, status_after};
ghost use Rattle.pct_laws.specs.ProcessLaw.{is_stop, reaps_process};
ghost use Rattle.pct_process_monitors.specs.ProcessSets.{has_process, has_child};

use pct_io::NoMemory;
use pct_model::{Event, What};
use std::collections::{BTreeMap, BTreeSet};

/// Whether an event is a stop.
pub fn is_stop(what: What) -> bool
    ensures { result ≡ is_stop what }
{
    match what {
        What::Stopped(_) => true,
        _ => false,
    }
}

/// An event changes the status with which its process ended.
pub fn change_status(statuses: &mut BTreeMap<u32, u32>, event: Event) -> Result<(), NoMemory>
    ensures { OnOk result ((q : ℕ) → get nat_cmp statuses.new q ≡ (if nat_eq event.pid q then status_after event.what (get nat_cmp statuses.old q) else get nat_cmp statuses.old q)) }
{
    match event.what {
        What::ProcessEnded(status) => {
            statuses.insert(event.pid, status)?;
            Ok(())
        }
        _ => Ok(()),
    }
}

/// An event changes the exit value of its process.
pub fn change_exit(exits: &mut BTreeMap<u32, u32>, event: Event) -> Result<(), NoMemory>
    ensures { OnOk result ((q : ℕ) → get nat_cmp exits.new q ≡ (if nat_eq event.pid q then exit_after event.what (get nat_cmp exits.old q) else get nat_cmp exits.old q)) }
{
    match event.what {
        What::ExitBegun(value) => {
            exits.insert(event.pid, value)?;
            Ok(())
        }
        _ => Ok(()),
    }
}

/// The process of an event is present, and the one that it makes.
pub fn add_present(present: &mut BTreeSet<u32>, event: Event) -> Result<(), NoMemory>
    ensures { OnOk result ((q : ℕ) → has_process present.new q ≡ (makes_process q event.what || (nat_eq event.pid q || has_process present.old q))) }
{
    present.insert(event.pid)?;
    match event.what {
        What::Forked(child) => {
            present.insert(child)?;
            Ok(())
        }
        _ => Ok(()),
    }
}

/// A fork makes a child of its process.
pub fn add_child(children: &mut BTreeSet<(u32, u32)>, event: Event) -> Result<(), NoMemory>
    ensures { OnOk result ((p q : ℕ) → has_child children.new p q ≡ ((nat_eq event.pid p && makes_process q event.what) || has_child children.old p q)) }
{
    match event.what {
        What::Forked(child) => {
            children.insert((event.pid, child))?;
            Ok(())
        }
        _ => Ok(()),
    }
}

/// An event reaps a process.
pub fn add_reaped(reaped: &mut BTreeSet<u32>, what: What) -> Result<(), NoMemory>
    ensures { OnOk result ((q : ℕ) → has_process reaped.new q ≡ (reaps_process q what || has_process reaped.old q)) }
{
    match what {
        What::Reaped(child, _) => {
            reaped.insert(child)?;
            Ok(())
        }
        _ => Ok(()),
    }
}
