//! The other processes, as one process sees them.

ghost use Rattle.std.specs.Prelude.{◌≡◌, ◌+◌, ◌<◌, ◌^◌};
ghost use Rattle.pct_model.specs.OtherProcesses.{family_among};

use crate::relatives::Relatives;
use pct_model::{Child, MAX_PROCESSES};

/// The other processes, as the one with an id sees them: the processes that were not reaped, and the number of processes that were ever
/// made.
#[derive(Clone, Copy)]
pub struct Family<'a> {
    relatives: &'a Relatives,
    made: u32,
    pid: u32,
    ghost fits: { made + 1 < 2 ^ 32 },
}

impl<'a> Family<'a> {
    ghost use Rattle.std.specs.Prelude.{◌≡◌, ◌+◌, ◌<◌, ◌^◌};
    ghost use Rattle.pct_model.specs.OtherProcesses.{family_among, is_running_child};
    ghost use Rattle.pct_process.specs.FamilyViews.{other_processes};

    /// The other processes, as the one with this id sees them.
    pub fn new(relatives: &'a Relatives, made: u32, pid: u32) -> Family<'a>
        requires { made + 1 < 2 ^ 32 }
        ensures { other_processes result ≡ family_among made relatives.now pid }
    {
        Family {
            relatives,
            made,
            pid,
        }
    }

    /// The child with an id, if it was not reaped (waitpid).
    #[tactic(auto, unfolding(pct_model::specs::OtherProcesses::family_among))]
    pub fn child(&self, pid: u32) -> Option<Child>
        ensures { result ≡ (other_processes self.now).child pid }
    {
        let relative = self
            .relatives
            .as_slice()
            .iter()
            .find(|r| r.pid == pid && r.parent == self.pid)?;
        Some(Child {
            ended: relative.ended,
        })
    }

    /// Whether there is a child with an id that has not ended.
    pub fn is_running_child(&self, pid: u32) -> bool
        ensures { result ≡ is_running_child pid (other_processes self.now) }
    {
        match self.child(pid) {
            None => false,
            Some(child) => child.ended.is_none(),
        }
    }

    /// The id that a new process gets. There is none while MAX_PROCESSES processes were not reaped.
    #[tactic(auto, unfolding(pct_model::specs::OtherProcesses::family_among))]
    pub fn new_pid(&self) -> Option<u32>
        ensures { result ≡ (other_processes self.now).new_pid }
    {
        if self.relatives.as_slice().len() < MAX_PROCESSES {
            Some(self.made + 1)
        } else {
            None
        }
    }
}
