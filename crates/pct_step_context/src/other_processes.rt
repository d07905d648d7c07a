//! What a thread sees of the other processes, as the tables ask for it. Nothing is looked for before it is asked.

ghost use Rattle.std.specs.Prelude.{◌≡◌};
ghost use Rattle.pct_model.specs.OtherProcesses.{is_running_child};
ghost use Rattle.pct_model.specs.Environment.{Environment};
ghost use Rattle.pct_step_context.specs.Contexts.{IsEnvironment};

use crate::context::Context;
use pct_model::Child;

impl<'a> Context<'a> {
    /// The child of the process with the id, if it was not reaped.
    #[tactic(auto, using(crate::proofs::EnvironmentRead::family_read))]
    #[inline(always)]
    pub fn child(&self, pid: u32) -> Option<Child>
        ensures { (environment : Environment) → IsEnvironment self.now environment → result ≡ environment.family.child pid }
    {
        self.family.child(pid)
    }

    /// Whether the process has a child with the id that has not ended.
    #[tactic(auto, using(crate::proofs::EnvironmentRead::family_read))]
    #[inline(always)]
    pub fn is_running_child(&self, pid: u32) -> bool
        ensures { (environment : Environment) → IsEnvironment self.now environment → result ≡ is_running_child pid environment.family }
    {
        self.family.is_running_child(pid)
    }

    /// The id that a new process gets, if one can be made.
    #[tactic(auto, using(crate::proofs::EnvironmentRead::family_read))]
    #[inline(always)]
    pub fn new_pid(&self) -> Option<u32>
        ensures { (environment : Environment) → IsEnvironment self.now environment → result ≡ environment.family.new_pid }
    {
        self.family.new_pid()
    }
}
