//! The command `replay`: runs a script under the schedule that follows it.

ghost use Rattle.std.specs.Prelude.{◌≡◌, ◌≤◌, ℕ, List, length, true, Ok as IsRead, IsTrue};
ghost use Rattle.pct_model.specs.declared.limits.TheConstants.{MAX_INPUT};
ghost use Rattle.pct_model.specs.Schedule.{sched_of};
ghost use Rattle.pct_model.specs.Run.{is_config};
ghost use Rattle.pct_model.specs.Outcome.{is_asked, schedule_part};
ghost use Rattle.pct_model.specs.declared.keyword.Keyword.TheVariants as keyword;
ghost use Rattle.pct_command.specs.Answer.{Answered, HasScript};

use crate::answers::{Answer, Refusal};
use pct_audit_laws::reports_of_runs_pass;
use pct_history::{Entries, ReplayFault, ScheduleFault, read_schedule, replay};
use pct_io::NoMemory;
use pct_model::{Config, Script};
use std::alloc::Global;

/// The answer of `replay` to a script and the text of a schedule.
pub(crate) fn replay_script(
    alloc: Global,
    script: Script,
    schedule: &[u8],
) -> Result<Answer, NoMemory>
    requires { length schedule.now ≤ MAX_INPUT }
    ensures { (words : List (List ℕ)) (input : List ℕ) → is_asked keyword.Replay words ≡ true → HasScript words input script → schedule.now ≡ schedule_part input → Answered words input result }
{
    match read_schedule(alloc, schedule) {
        Ok((config, entries)) => replay_entries(alloc, script, config, entries),
        Err(ScheduleFault::Refused { line, why }) => {
            Ok(Answer::Refused(Refusal::Schedule { line, why }))
        }
        Err(ScheduleFault::NoMemory) => Err(NoMemory),
    }
}

// The answer of `replay` to a script and a schedule. The call of `reports_of_runs_pass` does nothing: its contract is a theorem.
fn replay_entries(
    alloc: Global,
    script: Script,
    config: Config,
    entries: Entries,
) -> Result<Answer, NoMemory>
    requires config { IsTrue (is_config config) }
    requires few { length entries ≤ config.budget }
    ensures { (words : List (List ℕ)) (input : List ℕ) → is_asked keyword.Replay words ≡ true → HasScript words input script → sched_of (schedule_part input) ≡ IsRead (config, entries) → Answered words input result }
{
    match replay(alloc, script, config, entries) {
        Ok(engine) => {
            reports_of_runs_pass();
            Ok(Answer::Ran(engine))
        }
        Err(ReplayFault::NotLegal { entry_number }) => {
            Ok(Answer::Refused(Refusal::Entry { entry_number }))
        }
        Err(ReplayFault::NoMemory) => Err(NoMemory),
    }
}
