//! The next statement of a thread, and the values that it reads.

ghost use Rattle.std.specs.Prelude.{◌≡◌, ◌<◌, List, IfSome, option_map, slice_get, suc};
ghost use Rattle.pct_model.specs.declared.frame.Frame.{Frame as FrameRecord};
ghost use Rattle.pct_model.specs.declared.limits.TheConstants.{MAX_STATEMENTS};
ghost use Rattle.pct_model.specs.World.{statement_at, value_of};
ghost use Rattle.pct_model.specs.ScriptStatements.{variable_value};
ghost use Rattle.pct_model.specs.ChoiceTable.{is_timed_wait};
ghost use Rattle.pct_model.specs.NextStatement.{next_of};
ghost use Rattle.pct_step_context.specs.Positions.{next_at, IsDecoded};

use pct_model::{Dest, Operand, Script, Stmt};
use pct_threads::FrameRef;

/// The statement at the program counter of a frame.
#[derive(Drop)]
pub struct At<'a> {
    pub frame: FrameRef<'a>,
    pub statement: &'a Stmt,
}

/// The next statement of a thread with this top frame. `None` if there is no frame, or no statement at its program counter.
pub fn next_of<'a>(script: &'a Script, top: Option<FrameRef<'a>>) -> Option<At<'a>>
    ensures next { (frames : List FrameRecord) → top.entry ≡ slice_get frames 0 → next_at result ≡ next_of script.now frames }
    ensures decoded { IsDecoded script.now result }
{
    match top {
        None => None,
        Some(frame) => match statement_at(script, &frame) {
            None => None,
            Some(statement) => Some(At { frame, statement }),
        },
    }
}

/// Whether the next statement is a wait with a time.
pub fn is_timed_next(next: &Option<At>) -> bool
    ensures { result ≡ is_timed_wait (next_at next.now) }
{
    match next {
        None => false,
        Some(at) => at.statement.is_timed(),
    }
}

/// The statement at a frame's program counter. `None` if the function has no statement there.
#[tactic(auto, using(std::proofs::lemmas::Option::slice_get_past), unfolding(pct_model::specs::World::statement_at))]
pub fn statement_at<'a>(script: &'a Script, frame: &FrameRef) -> Option<&'a Stmt>
    ensures value { option_map (λ statement. statement.now) result ≡ statement_at script.now frame.now }
    ensures pc { IfSome result (λ _. frame.now.pc < MAX_STATEMENTS) }
{
    let func = script.funcs.as_slice().get(frame.func() as usize)?;
    let body = func.body.as_slice();
    let pc = frame.pc() as usize;
    if pc < body.len() {
        Some(&body[pc])
    } else {
        None
    }
}

/// The program counter of the statement after a frame's.
pub fn next_pc(frame: &FrameRef) -> u32
    requires { frame.now.pc < MAX_STATEMENTS }
    ensures { result ≡ suc frame.now.pc }
{
    frame.pc() + 1
}

/// The value of an operand in a frame, with the globals of its process: a number is its own value.
#[tactic(auto, unfolding(pct_model::specs::World::value_of))]
pub fn value_of(globals: &[u32], frame: &FrameRef, operand: Operand) -> u32
    ensures { result ≡ value_of globals.now frame.now operand }
{
    match operand {
        Operand::Num(n) => n,
        Operand::Local(i) => frame.local(i),
        Operand::Global(i) => globals.get(i as usize).copied().unwrap_or(0),
    }
}

/// The value of a variable in a frame, with the globals of its process; `-` has the value 0.
#[tactic(auto, unfolding(pct_model::specs::ScriptStatements::variable_value))]
pub fn variable_value(globals: &[u32], frame: &FrameRef, dest: Dest) -> u32
    ensures { result ≡ variable_value globals.now frame.now dest }
{
    match dest {
        Dest::Drop => 0,
        Dest::Local(i) => frame.local(i),
        Dest::Global(i) => globals.get(i as usize).copied().unwrap_or(0),
    }
}
