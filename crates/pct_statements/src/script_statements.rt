//! The script language's own statements: the transition of each, and where it jumps to. `next` is the program counter of the
//! next statement.

ghost use Rattle.std.specs.Prelude.{◌≡◌, ◌+◌, ◌%◌, ◌<◌, [], ◌∷◌, Some, true};
ghost use Rattle.pct_model.specs.declared.limits.TheConstants.{MAX_STATEMENTS};
ghost use Rattle.pct_model.specs.Jumps.{holds, is_while, open_of};
ghost use Rattle.pct_model.specs.World.{body_of};
ghost use Rattle.pct_model.specs.ScriptStatements.{jumps, emits, sets, adds, calls, after_block, after_test, after_end};
ghost use Rattle.pct_model.specs.TransitionTable.{ends_block};
ghost use Rattle.pct_jumps.specs.JumpTable.{opens_block};
ghost use Rattle.pct_step_context.specs.Positions.{IsAt};

use crate::process_exit::returns_by;
use pct_ending_calls::transitions::goes_on;
use pct_model::{Dest, FrameKind, OwnAction, Script, Stmt, Transition, UpToThree, What};
use pct_step_context::{At, Program, next_pc};
use pct_threads::{FrameRef, Thread};

/// `nop`, and each statement that only goes to a program counter.
#[tactic(auto, unfolding(pct_model::specs::ScriptStatements::jumps))]
pub fn jumps(next: u32) -> Transition
    ensures { result ≡ jumps next }
{
    goes_on(next, UpToThree::none())
}

/// `emit`: the event has the value.
#[tactic(auto, unfolding(pct_model::specs::ScriptStatements::emits))]
pub fn emits(next: u32, value: u32) -> Transition
    ensures { result ≡ emits next value }
{
    goes_on(next, UpToThree::one(What::Emit(value)))
}

/// `set`: a variable gets a value.
#[tactic(auto, unfolding(pct_model::specs::ScriptStatements::sets))]
pub fn sets(next: u32, dest: Dest, value: u32) -> Transition
    ensures { result ≡ sets next dest value }
{
    Transition {
        writes: UpToThree::one((dest, value)),
        ..goes_on(next, UpToThree::none())
    }
}

/// `add`: a variable with the value `old` is increased by a value, modulo 2^32.
#[tactic(auto, unfolding(pct_model::specs::ScriptStatements::adds))]
pub fn adds(next: u32, dest: Dest, old: u32, value: u32) -> Transition
    ensures { result ≡ adds next dest old value }
{
    sets(next, dest, old.wrapping_add(value))
}

/// `do`: a call of a function.
#[tactic(auto, unfolding(pct_model::specs::ScriptStatements::calls))]
pub fn calls(next: u32, func: u32, arg: u32) -> Transition
    ensures { result ≡ calls next func arg }
{
    Transition {
        own: Some(OwnAction::Call {
            func,
            arg,
            kind: FrameKind::Call,
        }),
        ..goes_on(next, UpToThree::none())
    }
}

/// `end`: of a block, or of the function, which returns 0, in the thread with this record.
pub fn ends_block(program: &Program, thread: &Thread, frame: &FrameRef, transition: &mut Transition)
    requires { frame.now.pc < MAX_STATEMENTS }
    ensures { let body = body_of program.now.script frame.now.func in transition.new ≡ ends_block (open_of body frame.now.pc) thread.now.kept body frame.now }
{
    match program.jumps.open_of(frame.func(), frame.pc()) {
        Some(opened) => *transition = jumps(after_end(&program.script, frame, opened)),
        None => returns_by(thread, frame.kind(), 0, transition),
    }
}

// ---- jumps

/// The program counter after the end of the block that a frame's statement opens.
pub fn after_block(program: &Program, at: &At) -> u32
    requires at { IsAt program.now.script at.now }
    requires opens { opens_block at.now.statement.now ≡ true }
    ensures { result ≡ after_block (body_of program.now.script at.now.frame.func) at.now.frame.pc }
{
    program.jumps.close_of(at.frame.func(), at.frame.pc()) + 1
}

/// The program counter after a frame's `if` or `while` with this value.
pub fn after_test(program: &Program, at: &At, value: u32) -> u32
    requires at { IsAt program.now.script at.now }
    requires opens { opens_block at.now.statement.now ≡ true }
    requires pc { at.now.frame.pc < MAX_STATEMENTS }
    ensures { result ≡ after_test (body_of program.now.script at.now.frame.func) at.now.frame.pc value }
{
    if value == 0 {
        after_block(program, at)
    } else {
        next_pc(&at.frame)
    }
}

/// The program counter after a frame's `end`, which closes the block that is opened at a program counter: of a `while`, that
/// `while`.
pub fn after_end(script: &Script, frame: &FrameRef, opened: u32) -> u32
    requires { frame.now.pc < MAX_STATEMENTS }
    ensures { result ≡ after_end (body_of script.now frame.now.func) frame.now.pc opened }
{
    if is_while_at(script, frame.func(), opened) {
        opened
    } else {
        next_pc(frame)
    }
}

// Whether a function has a `while` at a program counter.
fn is_while_at(script: &Script, func: u32, pc: u32) -> bool
    ensures { result ≡ holds (body_of script.now func) is_while pc }
{
    match script.funcs.as_slice().get(func as usize) {
        None => false,
        Some(function) => match function.body.as_slice().get(pc as usize) {
            None => false,
            Some(statement) => matches!(statement, Stmt::While(_)),
        },
    }
}
