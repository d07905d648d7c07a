//! What a transition changes in the frames of the thread that makes it.

ghost use Rattle.std.specs.Prelude.{◌≡◌, length, Some, true};
ghost use Rattle.std.specs.Option.{option_to_list};
ghost use Rattle.pct_model.specs.Actions.{frames_written, without_first, written};
ghost use Rattle.pct_threads.specs.Slots.{Held};
ghost use Rattle.pct_threads.specs.Tables.{held_at, is_occupied_at};
ghost use Rattle.pct_engine_laws.specs.Fitting.{Fits};
ghost use Rattle.pct_actions.specs.OwnChanges.{frames_acted, frames_at, frames_moved, on_frames};

use pct_model::{Dest, FrameKind, OwnAction, Transition, UpToThree};
use pct_threads::Threads;

/// Makes the changes of a transition in the frames of the thread on a slot, which makes it.
pub(crate) fn move_frames(threads: &mut Threads, slot: u32, transition: &Transition)
    requires occupied { is_occupied_at threads.old slot ≡ true }
    requires fits { (held : Held) → held_at threads.old slot ≡ Some held → Fits (length held.frames) (length held.thread.handlers) held.thread.pass transition.now.own }
    ensures { threads.new ≡ on_frames slot (frames_moved transition.now) threads.old }
{
    go_on(threads, slot, transition.next);
    write_locals(threads, slot, &transition.writes);
    act_on_frames(threads, slot, transition.own);
}

// The thread goes on at a program counter, if there is one.
#[tactic(auto, unfolding(pct_model::specs::Actions::thread_at))]
fn go_on(threads: &mut Threads, slot: u32, next: Option<u32>)
    requires { is_occupied_at threads.old slot ≡ true }
    ensures { threads.new ≡ on_frames slot (frames_at next) threads.old }
{
    match next {
        None => {}
        Some(pc) => threads.set_pc(slot, pc),
    }
}

// Writes these values, in order, to their destinations that are locals of the newest frame.
fn write_locals(threads: &mut Threads, slot: u32, writes: &UpToThree<(Dest, u32)>)
    requires { is_occupied_at threads.old slot ≡ true }
    ensures { threads.new ≡ on_frames slot (written frames_written writes.now) threads.old }
{
    for write in writes.as_slice() {
        write_local(threads, slot, *write);
    }
}

// A value is written to its destination, if it is a local of the newest frame.
fn write_local(threads: &mut Threads, slot: u32, write: (Dest, u32))
    requires { is_occupied_at threads.old slot ≡ true }
    ensures value { threads.new ≡ on_frames slot (frames_written write.0 write.1) threads.old }
    ensures occupied { is_occupied_at threads.new slot ≡ true }
{
    if let (Dest::Local(i), value) = write {
        threads.set_local(slot, i, value);
    }
}

// Makes the change of the thread's own action, if it has one, in its frames.
#[tactic(auto, unfolding(pct_model::specs::Actions::own_after))]
fn act_on_frames(threads: &mut Threads, slot: u32, action: Option<OwnAction>)
    requires occupied { is_occupied_at threads.old slot ≡ true }
    requires fits { (held : Held) → held_at threads.old slot ≡ Some held → Fits (length held.frames) (length held.thread.handlers) held.thread.pass action }
    ensures { threads.new ≡ on_frames slot (frames_acted action) threads.old }
{
    match action {
        Some(OwnAction::Call { func, arg, kind }) => threads.call(slot, func, arg, kind),
        Some(OwnAction::CallHandler(func, arg)) => {
            threads.call(slot, func, arg, FrameKind::PopHandler);
        }
        Some(OwnAction::RunHandler(func, arg)) => {
            threads.call_alone(slot, func, arg, FrameKind::Handler);
        }
        Some(OwnAction::RunDestructor { func, value, .. }) => {
            threads.call_alone(slot, func, value, FrameKind::Destructor);
        }
        Some(OwnAction::RunExitFunction(func)) => {
            threads.call_alone(slot, func, 0, FrameKind::ExitFn);
        }
        Some(OwnAction::CallForkHandler(_, func)) => {
            threads.call(slot, func, 0, FrameKind::ForkFn);
        }
        Some(OwnAction::Leave(_)) => leave_frame(threads, slot),
        Some(OwnAction::BeginEnd(_)) => threads.drop_frames(slot),
        Some(OwnAction::BeginExit) => threads.drop_frames(slot),
        Some(OwnAction::EndLast) => threads.drop_frames(slot),
        _ => {}
    }
}

// The newest frame, if there is one, is removed.
fn leave_frame(threads: &mut Threads, slot: u32)
    requires { is_occupied_at threads.old slot ≡ true }
    ensures { threads.new ≡ on_frames slot without_first threads.old }
{
    if threads.place(slot).depth > 0 {
        threads.pop_frame(slot);
    }
}
