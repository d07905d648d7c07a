//! Decoding: statements from their kinds of line and arguments.

ghost use Rattle.std.specs.Prelude.{◌≡◌};
ghost use Rattle.pct_grammar.specs.Resolving.{value_in, dest_in, item_in, optional_in, flag_in, at, decode};

use pct_model::{Argument, Dest, LineKind, Operand, Stmt};

#[tactic(auto, unfolding(pct_grammar::specs::Resolving::value_in))]
fn value_in(argument: Argument) -> Operand
    ensures { result ≡ value_in argument }
{
    match argument {
        Argument::Number(number) => Operand::Num(number),
        Argument::Local(index) => Operand::Local(index),
        Argument::Global(index) => Operand::Global(index),
        _ => Operand::Num(0),
    }
}

#[tactic(auto, unfolding(pct_grammar::specs::Resolving::dest_in))]
fn dest_in(argument: Argument) -> Dest
    ensures { result ≡ dest_in argument }
{
    match argument {
        Argument::Local(index) => Dest::Local(index),
        Argument::Global(index) => Dest::Global(index),
        _ => Dest::Drop,
    }
}

#[tactic(auto, unfolding(pct_grammar::specs::Resolving::item_in))]
fn item_in(argument: Argument) -> u32
    ensures { result ≡ item_in argument }
{
    match argument {
        Argument::Item(index) => index,
        _ => 0,
    }
}

#[tactic(auto, unfolding(pct_grammar::specs::Resolving::optional_in))]
fn optional_in(argument: Argument) -> Option<u32>
    ensures { result ≡ optional_in argument }
{
    match argument {
        Argument::Item(index) => Some(index),
        _ => None,
    }
}

#[tactic(auto, unfolding(pct_grammar::specs::Resolving::flag_in))]
fn flag_in(argument: Argument) -> bool
    ensures { result ≡ flag_in argument }
{
    match argument {
        Argument::Flag(is_set) => is_set,
        _ => false,
    }
}

fn at(arguments: &[Argument], index: usize) -> Argument
    ensures { result ≡ at arguments.now index }
{
    match arguments.get(index) {
        Some(argument) => *argument,
        None => Argument::Nothing,
    }
}

fn value(arguments: &[Argument], index: usize) -> Operand
    ensures { result ≡ value_in (at arguments.now index) }
{
    value_in(at(arguments, index))
}

fn dest(arguments: &[Argument], index: usize) -> Dest
    ensures { result ≡ dest_in (at arguments.now index) }
{
    dest_in(at(arguments, index))
}

fn item(arguments: &[Argument], index: usize) -> u32
    ensures { result ≡ item_in (at arguments.now index) }
{
    item_in(at(arguments, index))
}

fn optional(arguments: &[Argument], index: usize) -> Option<u32>
    ensures { result ≡ optional_in (at arguments.now index) }
{
    optional_in(at(arguments, index))
}

fn flag(arguments: &[Argument], index: usize) -> bool
    ensures { result ≡ flag_in (at arguments.now index) }
{
    flag_in(at(arguments, index))
}

/// The statement of a line kind with these arguments.
#[tactic(auto, unfolding(pct_grammar::specs::Resolving::decode))]
pub(crate) fn decode(line_kind: LineKind, arguments: &[Argument]) -> Stmt
    ensures { result ≡ decode line_kind arguments.now }
{
    match line_kind {
        LineKind::Declares(_) => Stmt::Nop,
        LineKind::Emit => Stmt::Emit(value(arguments, 0)),
        LineKind::Set => Stmt::Set(dest(arguments, 0), value(arguments, 1)),
        LineKind::Add => Stmt::Add(dest(arguments, 0), value(arguments, 1)),
        LineKind::Nop => Stmt::Nop,
        LineKind::If => Stmt::If(value(arguments, 0)),
        LineKind::Else => Stmt::Else,
        LineKind::While => Stmt::While(value(arguments, 0)),
        LineKind::End => Stmt::End,
        LineKind::Do => Stmt::Do(item(arguments, 0), value(arguments, 1)),
        LineKind::Return => Stmt::Return(value(arguments, 0)),
        LineKind::Create => Stmt::Create {
            result: dest(arguments, 0),
            id: dest(arguments, 1),
            func: item(arguments, 2),
            arg: value(arguments, 3),
            detached: flag(arguments, 4),
        },
        LineKind::Join => Stmt::Join {
            id: value(arguments, 0),
            value: dest(arguments, 1),
        },
        LineKind::Detach => Stmt::Detach(value(arguments, 0)),
        LineKind::CancelThread => Stmt::CancelThread(value(arguments, 0)),
        LineKind::SelfId => Stmt::SelfId(dest(arguments, 0)),
        LineKind::ThreadExit => Stmt::ThreadExit(value(arguments, 0)),
        LineKind::TestCancel => Stmt::TestCancel,
        LineKind::SetState => Stmt::SetState {
            enable: flag(arguments, 0),
            old: dest(arguments, 1),
        },
        LineKind::SetMode => Stmt::SetMode {
            asynchronous: flag(arguments, 0),
            old: dest(arguments, 1),
        },
        LineKind::Push => Stmt::Push(item(arguments, 0), value(arguments, 1)),
        LineKind::Pop => Stmt::Pop(value(arguments, 0)),
        LineKind::KeyCreate => Stmt::KeyCreate {
            result: dest(arguments, 0),
            key: dest(arguments, 1),
            dtor: optional(arguments, 2),
        },
        LineKind::KeyDelete => Stmt::KeyDelete(value(arguments, 0)),
        LineKind::SetSpecific => Stmt::SetSpecific(value(arguments, 0), value(arguments, 1)),
        LineKind::GetSpecific => Stmt::GetSpecific(dest(arguments, 0), value(arguments, 1)),
        LineKind::Lock => Stmt::Lock(item(arguments, 0)),
        LineKind::Unlock => Stmt::Unlock(item(arguments, 0)),
        LineKind::CondWait => Stmt::CondWait {
            cond: item(arguments, 0),
            mutex: item(arguments, 1),
        },
        LineKind::CondTimedWait => Stmt::CondTimedWait {
            result: dest(arguments, 0),
            cond: item(arguments, 1),
            mutex: item(arguments, 2),
        },
        LineKind::Signal => Stmt::Signal(item(arguments, 0)),
        LineKind::Broadcast => Stmt::Broadcast(item(arguments, 0)),
        LineKind::SemWait => Stmt::SemWait(item(arguments, 0)),
        LineKind::SemTimedWait => Stmt::SemTimedWait {
            result: dest(arguments, 0),
            sem: item(arguments, 1),
        },
        LineKind::SemPost => Stmt::SemPost(item(arguments, 0)),
        LineKind::CallOnce => Stmt::CallOnce {
            once: item(arguments, 0),
            func: item(arguments, 1),
        },
        LineKind::AtFork => Stmt::AtFork {
            result: dest(arguments, 0),
            prepare: optional(arguments, 1),
            parent: optional(arguments, 2),
            child: optional(arguments, 3),
        },
        LineKind::Fork => Stmt::Fork {
            result: dest(arguments, 0),
            child: dest(arguments, 1),
        },
        LineKind::WaitPid => Stmt::WaitPid {
            result: dest(arguments, 0),
            pid: value(arguments, 1),
            value: dest(arguments, 2),
        },
        LineKind::AtExit => Stmt::AtExit {
            result: dest(arguments, 0),
            func: item(arguments, 1),
        },
        LineKind::ProcExit => Stmt::ProcExit(value(arguments, 0)),
        LineKind::ProcExitNow => Stmt::ProcExitNow(value(arguments, 0)),
        LineKind::Point(index) => Stmt::PointCall(index),
    }
}
