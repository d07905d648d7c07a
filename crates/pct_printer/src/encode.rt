//! Encoding: the kind of a statement's line, and the arguments of the words after the line's first.

ghost use Rattle.std.specs.Prelude.{◌≡◌, ◌≤◌, [], ◌∷◌, length};
ghost use Rattle.pct_model.specs.declared.line_kind.LineKind.TheVariants.{Create};
ghost use Rattle.pct_model.specs.declared.parsed_line.Argument.TheVariants.{Item};
ghost use Rattle.pct_model.specs.Statements.{value, dest, optional, detached_or_not, encode};

use pct_model::{Argument, Dest, LineKind, Operand, Stmt};
use std::marker::Model;

/// A kind of line, and at most five arguments.
#[derive(Drop)]
pub(crate) struct EncodedStmt {
    line_kind: LineKind,
    arguments: [Argument; 5],
    count: usize,
}

impl Model for EncodedStmt {
    ghost use Rattle.std.specs.Prelude.{ℕ, ◌≤◌, List, take};
    ghost use Rattle.pct_model.specs.declared.line_kind.LineKind.{LineKind};
    ghost use Rattle.pct_model.specs.declared.parsed_line.Argument.{Argument};

    ghost Value = { LineKind × List Argument };

    ghost view = { λ encoded. (encoded.line_kind, take encoded.count encoded.arguments) };

    ghost invariant = { λ encoded. encoded.count ≤ 5 };
}

impl EncodedStmt {
    pub(crate) fn line_kind(&self) -> LineKind
        ensures { result ≡ self.now.0 }
    {
        self.line_kind
    }

    pub(crate) fn arguments(&self) -> &[Argument]
        ensures { result.now ≡ self.now.1 }
    {
        &self.arguments[..self.count]
    }
}

// A line of this kind with these arguments.
fn with(line_kind: LineKind, given: &[Argument]) -> EncodedStmt
    requires { length given.now ≤ 5 }
    ensures { result ≡ (line_kind, given.now) }
{
    let mut arguments = [Argument::Nothing; 5];
    let (front, _) = arguments.split_at_mut(given.len());
    front.copy_from_slice(given);
    EncodedStmt {
        line_kind,
        arguments,
        count: given.len(),
    }
}

fn value(operand: Operand) -> Argument
    ensures { result ≡ value operand }
{
    match operand {
        Operand::Num(number) => Argument::Number(number),
        Operand::Local(index) => Argument::Local(index),
        Operand::Global(index) => Argument::Global(index),
    }
}

fn dest(to: Dest) -> Argument
    ensures { result ≡ dest to }
{
    match to {
        Dest::Drop => Argument::Nothing,
        Dest::Local(index) => Argument::Local(index),
        Dest::Global(index) => Argument::Global(index),
    }
}

fn optional(function: Option<u32>) -> Argument
    ensures { result ≡ optional function }
{
    match function {
        None => Argument::Nothing,
        Some(index) => Argument::Item(index),
    }
}

/// Encodes a statement. It allocates no memory.
#[tactic(auto, unfolding(pct_model::specs::Statements::encode))]
pub(crate) fn encode(statement: Stmt) -> EncodedStmt
    ensures { result ≡ encode statement }
{
    match statement {
        Stmt::Emit(v) => with(LineKind::Emit, &[value(v)]),
        Stmt::Set(d, v) => with(LineKind::Set, &[dest(d), value(v)]),
        Stmt::Add(d, v) => with(LineKind::Add, &[dest(d), value(v)]),
        Stmt::Nop => with(LineKind::Nop, &[]),
        Stmt::If(v) => with(LineKind::If, &[value(v)]),
        Stmt::Else => with(LineKind::Else, &[]),
        Stmt::While(v) => with(LineKind::While, &[value(v)]),
        Stmt::End => with(LineKind::End, &[]),
        Stmt::Do(f, v) => with(LineKind::Do, &[Argument::Item(f), value(v)]),
        Stmt::Return(v) => with(LineKind::Return, &[value(v)]),
        Stmt::Create {
            result,
            id,
            func,
            arg,
            detached,
        } => encode_create(dest(result), dest(id), func, value(arg), detached),
        Stmt::Join { id, value: v } => with(LineKind::Join, &[value(id), dest(v)]),
        Stmt::Detach(id) => with(LineKind::Detach, &[value(id)]),
        Stmt::CancelThread(id) => with(LineKind::CancelThread, &[value(id)]),
        Stmt::SelfId(d) => with(LineKind::SelfId, &[dest(d)]),
        Stmt::ThreadExit(v) => with(LineKind::ThreadExit, &[value(v)]),
        Stmt::TestCancel => with(LineKind::TestCancel, &[]),
        Stmt::SetState { enable, old } => {
            with(LineKind::SetState, &[Argument::Flag(enable), dest(old)])
        }
        Stmt::SetMode { asynchronous, old } => {
            with(
                LineKind::SetMode,
                &[Argument::Flag(asynchronous), dest(old)],
            )
        }
        Stmt::Push(f, v) => with(LineKind::Push, &[Argument::Item(f), value(v)]),
        Stmt::Pop(v) => with(LineKind::Pop, &[value(v)]),
        Stmt::KeyCreate { result, key, dtor } => {
            with(
                LineKind::KeyCreate,
                &[dest(result), dest(key), optional(dtor)],
            )
        }
        Stmt::KeyDelete(key) => with(LineKind::KeyDelete, &[value(key)]),
        Stmt::SetSpecific(key, v) => with(LineKind::SetSpecific, &[value(key), value(v)]),
        Stmt::GetSpecific(d, key) => with(LineKind::GetSpecific, &[dest(d), value(key)]),
        Stmt::Lock(m) => with(LineKind::Lock, &[Argument::Item(m)]),
        Stmt::Unlock(m) => with(LineKind::Unlock, &[Argument::Item(m)]),
        Stmt::CondWait { cond, mutex } => {
            with(
                LineKind::CondWait,
                &[Argument::Item(cond), Argument::Item(mutex)],
            )
        }
        Stmt::CondTimedWait {
            result,
            cond,
            mutex,
        } => with(
            LineKind::CondTimedWait,
            &[dest(result), Argument::Item(cond), Argument::Item(mutex)],
        ),
        Stmt::Signal(c) => with(LineKind::Signal, &[Argument::Item(c)]),
        Stmt::Broadcast(c) => with(LineKind::Broadcast, &[Argument::Item(c)]),
        Stmt::SemWait(s) => with(LineKind::SemWait, &[Argument::Item(s)]),
        Stmt::SemTimedWait { result, sem } => with(
            LineKind::SemTimedWait,
            &[dest(result), Argument::Item(sem)],
        ),
        Stmt::SemPost(s) => with(LineKind::SemPost, &[Argument::Item(s)]),
        Stmt::CallOnce { once, func } => with(
            LineKind::CallOnce,
            &[Argument::Item(once), Argument::Item(func)],
        ),
        Stmt::AtFork {
            result,
            prepare,
            parent,
            child,
        } => with(
            LineKind::AtFork,
            &[
                dest(result),
                optional(prepare),
                optional(parent),
                optional(child),
            ],
        ),
        Stmt::Fork { result, child } => with(LineKind::Fork, &[dest(result), dest(child)]),
        Stmt::WaitPid {
            result,
            pid,
            value: v,
        } => with(LineKind::WaitPid, &[dest(result), value(pid), dest(v)]),
        Stmt::AtExit { result, func } => with(
            LineKind::AtExit,
            &[dest(result), Argument::Item(func)],
        ),
        Stmt::ProcExit(v) => with(LineKind::ProcExit, &[value(v)]),
        Stmt::ProcExitNow(v) => with(LineKind::ProcExitNow, &[value(v)]),
        Stmt::PointCall(index) => with(LineKind::Point(index), &[]),
    }
}

// Encodes a `pthread_create`.
fn encode_create(
    to: Argument,
    id: Argument,
    func: u32,
    arg: Argument,
    detached: bool,
) -> EncodedStmt
    ensures { result ≡ (Create, to ∷ id ∷ Item func ∷ arg ∷ detached_or_not detached) }
{
    let func = Argument::Item(func);
    if detached {
        with(LineKind::Create, &[to, id, func, arg, Argument::Flag(true)])
    } else {
        with(LineKind::Create, &[to, id, func, arg])
    }
}
