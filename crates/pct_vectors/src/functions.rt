//! The functions of a generated script.

ghost use Rattle.std.specs.Prelude.{◌≡◌, ◌≤◌, ◌<◌, ◌∷◌, [], length, codes, IfOk};
ghost use Rattle.pct_model.specs.declared.name.TheConstants.{MAX_NAME};
ghost use Rattle.pct_vectors.specs.GeneratedContents.{bye_function, generated_functions, main_body, unlock_function, worker_function};

use crate::calls::{Call, push_calls};
use crate::names::{one_name, two_names};
use pct_io::NoMemory;
use pct_model::{Dest, Func, Funcs, Name, Operand, Sequence, Stmt, Stmts};
use std::alloc::Global;

/// The functions of the script with these numbers of threads and of rounds.
pub(crate) fn functions(alloc: Global, threads: u32, rounds: u32) -> Result<Funcs, NoMemory>
    requires { threads ≤ 28 }
    ensures { IfOk result (λ funcs. funcs ≡ generated_functions threads rounds) }
{
    let mut funcs = Vec::new(alloc);
    funcs.push(unlock(alloc)?)?;
    funcs.push(bye(alloc)?)?;
    funcs.push(worker(alloc)?)?;
    funcs.push(Func {
        name: Name::of(b"main"),
        locals: two_names(alloc, b"x", b"n")?,
        body: main_body(alloc, threads, rounds)?,
    })?;
    Ok(Sequence::of(funcs))
}

// The handler that unlocks the mutex.
fn unlock(alloc: Global) -> Result<Func, NoMemory>
    ensures { IfOk result (λ f. f ≡ unlock_function) }
{
    function(alloc, b"unlock", &[Stmt::Unlock(0), Stmt::End])
}

// The destructor that adds its value to the total.
fn bye(alloc: Global) -> Result<Func, NoMemory>
    ensures { IfOk result (λ f. f ≡ bye_function) }
{
    function(
        alloc,
        b"bye",
        &[
            Stmt::Lock(0),
            Stmt::Add(Dest::Global(1), Operand::Local(0)),
            Stmt::Unlock(0),
            Stmt::End,
        ],
    )
}

// The function of a thread.
fn worker(alloc: Global) -> Result<Func, NoMemory>
    ensures { IfOk result (λ f. f ≡ worker_function) }
{
    function(
        alloc,
        b"worker",
        &[
            Stmt::SetSpecific(Operand::Global(0), Operand::Local(0)),
            Stmt::While(Operand::Num(1)),
            Stmt::Lock(0),
            Stmt::Push(0, Operand::Num(0)),
            Stmt::CondWait { cond: 0, mutex: 0 },
            Stmt::Add(Dest::Global(2), Operand::Num(1)),
            Stmt::Pop(Operand::Num(1)),
            Stmt::End,
            Stmt::End,
        ],
    )
}

// The function with this name, the parameter `x` and these statements.
fn function(alloc: Global, name: &[u8], body: &[Stmt]) -> Result<Func, NoMemory>
    requires some { 0 < length name.now }
    requires few { length name.now ≤ MAX_NAME }
    ensures { IfOk result (λ f. f ≡ record { name = name.now; locals = codes "x" ∷ []; body = body.now }) }
{
    Ok(Func {
        name: Name::of(name),
        locals: one_name(alloc, b"x")?,
        body: Sequence::of(body.to_vec(alloc)?),
    })
}

// The statements of main.
fn main_body(alloc: Global, threads: u32, rounds: u32) -> Result<Stmts, NoMemory>
    requires { threads ≤ 28 }
    ensures { IfOk result (λ body. body ≡ main_body threads rounds) }
{
    let mut body = Vec::new(alloc);
    body.push(Stmt::KeyCreate {
        result: Dest::Drop,
        key: Dest::Global(0),
        dtor: Some(1),
    })?;
    push_calls(&mut body, Call::Create, threads)?;
    body.extend_from_slice(&[
        Stmt::Set(Dest::Local(1), Operand::Num(rounds)),
        Stmt::While(Operand::Local(1)),
        Stmt::Lock(0),
        Stmt::Signal(0),
        Stmt::Unlock(0),
        Stmt::Add(Dest::Local(1), Operand::Num(4_294_967_295)),
        Stmt::End,
    ])?;
    push_calls(&mut body, Call::Cancel, threads)?;
    push_calls(&mut body, Call::Join, threads)?;
    body.extend_from_slice(&[
        Stmt::Emit(Operand::Global(1)),
        Stmt::Return(Operand::Num(0)),
        Stmt::End,
    ])?;
    Ok(Sequence::of(body))
}
