//! Copies of scripts.

ghost use Rattle.std.specs.Prelude.{◌≡◌, IfOk};

use pct_io::NoMemory;
use pct_model::{Func, Funcs, Name, Names, Script, SemDecl, SemDecls, Sequence, Stmts};
use std::alloc::Global;

/// A script that is equal to this one, in memory of its own. `NoMemory` is returned if it does not fit into memory.
pub fn copy_script(alloc: Global, script: &Script) -> Result<Script, NoMemory>
    ensures { IfOk result (λ copied. copied ≡ script.now) }
{
    let globals = copy_names(alloc, &script.globals)?;
    let mutexes = copy_names(alloc, &script.mutexes)?;
    let conds = copy_names(alloc, &script.conds)?;
    let sems = copy_sems(alloc, &script.sems)?;
    let onces = copy_names(alloc, &script.onces)?;
    let funcs = copy_funcs(alloc, &script.funcs)?;
    Ok(Script {
        globals,
        mutexes,
        conds,
        sems,
        onces,
        funcs,
    })
}

fn copy_name(name: &Name) -> Name
    ensures { result ≡ name.now }
{
    Name::of(name.as_bytes())
}

fn copy_names(alloc: Global, names: &Names) -> Result<Names, NoMemory>
    ensures { IfOk result (λ copied. copied ≡ names.now) }
{
    let all = names.as_slice();
    let mut copied = Vec::with_capacity(alloc, all.len())?;
    for name in all {
        copied.push(copy_name(name))?;
    }
    Ok(Sequence::of(copied))
}

fn copy_sems(alloc: Global, sems: &SemDecls) -> Result<SemDecls, NoMemory>
    ensures { IfOk result (λ copied. copied ≡ sems.now) }
{
    let all = sems.as_slice();
    let mut copied = Vec::with_capacity(alloc, all.len())?;
    for sem in all {
        copied.push(SemDecl {
            name: copy_name(&sem.name),
            count: sem.count,
        })?;
    }
    Ok(Sequence::of(copied))
}

fn copy_statements(alloc: Global, statements: &Stmts) -> Result<Stmts, NoMemory>
    ensures { IfOk result (λ copied. copied ≡ statements.now) }
{
    Ok(Sequence::of(statements.as_slice().to_vec(alloc)?))
}

fn copy_func(alloc: Global, func: &Func) -> Result<Func, NoMemory>
    ensures { IfOk result (λ copied. copied ≡ func.now) }
{
    Ok(Func {
        name: copy_name(&func.name),
        locals: copy_names(alloc, &func.locals)?,
        body: copy_statements(alloc, &func.body)?,
    })
}

fn copy_funcs(alloc: Global, funcs: &Funcs) -> Result<Funcs, NoMemory>
    ensures { IfOk result (λ copied. copied ≡ funcs.now) }
{
    let all = funcs.as_slice();
    let mut copied = Vec::with_capacity(alloc, all.len())?;
    for func in all {
        copied.push(copy_func(alloc, func)?)?;
    }
    Ok(Sequence::of(copied))
}
