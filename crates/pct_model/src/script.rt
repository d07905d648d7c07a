//! Scripts: what a script's text declares.

ghost use Rattle.std.specs.Prelude.{◌≡◌, ◌≤◌, length, IsTrue};
ghost use Rattle.pct_model.specs.Names.{main_of, names_of};
ghost use Rattle.pct_model.specs.Static.{is_static};

use crate::keyword::Keyword;
use crate::name::Name;
use crate::sequence::{Funcs, Names, SemDecls, Stmts};

/// A semaphore and its initial count.
#[derive(Drop)]
pub struct SemDecl {
    pub name: Name,
    pub count: u32,
}

/// A function. Its first local is its parameter; its last statement is the closing `End`.
#[derive(Drop)]
pub struct Func {
    pub name: Name,
    pub locals: Names,
    pub body: Stmts,
}

/// A well-formed script: the type guarantees that it passes all checks.
#[derive(Drop)]
pub struct Script {
    pub globals: Names,
    pub mutexes: Names,
    pub conds: Names,
    pub sems: SemDecls,
    pub onces: Names,
    pub funcs: Funcs,
    ghost passes_checks: { IsTrue (is_static (record { globals = globals; mutexes = mutexes; conds = conds; sems = sems; onces = onces; funcs = funcs })) },
}

/// The index of the first function named `main`, or the number of functions if there is none.
#[tactic(auto, unfolding(crate::specs::Names::main_of))]
pub fn main_of(funcs: &[Func]) -> usize
    ensures value { result ≡ main_of (names_of funcs.now) }
    ensures bound { result ≤ length funcs.now }
{
    let mut index = 0;
    let mut rest = funcs;
    while let Some((func, after)) = rest.split_first() {
        if Keyword::Main.text() == func.name.as_bytes() {
            break;
        }
        index += 1;
        rest = after;
    }
    index
}
