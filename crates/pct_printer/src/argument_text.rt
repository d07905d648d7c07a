//! The words of a statement's arguments in the canonical text.

ghost use Rattle.std.specs.Prelude.{◌≡◌, map};
ghost use Rattle.pct_io.specs.Fields.{field_text};
ghost use Rattle.pct_model.specs.Names.{name_at, names_of};
ghost use Rattle.pct_model.specs.Contents.{names_of_kind};
ghost use Rattle.pct_model.specs.Spells.{contents_of};
ghost use Rattle.pct_model.specs.Canon.{symbol_kind_at, flag_text, argument_text};

use pct_io::Field;
use pct_model::{Argument, ArgumentKind, Func, Name, Script, SemDecl, SymbolKind};

/// The word of an argument of this kind, in a function with these locals.
#[tactic(auto, unfolding(pct_model::specs::Canon::argument_text))]
pub(crate) fn argument_field<'a>(
    script: &'a Script,
    locals: &'a [Name],
    argument_kind: ArgumentKind,
    argument: Argument,
) -> Field<'a>
    ensures { field_text result ≡ argument_text (contents_of script.now) locals.now argument_kind argument }
{
    match argument {
        Argument::Number(number) => Field::Number(number),
        Argument::Local(at) => Field::Text(name_at(locals, at)),
        Argument::Global(at) => Field::Text(name_at(script.globals.as_slice(), at)),
        Argument::Item(at) => Field::Text(item_name(script, symbol_kind_at(argument_kind), at)),
        Argument::Nothing => Field::Text(b"-"),
        Argument::Flag(is_set) => Field::Text(flag_text(argument_kind, is_set)),
    }
}

fn symbol_kind_at(argument_kind: ArgumentKind) -> SymbolKind
    ensures { result ≡ symbol_kind_at argument_kind }
{
    match argument_kind {
        ArgumentKind::Item(kind) => kind,
        _ => SymbolKind::Function,
    }
}

fn flag_text(argument_kind: ArgumentKind, is_set: bool) -> &'static [u8]
    ensures { result.now ≡ flag_text argument_kind is_set }
{
    match (argument_kind, is_set) {
        (ArgumentKind::State, true) => b"enable",
        (ArgumentKind::State, false) => b"disable",
        (ArgumentKind::Mode, true) => b"asynchronous",
        (ArgumentKind::Mode, false) => b"deferred",
        _ => b"detached",
    }
}

// The name at an index among those of this kind.
fn item_name(script: &Script, kind: SymbolKind, at: u32) -> &[u8]
    ensures { result.now ≡ name_at (names_of_kind (contents_of script.now) kind) at }
{
    match kind {
        SymbolKind::Global => name_at(script.globals.as_slice(), at),
        SymbolKind::Mutex => name_at(script.mutexes.as_slice(), at),
        SymbolKind::Cond => name_at(script.conds.as_slice(), at),
        SymbolKind::Sem => sem_name(script.sems.as_slice(), at),
        SymbolKind::Once => name_at(script.onces.as_slice(), at),
        SymbolKind::Function => function_name(script.funcs.as_slice(), at),
    }
}

#[tactic(auto, unfolding(pct_model::specs::Names::name_at))]
fn name_at(names: &[Name], at: u32) -> &[u8]
    ensures { result.now ≡ name_at names.now at }
{
    match names.get(at as usize) {
        None => &[],
        Some(name) => name.as_bytes(),
    }
}

#[tactic(auto, unfolding(pct_model::specs::Names::name_at))]
fn sem_name(sems: &[SemDecl], at: u32) -> &[u8]
    ensures { result.now ≡ name_at (map (λ s. s.name) sems.now) at }
{
    match sems.get(at as usize) {
        None => &[],
        Some(sem) => sem.name.as_bytes(),
    }
}

#[tactic(auto, unfolding(pct_model::specs::Names::name_at))]
fn function_name(funcs: &[Func], at: u32) -> &[u8]
    ensures { result.now ≡ name_at (names_of funcs.now) at }
{
    match funcs.get(at as usize) {
        None => &[],
        Some(func) => func.name.as_bytes(),
    }
}
