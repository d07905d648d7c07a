//! Name resolution: statements and functions from parsed lines, with each name replaced by its index.

ghost use Rattle.std.specs.Prelude.{IfOk, [], length, option_map, true, ◌≡◌, ◌≤◌};
ghost use Rattle.pct_model.specs.declared.limits.TheConstants.{MAX_INPUT};
ghost use Rattle.pct_model.specs.declared.parsed_line.Argument.TheVariants.{Item};
ghost use Rattle.pct_model.specs.Contents.{resolve, resolve_all, resolve_name, variable};
ghost use Rattle.pct_model.specs.Names.{index_among};
ghost use Rattle.pct_model.specs.Sections.{are_in_functions, argument_kinds_in, declares, functions_in, is_statement, names_declared, split_sections};
ghost use Rattle.pct_grammar.specs.Resolving.{resolve_body, resolve_contents, resolve_function, resolve_functions, resolve_statement};
ghost use Rattle.pct_script_lines.specs.Symbols.{symbols_of};
ghost use Rattle.std.specs.List.{list_all};
ghost use Rattle.pct_model.specs.declared.line_kind.SymbolKind.TheVariants.{Function};
ghost use Rattle.pct_script_lines.specs.Fault.{ParsesTo};
ghost use Rattle.pct_script_lines.specs.SectionSteps.{is_ready};
ghost use Rattle.pct_script_lines.specs.UnknownNames.{unknown_in_body, unknown_in_section, unknown_in_sections};
ghost use Rattle.pct_model.specs.declared.line_kind.SymbolKind.{SymbolKind};
ghost use Rattle.pct_model.specs.Checks.{unknown_name};
ghost use Rattle.pct_script_lines.specs.StoredContents.{contents_stored};

use crate::decode::decode;
use crate::fault::ParseFault;
use crate::line::{Line, declares};
use crate::sections::next_section;
use crate::symbols::{Namespace, SymbolTable, first_name, locals_of, names_declared, sems_in};
use arrayvec::ArrayVec;
use pct_model::{
    Argument, ArgumentKind, Func, Funcs, Names, ParseWhy, ParsedLine, SemDecls, Sequence, Stmt,
    Stmts, SymbolKind, Token,
};
use std::alloc::{AllocError, Global};

fn variable(symbols: &SymbolTable, locals: &Namespace, word: &[u8]) -> Option<Argument>
    ensures { result ≡ variable (symbols_of symbols.now) locals.now word.now }
{
    match locals.index_of(word) {
        Some(index) => Some(Argument::Local(index)),
        None => Some(Argument::Global(symbols.globals.index_of(word)?)),
    }
}

fn item(symbols: &SymbolTable, kind: SymbolKind, word: &[u8]) -> Option<Argument>
    ensures { result ≡ option_map (λ index. Item index) (index_among (symbols_of symbols.now kind) word.now) }
{
    let index = symbols.of_kind(kind).index_of(word)?;
    Some(Argument::Item(index))
}

// Resolves a name by the argument kind.
#[tactic(auto, unfolding(pct_model::specs::Contents::resolve_name))]
fn resolve_name(
    symbols: &SymbolTable,
    locals: &Namespace,
    argument_kind: ArgumentKind,
    word: &[u8],
) -> Option<Argument>
    ensures { result ≡ resolve_name (symbols_of symbols.now) locals.now argument_kind word.now }
{
    match argument_kind {
        ArgumentKind::Operand | ArgumentKind::Variable | ArgumentKind::Dest => variable(
            symbols, locals, word,
        ),
        ArgumentKind::Item(kind) => item(symbols, kind, word),
        ArgumentKind::OptionalFunction
        | ArgumentKind::PlainFunction
        | ArgumentKind::OptionalPlainFunction => item(symbols, SymbolKind::Function, word),
        _ => None,
    }
}

// Resolves a token by the argument kind.
#[tactic(auto, unfolding(pct_model::specs::Contents::resolve))]
fn resolve(
    symbols: &SymbolTable,
    locals: &Namespace,
    argument_kind: ArgumentKind,
    word: &Token,
) -> Option<Argument>
    ensures { result ≡ resolve (symbols_of symbols.now) locals.now argument_kind word.now }
{
    match word {
        Token::Number(number) => Some(Argument::Number(*number)),
        Token::Name(name) => resolve_name(symbols, locals, argument_kind, name.as_bytes()),
        Token::Nothing => Some(Argument::Nothing),
        Token::Flag(is_set) => Some(Argument::Flag(*is_set)),
    }
}

// Resolves the tokens of a statement's line. The result is `None` if a name is not declared.
fn resolve_all(
    symbols: &SymbolTable,
    locals: &Namespace,
    line: &ParsedLine,
) -> Option<ArrayVec<Argument, 5>>
    requires { is_statement line.now ≡ true }
    ensures { option_map (λ arguments. arguments.items) result
        ≡ resolve_all (symbols_of symbols.now) locals.now (argument_kinds_in line.now) line.now.tokens }
{
    let words = line.tokens.as_slice();
    let mut arguments = ArrayVec::new();
    let mut rest = words;
    while let Some((word, after)) = rest.split_first() {
        let argument_kind = line.line_kind.argument_kind(words.len(), arguments.len())?;
        arguments.push(resolve(symbols, locals, argument_kind, word)?);
        rest = after;
    }
    Some(arguments)
}

/// The statement of a line in a function with these locals. The result is `None` if a name is not declared.
#[tactic(auto, unfolding(pct_grammar::specs::Resolving::resolve_statement))]
pub(crate) fn resolve_statement(
    symbols: &SymbolTable,
    locals: &Namespace,
    line: &ParsedLine,
) -> Option<Stmt>
    requires { is_statement line.now ≡ true }
    ensures { result ≡ resolve_statement (symbols_of symbols.now) locals.now line.now }
{
    let arguments = resolve_all(symbols, locals, line)?;
    Some(decode(line.line_kind, arguments.as_slice()))
}

// The statements of a function with these locals, or the first line with a name that is not declared.
fn resolve_body(
    alloc: Global,
    symbols: &SymbolTable,
    locals: &Namespace,
    body: &[Line],
) -> Result<Stmts, ParseFault>
    requires { list_all (λ l. is_statement l.1) body.now ≡ true }
    ensures { ParsesTo (λ stmts. stmts) result
        (unknown_in_body (symbols_of symbols.now) locals.now body.now)
        (resolve_body (symbols_of symbols.now) locals.now body.now) }
{
    let mut stmts = Vec::new(alloc);
    let mut rest = body;
    while let Some((line, after)) = rest.split_first() {
        let Some(stmt) = resolve_statement(symbols, locals, &line.1) else {
            return Err(ParseFault::Refused {
                line: line.0,
                why: ParseWhy::UnknownName,
            });
        };
        stmts.push(stmt)?;
        rest = after;
    }
    Ok(Sequence::of(stmts))
}

// The function of a `fn` line and the statement lines after it.
fn resolve_function(
    alloc: Global,
    symbols: &SymbolTable,
    header: &Line,
    body: &[Line],
) -> Result<Func, ParseFault>
    requires function { declares Function header.now.1 ≡ true }
    requires ready { is_ready header.now ≡ true }
    requires statements { list_all (λ l. is_statement l.1) body.now ≡ true }
    ensures { ParsesTo (λ func. func) result
        (unknown_in_section (symbols_of symbols.now) (record { header = header.now; body = body.now }))
        (resolve_function (symbols_of symbols.now) (record { header = header.now; body = body.now })) }
{
    let locals = locals_of(alloc, &header.1)?;
    let body = resolve_body(alloc, symbols, &locals, body)?;
    Ok(Func {
        name: first_name(header.1.tokens.as_slice()),
        locals: locals.into_names(),
        body,
    })
}

/// The functions of lines that begin with a declaration, or the first line with a name that is not declared.
pub(crate) fn resolve_functions(
    alloc: Global,
    symbols: &SymbolTable,
    lines: &[Line],
) -> Result<Funcs, ParseFault>
    requires preamble { (split_sections lines.now).preamble ≡ [] }
    requires ready { list_all is_ready lines.now ≡ true }
    ensures { ParsesTo (λ funcs. funcs) result
        (unknown_in_sections (symbols_of symbols.now) (functions_in lines.now))
        (resolve_functions (symbols_of symbols.now) (functions_in lines.now)) }
{
    let mut funcs = Vec::new(alloc);
    let mut rest = lines;
    while let Some((header, body, after)) = next_section(rest) {
        rest = after;
        if !declares(SymbolKind::Function, &header.1) {
            continue;
        }
        let func = resolve_function(alloc, symbols, header, body)?;
        funcs.push(func)?;
    }
    Ok(Sequence::of(funcs))
}

/// The contents of a script.
#[derive(Drop)]
pub struct ScriptContents {
    pub globals: Names,
    pub mutexes: Names,
    pub conds: Names,
    pub sems: SemDecls,
    pub onces: Names,
    pub funcs: Funcs,
}

// The symbol table of the names that lines declare.
fn symbol_table(alloc: Global, lines: &[Line]) -> Result<SymbolTable, AllocError>
    requires { length lines.now ≤ MAX_INPUT }
    ensures { IfOk result (λ symbols. (kind : SymbolKind) → symbols_of symbols kind ≡ names_declared lines.now kind) }
{
    let globals = names_declared(alloc, lines, SymbolKind::Global)?;
    let mutexes = names_declared(alloc, lines, SymbolKind::Mutex)?;
    let conds = names_declared(alloc, lines, SymbolKind::Cond)?;
    let sems = names_declared(alloc, lines, SymbolKind::Sem)?;
    let onces = names_declared(alloc, lines, SymbolKind::Once)?;
    let functions = names_declared(alloc, lines, SymbolKind::Function)?;
    Ok(SymbolTable {
        globals,
        mutexes,
        conds,
        sems,
        onces,
        functions,
    })
}

/// The contents of the script that the lines spell, or the first line with a name that is not declared.
pub fn resolve_contents(alloc: Global, lines: &[Line]) -> Result<ScriptContents, ParseFault>
    requires few { length lines.now ≤ MAX_INPUT }
    requires in_functions { are_in_functions lines.now ≡ true }
    requires ready { list_all is_ready lines.now ≡ true }
    ensures { ParsesTo contents_stored result (unknown_name lines.now) (resolve_contents lines.now) }
{
    let symbols = symbol_table(alloc, lines)?;
    let sems = sems_in(alloc, lines)?;
    let funcs = resolve_functions(alloc, &symbols, lines)?;
    Ok(ScriptContents {
        globals: symbols.globals.into_names(),
        mutexes: symbols.mutexes.into_names(),
        conds: symbols.conds.into_names(),
        sems,
        onces: symbols.onces.into_names(),
        funcs,
    })
}
