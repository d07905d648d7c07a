//! The symbol table: the names that the lines of a script declare, looked up for its statements.

ghost use Rattle.std.specs.Prelude.{IfOk, IfSome, MatchOption, OnOk, [], bytes_eq, drop, length, position, true, ◌++◌, ◌<◌, ◌∷◌, ◌≡◌, ◌≤◌};
ghost use Rattle.pct_model.specs.declared.limits.TheConstants.{MAX_INPUT};
ghost use Rattle.pct_model.specs.Names.{all_different, index_among};
ghost use Rattle.pct_script_lines.specs.Symbols.{symbols_of};
ghost use Rattle.std.specs.List.{list_any};
ghost use Rattle.pct_model.specs.Sections.{declared_by, locals_of, names_declared, names_in};
ghost use Rattle.pct_script_lines.specs.DeclaredNames.{declared_of};
ghost use Rattle.pct_grammar.specs.Resolving.{first_name, sem_in, sems_in};
ghost use Rattle.pct_script_lines.specs.SectionSteps.{begins_with_name};

use crate::line::{Line, declares};
use pct_model::{Name, Names, ParsedLine, SemDecl, SemDecls, Sequence, SymbolKind, Token};
use std::alloc::{AllocError, Global};
use std::marker::Model;

/// The declared names of one kind, or the locals of a function. Contracts see the list.
#[derive(Drop)]
pub(crate) struct Namespace {
    names: Names,
}

impl Model for Namespace {
    ghost use Rattle.std.specs.Prelude.{ℕ, ◌≤◌, List, length};
    ghost use Rattle.pct_model.specs.declared.limits.TheConstants.{MAX_INPUT};

    ghost Value = { List (List ℕ) };

    ghost view = { λ t. t.names };

    ghost invariant = { λ t. length t.names ≤ MAX_INPUT };
}

fn first_index(names: &[Name], word: &[u8]) -> Option<usize>
    ensures { result ≡ position (λ name. bytes_eq name word.now) names.now }
{
    names.iter().position(|name| name.as_bytes() == word)
}

impl Namespace {
    /// The namespace of these names.
    pub(crate) fn of(names: Vec<Name>) -> Namespace
        requires { length names.items ≤ MAX_INPUT }
        ensures { result ≡ names.items }
    {
        Namespace {
            names: Sequence::of(names),
        }
    }

    /// The index of the first name with these bytes.
    pub(crate) fn index_of(&self, word: &[u8]) -> Option<u32>
        ensures { result ≡ index_among self.now word.now }
    {
        let index_of = first_index(self.names.as_slice(), word)?;
        Some(index_of as u32)
    }

    /// The list of the names.
    pub(crate) fn into_names(self) -> Names
        ensures { result ≡ self }
    {
        self.names
    }
}

/// The declared names of each kind, in the order of their declarations.
#[derive(Drop)]
pub(crate) struct SymbolTable {
    pub(crate) globals: Namespace,
    pub(crate) mutexes: Namespace,
    pub(crate) conds: Namespace,
    pub(crate) sems: Namespace,
    pub(crate) onces: Namespace,
    pub(crate) functions: Namespace,
}

impl SymbolTable {
    /// The declared names of a kind.
    pub(crate) fn of_kind(&self, kind: SymbolKind) -> &Namespace
        ensures { result.now ≡ symbols_of self.now kind }
    {
        match kind {
            SymbolKind::Global => &self.globals,
            SymbolKind::Mutex => &self.mutexes,
            SymbolKind::Cond => &self.conds,
            SymbolKind::Sem => &self.sems,
            SymbolKind::Once => &self.onces,
            SymbolKind::Function => &self.functions,
        }
    }
}

/// The first name among tokens, and the tokens after it.
pub(crate) fn next_name(words: &[Token]) -> Option<(&Name, &[Token])>
    ensures names { MatchOption result (names_in words.now ≡ [])
        (λ first. names_in words.now ≡ first.0.now ∷ names_in first.1.now) }
    ensures shorter { IfSome result (λ first. length first.1.now < length words.now) }
{
    let mut rest = words;
    while let Some((word, after)) = rest.split_first() {
        if let Token::Name(name) = word {
            return Some((name, after));
        }
        rest = after;
    }
    None
}

// Whether the name is among the tokens.
fn is_among(name: &Name, words: &[Token]) -> bool
    ensures { result ≡ list_any (bytes_eq name.now) (names_in words.now) }
{
    let mut rest = words;
    while let Some((other, after)) = next_name(rest) {
        if name.as_bytes() == other.as_bytes() {
            return true;
        }
        rest = after;
    }
    false
}

// Whether no two names among the tokens are the same.
#[tactic(auto, unfolding(pct_model::specs::Names::all_different))]
fn all_different(words: &[Token]) -> bool
    ensures { result ≡ all_different (names_in words.now) }
{
    let mut rest = words;
    while let Some((name, after)) = next_name(rest) {
        if is_among(name, after) {
            return false;
        }
        rest = after;
    }
    true
}

/// The name that a declaration declares.
pub(crate) fn declared_by(line: &ParsedLine) -> Option<&Name>
    ensures { MatchOption result (declared_by line.now ≡ []) (λ name. declared_by line.now ≡ name.now ∷ []) }
{
    match next_name(line.tokens.as_slice()) {
        Some((name, _)) => Some(name),
        None => None,
    }
}

/// Whether no two locals of a `fn` line are the same.
#[tactic(auto, unfolding(pct_model::specs::Names::all_different))]
pub(crate) fn locals_differ(line: &ParsedLine) -> bool
    ensures { result ≡ all_different (locals_of line.now) }
{
    match next_name(line.tokens.as_slice()) {
        Some((_, locals)) => all_different(locals),
        None => true,
    }
}

// The name that the line declares, if it is a declaration of this kind.
fn declared_of(kind: SymbolKind, line: &ParsedLine) -> Option<&Name>
    ensures { MatchOption result (declared_of kind line.now ≡ []) (λ name. declared_of kind line.now ≡ name.now ∷ []) }
{
    if declares(kind, line) {
        declared_by(line)
    } else {
        None
    }
}

/// The first name of this kind that the lines declare, and the lines after it.
pub fn next_declared(kind: SymbolKind, lines: &[Line]) -> Option<(&Name, &[Line])>
    ensures names { MatchOption result (names_declared lines.now kind ≡ [])
        (λ first. names_declared lines.now kind ≡ first.0.now ∷ names_declared first.1.now kind) }
    ensures shorter { IfSome result (λ first. length first.1.now < length lines.now) }
{
    let mut rest = lines;
    while let Some((line, after)) = rest.split_first() {
        if let Some(name) = declared_of(kind, &line.1) {
            return Some((name, after));
        }
        rest = after;
    }
    None
}

fn copied(name: &Name) -> Name
    ensures { result ≡ name.now }
{
    Name::of(name.as_bytes())
}

/// The names of this kind that the lines declare, in order.
pub(crate) fn names_declared(
    alloc: Global,
    lines: &[Line],
    kind: SymbolKind,
) -> Result<Namespace, AllocError>
    requires { length lines.now ≤ MAX_INPUT }
    ensures { IfOk result (λ names. names ≡ names_declared lines.now kind) }
{
    let mut names = Vec::new(alloc);
    let mut rest = lines;
    while let Some((name, after)) = next_declared(kind, rest) {
        names.push(copied(name))?;
        rest = after;
    }
    Ok(Namespace::of(names))
}

// The semaphore that the tokens of a `sem` line declare.
fn sem_in(words: &[Token]) -> Option<SemDecl>
    ensures { result ≡ sem_in words.now }
{
    match words {
        [Token::Name(name), Token::Number(count), ..] => Some(SemDecl {
            name: copied(name),
            count: *count,
        }),
        _ => None,
    }
}

// Appends the semaphore that the line declares, if it declares one.
#[tactic(auto, unfolding(pct_grammar::specs::Resolving::sems_in))]
fn keep_sem(sems: &mut Vec<SemDecl>, line: &Line) -> Result<(), AllocError>
    ensures { OnOk result (sems.new.items ≡ sems.old.items ++ sems_in (line.now ∷ [])) }
{
    if !declares(SymbolKind::Sem, &line.1) {
        return Ok(());
    }
    if let Some(sem) = sem_in(line.1.tokens.as_slice()) {
        sems.push(sem)?;
    }
    Ok(())
}

/// The semaphores that the lines declare, in order.
pub(crate) fn sems_in(alloc: Global, lines: &[Line]) -> Result<SemDecls, AllocError>
    ensures { IfOk result (λ sems. sems ≡ sems_in lines.now) }
{
    let mut sems = Vec::new(alloc);
    let mut rest = lines;
    while let Some((line, after)) = rest.split_first() {
        keep_sem(&mut sems, line)?;
        rest = after;
    }
    Ok(Sequence::of(sems))
}

// The tokens after the first name.
fn after_name(words: &[Token]) -> &[Token]
    ensures { names_in result.now ≡ drop 1 (names_in words.now) }
{
    match next_name(words) {
        Some((_, after)) => after,
        None => words,
    }
}

// The names among the tokens, in order.
fn names_in(alloc: Global, words: &[Token]) -> Result<Vec<Name>, AllocError>
    ensures { IfOk result (λ names. names.items ≡ names_in words.now) }
{
    let mut names = Vec::new(alloc);
    let mut rest = words;
    while let Some((name, after)) = next_name(rest) {
        names.push(copied(name))?;
        rest = after;
    }
    Ok(names)
}

/// The locals of a `fn` line.
pub(crate) fn locals_of(alloc: Global, line: &ParsedLine) -> Result<Namespace, AllocError>
    requires { length (locals_of line.now) ≤ 8 }
    ensures { IfOk result (λ names. names ≡ locals_of line.now) }
{
    let names = names_in(alloc, after_name(line.tokens.as_slice()))?;
    Ok(Namespace::of(names))
}

/// The first name among the tokens, which begin with one.
pub(crate) fn first_name(words: &[Token]) -> Name
    requires { begins_with_name words.now ≡ true }
    ensures { result ≡ first_name words.now }
{
    match words {
        [Token::Name(name), ..] => copied(name),
        _ => unreachable!(),
    }
}
