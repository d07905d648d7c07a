//! The check that the handlers of `fork` and `atexit` are plain functions.

ghost use Rattle.std.specs.Prelude.{◌≡◌, ◌≤◌, true, false, [], ◌∷◌, slice_get, if◌then◌else◌};
ghost use Rattle.std.specs.List.{list_all};
ghost use Rattle.std.specs.Option.{option_map_or};
ghost use Rattle.pct_model.specs.declared.line_kind.SymbolKind.TheVariants.{Function};
ghost use Rattle.pct_model.specs.Names.{index_among};
ghost use Rattle.pct_model.specs.Sections.{role_in, names_in, names_declared, functions_in, split_sections, are_in_functions};
ghost use Rattle.pct_model.specs.Checks.{first_that, asks_plain, is_plain, is_plain_section, is_plain_function, names_other, not_plain};

use crate::line::{Line, role_in};
use crate::sections::next_function;
use crate::symbols::next_declared;
use pct_model::{ArgumentKind, Block, ParseWhy, ParsedLine, Role, SymbolKind, Token};

fn asks_plain(argument_kind: ArgumentKind) -> bool
    ensures { result ≡ asks_plain argument_kind }
{
    match argument_kind {
        ArgumentKind::PlainFunction | ArgumentKind::OptionalPlainFunction => true,
        _ => false,
    }
}

fn is_plain(role: Role) -> bool
    ensures { result ≡ is_plain role }
{
    match role {
        Role::Opens(Block::If) | Role::Else | Role::End | Role::Return | Role::Plain => true,
        _ => false,
    }
}

fn are_plain(body: &[Line]) -> bool
    ensures { result ≡ list_all (λ l. is_plain (role_in l.1)) body.now }
{
    body.iter().all(|line| is_plain(role_in(&line.1)))
}

// The index of the first function with this name.
fn function_index(lines: &[Line], name: &[u8]) -> Option<usize>
    ensures { result ≡ index_among (names_declared lines.now Function) name.now }
{
    let mut at: usize = 0;
    let mut rest = lines;
    while let Some((declared, after)) = next_declared(SymbolKind::Function, rest) {
        if declared.as_bytes() == name {
            return Some(at);
        }
        at += 1;
        rest = after;
    }
    None
}

// Whether the function at this index is plain.
fn is_plain_at(lines: &[Line], at: usize) -> bool
    requires { (split_sections lines.now).preamble ≡ [] }
    ensures { result ≡ option_map_or is_plain_section (slice_get (functions_in lines.now) at) false }
{
    let mut left = at;
    let mut rest = lines;
    while let Some((_, body, after)) = next_function(rest) {
        if left == 0 {
            return are_plain(body);
        }
        left -= 1;
        rest = after;
    }
    false
}

// Whether the function with this name is plain.
#[tactic(auto, unfolding(pct_model::specs::Checks::is_plain_function))]
fn is_plain_function(lines: &[Line], name: &[u8]) -> bool
    requires { (split_sections lines.now).preamble ≡ [] }
    ensures { result ≡ is_plain_function lines.now name.now }
{
    match function_index(lines, name) {
        Some(at) => is_plain_at(lines, at),
        None => false,
    }
}

// Whether the word fits: if the argument kind asks for a plain function and the word is a name, it names a plain one.
fn is_plain_word(lines: &[Line], argument_kind: ArgumentKind, word: &Token) -> bool
    requires { (split_sections lines.now).preamble ≡ [] }
    ensures { result ≡ list_all (is_plain_function lines.now) (if asks_plain argument_kind then names_in (word.now ∷ []) else []) }
{
    if !asks_plain(argument_kind) {
        return true;
    }
    match word {
        Token::Name(name) => is_plain_function(lines, name.as_bytes()),
        _ => true,
    }
}

// Whether the line names a function that is not plain as an argument that has to be plain.
#[tactic(auto, unfolding(pct_model::specs::Checks::names_other), using(crate::proofs::PlainWords::pass_at_end, crate::proofs::PlainWords::pass_after, crate::proofs::PlainWords::fails_here, crate::proofs::PlainWords::passes_here))]
fn names_other(lines: &[Line], line: &ParsedLine) -> bool
    requires { (split_sections lines.now).preamble ≡ [] }
    ensures { result ≡ names_other lines.now line.now }
{
    let words = line.tokens.as_slice();
    let mut at: usize = 0;
    let mut rest = words;
    while let Some((word, after)) = rest.split_first() {
        let Some(argument_kind) = line.line_kind.argument_kind(words.len(), at) else {
            return false;
        };
        if !is_plain_word(lines, argument_kind, word) {
            return true;
        }
        at += 1;
        rest = after;
    }
    false
}

// The number of the first line of the body that does.
fn other_in(lines: &[Line], body: &[Line]) -> Option<u32>
    requires { (split_sections lines.now).preamble ≡ [] }
    ensures { result ≡ first_that (names_other lines.now) body.now }
{
    let mut rest = body;
    while let Some((line, after)) = rest.split_first() {
        if names_other(lines, &line.1) {
            return Some(line.0);
        }
        rest = after;
    }
    None
}

/// The check that the handlers of `fork` and `atexit` are plain functions. It allocates no memory.
#[tactic(auto, unfolding(pct_model::specs::Checks::not_plain))]
pub fn not_plain(lines: &[Line]) -> Option<(u32, ParseWhy)>
    requires { are_in_functions lines.now ≡ true }
    ensures { result ≡ not_plain lines.now }
{
    let mut rest = lines;
    while let Some((_, body, after)) = next_function(rest) {
        if let Some(number) = other_in(lines, body) {
            return Some((number, ParseWhy::NotPlain));
        }
        rest = after;
    }
    None
}
