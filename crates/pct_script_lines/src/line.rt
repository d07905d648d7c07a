//! The lines of a script's text: parsing one, and its role among the others.

ghost use Rattle.std.specs.Prelude.{IfOk, OnOk, option_to_list, ◌++◌, ◌≡◌};
ghost use Rattle.pct_model.specs.Sections.{declares, is_declaration, is_same, parsed_numbered, role_in};
ghost use Rattle.pct_model.specs.LineParsing.{parsed, parsed_words, words_in};

use crate::arguments::tokens_at;
use crate::spelling::line_kind_of;
use pct_model::{ParsedLine, Role, SymbolKind};
use pct_text::{are_allowed, count_words, next_word};
use std::alloc::{AllocError, Global};

/// A parsed line with its number.
pub type Line = (u32, ParsedLine);

// Parses the words of a line.
#[tactic(auto, unfolding(pct_model::specs::LineParsing::parsed_words))]
fn parsed_words(alloc: Global, line: &[u8]) -> Result<Option<ParsedLine>, AllocError>
    ensures { IfOk result (λ found. found ≡ parsed_words (words_in line.now)) }
{
    let Some((word, after)) = next_word(line) else {
        return Ok(None);
    };
    let Some(line_kind) = line_kind_of(word) else {
        return Ok(None);
    };
    let Some(tokens) = tokens_at(alloc, line_kind, count_words(after), after)? else {
        return Ok(None);
    };
    Ok(Some(ParsedLine { line_kind, tokens }))
}

/// Parses a line. The result is `None` for a line that is misspelled, blank or a comment.
#[tactic(auto, unfolding(pct_model::specs::LineParsing::parsed))]
pub(crate) fn parse_line(alloc: Global, line: &[u8]) -> Result<Option<ParsedLine>, AllocError>
    ensures { IfOk result (λ found. found ≡ parsed line.now) }
{
    if are_allowed(line) {
        parsed_words(alloc, line)
    } else {
        Ok(None)
    }
}

/// Appends the parsed line, if it can be parsed.
pub(crate) fn store_line(
    alloc: Global,
    lines: &mut Vec<Line>,
    number: u32,
    line: &[u8],
) -> Result<(), AllocError>
    ensures { OnOk result (lines.new.items ≡ lines.old.items ++ option_to_list (parsed_numbered (number, line.now))) }
{
    if let Some(parsed) = parse_line(alloc, line)? {
        lines.push((number, parsed))?;
    }
    Ok(())
}

fn is_same(kind: SymbolKind, other: SymbolKind) -> bool
    ensures { result ≡ is_same kind other }
{
    match (kind, other) {
        (SymbolKind::Global, SymbolKind::Global)
        | (SymbolKind::Mutex, SymbolKind::Mutex)
        | (SymbolKind::Cond, SymbolKind::Cond)
        | (SymbolKind::Sem, SymbolKind::Sem)
        | (SymbolKind::Once, SymbolKind::Once)
        | (SymbolKind::Function, SymbolKind::Function) => true,
        _ => false,
    }
}

/// The role of a line: how it opens, closes or fills blocks.
pub fn role_in(line: &ParsedLine) -> Role
    ensures { result ≡ role_in line.now }
{
    line.line_kind.role()
}

/// Whether the line is a declaration of this kind.
pub(crate) fn declares(kind: SymbolKind, line: &ParsedLine) -> bool
    ensures { result ≡ declares kind line.now }
{
    match role_in(line) {
        Role::Declares(other) => is_same(kind, other),
        _ => false,
    }
}

/// Whether the line is a declaration.
pub(crate) fn is_declaration(line: &ParsedLine) -> bool
    ensures { result ≡ is_declaration (role_in line.now) }
{
    match role_in(line) {
        Role::Declares(_) => true,
        _ => false,
    }
}
