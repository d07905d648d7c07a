//! The sections of a script's lines: a declaration and the statements before the next declaration.

ghost use Rattle.std.specs.Prelude.{IfSome, MatchOption, [], length, not, position, true, ◌<◌, ◌∷◌, ◌≡◌};
ghost use Rattle.pct_model.specs.Sections.{functions_in, is_statement, split_sections};
ghost use Rattle.pct_script_lines.specs.SectionSteps.{BeginsWithSection};

use crate::line::{Line, declares, is_declaration};
use pct_model::{ParsedLine, SymbolKind};

/// Whether the line is a statement and not a declaration.
pub(crate) fn is_statement(line: &ParsedLine) -> bool
    ensures { result ≡ is_statement line.now }
{
    !is_declaration(line)
}

// The index of the first declaration.
fn next_header(lines: &[Line]) -> Option<usize>
    ensures { result ≡ position (λ l. not (is_statement l.1)) lines.now }
{
    lines.iter().position(|line| !is_statement(&line.1))
}

/// The header and the body of the first section, and the lines after it. The result is `None` if there are no lines.
pub(crate) fn next_section(lines: &[Line]) -> Option<(&Line, &[Line], &[Line])>
    requires { (split_sections lines.now).preamble ≡ [] }
    ensures section { MatchOption result (lines.now ≡ []) (λ section. BeginsWithSection lines.now section.0.now section.1.now section.2.now) }
    ensures shorter { IfSome result (λ section. length section.2.now < length lines.now) }
{
    let (header, after) = lines.split_first()?;
    let (body, rest) = after.split_at(next_header(after).unwrap_or(after.len()));
    Some((header, body, rest))
}

/// The `fn` line and the body of the first function, and the lines after it.
pub fn next_function(lines: &[Line]) -> Option<(&Line, &[Line], &[Line])>
    requires { (split_sections lines.now).preamble ≡ [] }
    ensures section { MatchOption result (functions_in lines.now ≡ [])
        (λ section. functions_in lines.now ≡ record { header = section.0.now; body = section.1.now } ∷ functions_in section.2.now) }
    ensures after { IfSome result (λ section. (split_sections section.2.now).preamble ≡ []) }
    ensures shorter { IfSome result (λ section. length section.2.now < length lines.now) }
{
    let mut rest = lines;
    while let Some((header, body, after)) = next_section(rest) {
        if declares(SymbolKind::Function, &header.1) {
            return Some((header, body, after));
        }
        rest = after;
    }
    None
}
