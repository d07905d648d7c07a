//! The check that no name is declared twice.

ghost use Rattle.std.specs.Prelude.{◌≡◌, not, ◌&&◌, bytes_eq};
ghost use Rattle.std.specs.List.{list_any};
ghost use Rattle.pct_model.specs.declared.line_kind.SymbolKind.TheVariants.{Function};
ghost use Rattle.pct_model.specs.Names.{all_different};
ghost use Rattle.pct_model.specs.Sections.{declared_by, declares, locals_of};
ghost use Rattle.pct_model.specs.Checks.{name_twice};
ghost use Rattle.pct_script_lines.specs.DeclaredBefore.{declares_name, declare_name, declares_twice, is_wrong};

use crate::line::{Line, declares, is_declaration};
use crate::symbols::{declared_by, locals_differ};
use pct_model::{ParseWhy, ParsedLine, SymbolKind};

fn declares_name(name: &[u8], line: &ParsedLine) -> bool
    ensures { result ≡ declares_name name.now line.now }
{
    if !is_declaration(line) {
        return false;
    }
    match declared_by(line) {
        Some(declared) => name == declared.as_bytes(),
        None => false,
    }
}

fn declare_name(lines: &[Line], name: &[u8]) -> bool
    ensures { result ≡ declare_name lines.now name.now }
{
    let mut rest = lines;
    while let Some((line, after)) = rest.split_first() {
        if declares_name(name, &line.1) {
            return true;
        }
        rest = after;
    }
    false
}

// Whether a line of `before` declares the name that this line declares.
fn is_declared(before: &[Line], line: &ParsedLine) -> bool
    ensures { result ≡ list_any (declare_name before.now) (declared_by line.now) }
{
    match declared_by(line) {
        Some(name) => declare_name(before, name.as_bytes()),
        None => false,
    }
}

fn has_locals_twice(line: &ParsedLine) -> bool
    ensures { result ≡ declares Function line.now && not (all_different (locals_of line.now)) }
{
    declares(SymbolKind::Function, line) && !locals_differ(line)
}

fn declares_twice(before: &[Line], line: &ParsedLine) -> bool
    ensures { result ≡ declares_twice before.now line.now }
{
    is_declared(before, line) || has_locals_twice(line)
}

fn is_wrong(before: &[Line], line: &ParsedLine) -> bool
    ensures { result ≡ is_wrong before.now line.now }
{
    is_declaration(line) && declares_twice(before, line)
}

/// The check that no name is declared twice, neither in the script nor among the locals of a function. It allocates no
/// memory.
pub fn name_twice(lines: &[Line]) -> Option<(u32, ParseWhy)>
    ensures { result ≡ name_twice lines.now }
{
    let mut at: usize = 0;
    let mut rest = lines;
    while let Some((line, after)) = rest.split_first() {
        let (before, _) = lines.split_at(at);
        if is_wrong(before, &line.1) {
            return Some((line.0, ParseWhy::NameTwice));
        }
        at += 1;
        rest = after;
    }
    None
}
