//! The checks of a script's text, in their order.

ghost use Rattle.std.specs.Prelude.{IfErr, None, Some, length, true, ◌≡◌, ◌≤◌};
ghost use Rattle.pct_model.specs.declared.limits.TheConstants.{MAX_INPUT};
ghost use Rattle.std.specs.List.{list_all};
ghost use Rattle.pct_model.specs.LineParsing.{spelled_lines};
ghost use Rattle.pct_model.specs.Spelling.{spelling};
ghost use Rattle.pct_model.specs.Sections.{are_in_functions, parsed_lines};
ghost use Rattle.pct_script_lines.specs.declared.fault.ParseFault.TheVariants.{NoMemory};
ghost use Rattle.pct_script_lines.specs.Fault.{IsFoundBy, ParsesTo, Passes};
ghost use Rattle.pct_script.specs.Order.{early_fault, last_fault, late_fault};
ghost use Rattle.pct_script_lines.specs.SectionSteps.{is_ready};
ghost use Rattle.pct_script_lines.specs.StoredContents.{contents_stored};
ghost use Rattle.pct_grammar.specs.Resolving.{resolve_contents};
ghost use Rattle.pct_model.specs.Checks.{no_main};

use crate::push_returns::return_in_push;
use crate::scan::{first_misspelled, stored_lines};
use pct_model::{Keyword, ParseWhy, SymbolKind};
use pct_script_lines::{
    Line, ParseFault, ScriptContents, SpelledLines, StoredLines, check_limits, check_nesting,
    name_twice, next_declared, not_plain, resolve_contents,
};
use std::alloc::Global;

// The result of a check that found this fault, or none.
fn refuse(found: Option<(u32, ParseWhy)>) -> Result<(), ParseFault>
    ensures { Passes result found }
{
    match found {
        Some((line, why)) => Err(ParseFault::Refused { line, why }),
        None => Ok(()),
    }
}

// The fault of a misspelled line, or `NoMemory` if there is none.
fn misspelled_or_no_memory(text: &[u8]) -> ParseFault
    requires { length text.now ≤ MAX_INPUT }
    ensures found { IsFoundBy (spelling (spelled_lines text.now)) result }
    ensures memory { result ≡ NoMemory → spelling (spelled_lines text.now) ≡ None }
{
    match first_misspelled(SpelledLines::of(text)) {
        Some((line, why)) => ParseFault::Refused { line, why },
        None => ParseFault::NoMemory,
    }
}

// Parses the lines of a text. The check of spelling needs no memory, so its fault is found even if memory runs out.
fn store_lines<'a>(alloc: Global, text: &'a [u8]) -> Result<StoredLines<'a>, ParseFault>
    requires { length text.now ≤ MAX_INPUT }
    ensures parsed { ParsesTo (λ lines. lines) result (spelling (spelled_lines text.now)) (Some (parsed_lines text.now)) }
    ensures memory { IfErr result (λ fault. fault ≡ NoMemory → spelling (spelled_lines text.now) ≡ None) }
{
    match stored_lines(alloc, text) {
        Ok(lines) => Ok(lines),
        Err(ParseFault::Refused { line, why }) => Err(ParseFault::Refused { line, why }),
        Err(ParseFault::NoMemory) => Err(misspelled_or_no_memory(text)),
    }
}

/// Parses the lines of a text, and makes the checks of spelling, nesting and limits.
#[tactic(auto, unfolding(crate::specs::Order::early_fault))]
pub(crate) fn read_text(alloc: Global, text: &[u8]) -> Result<Vec<Line>, ParseFault>
    requires { length text.now ≤ MAX_INPUT }
    ensures parsed { ParsesTo (λ lines. lines.items) result (early_fault text.now) (Some (parsed_lines text.now)) }
    ensures memory { IfErr result (λ fault. fault ≡ NoMemory → spelling (spelled_lines text.now) ≡ None) }
{
    let lines = store_lines(alloc, text)?;
    check_nesting(alloc, &lines)?;
    refuse(check_limits(&lines))?;
    let parsed = lines.into_lines(alloc)?;
    Ok(parsed)
}

// The checks after the resolution of names.
#[tactic(auto, unfolding(crate::specs::Order::last_fault))]
fn check_functions(lines: &[Line]) -> Result<(), ParseFault>
    requires { are_in_functions lines.now ≡ true }
    ensures { Passes result (last_fault lines.now) }
{
    refuse(return_in_push(lines))?;
    refuse(not_plain(lines))?;
    refuse(no_main(lines))
}

/// Resolves the lines to the contents of a script, and makes the checks that go over parsed lines.
#[tactic(auto, unfolding(crate::specs::Order::late_fault))]
pub(crate) fn read_lines(alloc: Global, lines: &[Line]) -> Result<ScriptContents, ParseFault>
    requires few { length lines.now ≤ MAX_INPUT }
    requires in_functions { are_in_functions lines.now ≡ true }
    requires ready { list_all is_ready lines.now ≡ true }
    ensures { ParsesTo contents_stored result (late_fault lines.now) (resolve_contents lines.now) }
{
    refuse(name_twice(lines))?;
    let contents = resolve_contents(alloc, lines)?;
    check_functions(lines)?;
    Ok(contents)
}

/// The check that a function has the name `main`. It allocates no memory.
#[tactic(auto, unfolding(pct_model::specs::Checks::no_main))]
pub(crate) fn no_main(lines: &[Line]) -> Option<(u32, ParseWhy)>
    ensures { result ≡ no_main lines.now }
{
    let mut rest = lines;
    while let Some((name, after)) = next_declared(SymbolKind::Function, rest) {
        if Keyword::Main.text() == name.as_bytes() {
            return None;
        }
        rest = after;
    }
    Some((1, ParseWhy::NoMain))
}
