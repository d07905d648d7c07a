//! `parse`: a script from its text.

ghost use Rattle.std.specs.Prelude.{◌≡◌, ◌≢◌, ◌≤◌, ◌↔◌, [], length, None, IfOk, IfErr, IsTrue};
ghost use Rattle.pct_model.specs.declared.limits.TheConstants.{MAX_INPUT};
ghost use Rattle.pct_model.specs.declared.script.Script.{Script};
ghost use Rattle.pct_model.specs.Checks.{first_fault};
ghost use Rattle.pct_model.specs.Sections.{parsed_lines};
ghost use Rattle.pct_model.specs.Spelling.{spelling};
ghost use Rattle.pct_model.specs.Spells.{Spells};
ghost use Rattle.pct_script_lines.specs.declared.fault.ParseFault.TheVariants.{NoMemory};
ghost use Rattle.pct_model.specs.LineParsing.{spelled_lines};
ghost use Rattle.pct_script_lines.specs.Fault.{IsFaultOf, IsFoundBy, NeedsMemory, ParsesTo};
ghost use Rattle.pct_script.specs.Order.{fault_in_order};
ghost use Rattle.pct_script_lines.specs.StoredContents.{contents_stored};
ghost use Rattle.pct_grammar.specs.Resolving.{resolve_contents};

use crate::checks::{read_lines, read_text};
use pct_model::{ParseWhy, Script};
use pct_script_lines::{ParseFault, ScriptContents, SpelledLines};
use std::alloc::Global;

// Whether all lines of the text are blank or comments.
fn spells_nothing(text: &[u8]) -> bool
    requires { length text.now ≤ MAX_INPUT }
    ensures { IsTrue result ↔ (spelled_lines text.now ≡ []) }
{
    SpelledLines::of(text).next().is_none()
}

// The fault of a text without a line that spells something, or `NoMemory` for any other text.
fn no_main_or_no_memory(text: &[u8]) -> ParseFault
    requires { length text.now ≤ MAX_INPUT }
    ensures found { IsFoundBy (fault_in_order text.now) result }
    ensures memory { result ≡ NoMemory → spelled_lines text.now ≢ [] }
{
    if spells_nothing(text) {
        ParseFault::Refused {
            line: 1,
            why: ParseWhy::NoMain,
        }
    } else {
        ParseFault::NoMemory
    }
}

// The contents of the script that a text spells, or the first fault of the text, unless memory runs out.
#[tactic(auto, unfolding(crate::specs::Order::fault_in_order))]
fn read_checked(alloc: Global, text: &[u8]) -> Result<ScriptContents, ParseFault>
    requires { length text.now ≤ MAX_INPUT }
    ensures parsed { ParsesTo contents_stored result (fault_in_order text.now) (resolve_contents (parsed_lines text.now)) }
    ensures memory { IfErr result (λ fault. fault ≡ NoMemory → spelling (spelled_lines text.now) ≡ None) }
{
    let lines = read_text(alloc, text)?;
    read_lines(alloc, &lines)
}

// The contents of the script that a text spells, or the first fault of the text. A text without a line that spells
// something is refused even if memory runs out.
fn read(alloc: Global, text: &[u8]) -> Result<ScriptContents, ParseFault>
    requires { length text.now ≤ MAX_INPUT }
    ensures parsed { ParsesTo contents_stored result (fault_in_order text.now) (resolve_contents (parsed_lines text.now)) }
    ensures memory { IfErr result (λ fault. fault ≡ NoMemory → NeedsMemory text.now) }
{
    match read_checked(alloc, text) {
        Ok(contents) => Ok(contents),
        Err(ParseFault::Refused { line, why }) => Err(ParseFault::Refused { line, why }),
        Err(ParseFault::NoMemory) => Err(no_main_or_no_memory(text)),
    }
}

/// The script that this text spells.
///
/// The text has at most 16,777,216 bytes. `Refused` is returned for a text that spells no script, with the number of the
/// line, counted from 1, and the reason. A text may have several faults. The checks are made one after the other, and the
/// first line that fails the first failing check is reported. The checks are, in this order:
///
/// 1. the spelling of the lines (`NotAscii`, `UnknownWord`, `WordCount`, `BadNumber`, `BadName`);
/// 2. the nesting of blocks (`Misplaced`, `StrayEnd`, `PopUnmatched`, `Unclosed`);
/// 3. the limits (`TooMany`): 64 functions, 2,000 statement lines, 32 declarations of each other kind, 8 locals of a function;
/// 4. names that are declared twice (`NameTwice`);
/// 5. names that are not declared (`UnknownName`);
/// 6. a `return` between a push and its pop (`ReturnInPush`; XSH pthread_cleanup_push);
/// 7. a handler of `fork` or `atexit` that is not a plain function (`NotPlain`);
/// 8. no function with the name `main` (`NoMain`, at line 1).
///
/// `NoMemory` is returned if an allocation fails, and only for a text of which a line spells something and no line is
/// misspelled. The check of spelling needs no memory.
pub fn parse(alloc: Global, text: &[u8]) -> Result<Script, ParseFault>
    requires { length text.now ≤ MAX_INPUT }

    // The text spells the script, and has no fault.
    ensures spelled { IfOk result (λ script. Spells text.now script) }
    ensures faultless { IfOk result (λ script. first_fault text.now ≡ None) }

    // A refusal reports the first fault of the text.
    ensures refused { IfErr result (λ fault. IsFaultOf text.now fault) }

    // Out of memory is reported only of a text whose check needs memory.
    ensures memory { IfErr result (λ fault. fault ≡ NoMemory → NeedsMemory text.now) }

    // The text spells no other script.
    ensures one { IfOk result (λ script. (other : Script) → Spells text.now other → other ≡ script) }
{
    let contents = read(alloc, text)?;
    Ok(Script {
        globals: contents.globals,
        mutexes: contents.mutexes,
        conds: contents.conds,
        sems: contents.sems,
        onces: contents.onces,
        funcs: contents.funcs,
    })
}
