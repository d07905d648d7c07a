//! The check of spelling. It stores the first parsed lines, so that the other checks do not parse the text again.

ghost use Rattle.std.specs.Prelude.{Some, length, ◌≡◌, ◌≤◌};
ghost use Rattle.pct_model.specs.declared.limits.TheConstants.{MAX_INPUT};
ghost use Rattle.pct_model.specs.LineParsing.{spelled_lines};
ghost use Rattle.pct_model.specs.Spelling.{spelling};
ghost use Rattle.pct_model.specs.Sections.{parsed_lines};
ghost use Rattle.pct_script_lines.specs.Fault.{ParsesTo};

use pct_model::ParseWhy;
use pct_script_lines::{
    ParseFault, SpelledLines, StoredLines, misspelled, next_stored, store_spelled,
};
use std::alloc::Global;

/// The number of the first misspelled line, and why it is misspelled. It allocates no memory.
pub(crate) fn first_misspelled(spelled: SpelledLines) -> Option<(u32, ParseWhy)>
    ensures { result ≡ spelling spelled.entry }
{
    let mut lines = spelled;
    while let Some((number, line)) = lines.next() {
        if let Some(why) = misspelled(line) {
            return Some((number, why));
        }
    }
    None
}

/// The parsed lines of a text, or its first misspelled line.
pub(crate) fn stored_lines<'a>(alloc: Global, text: &'a [u8]) -> Result<StoredLines<'a>, ParseFault>
    requires { length text.now ≤ MAX_INPUT }
    ensures { ParsesTo (λ lines. lines) result (spelling (spelled_lines text.now)) (Some (parsed_lines text.now)) }
{
    let mut lines = Vec::new(alloc);
    let mut after = SpelledLines::of(text);
    while let Some((number, line)) = next_stored(&mut after, lines.len()) {
        store_spelled(alloc, &mut lines, number, line)?;
    }
    match first_misspelled(after.again()) {
        Some((line, why)) => Err(ParseFault::Refused { line, why }),
        None => Ok(StoredLines { lines, after }),
    }
}
