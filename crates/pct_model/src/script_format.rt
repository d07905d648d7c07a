//! The format of the texts of a script.

ghost use Rattle.std.specs.Prelude.{◌≡◌};
ghost use Rattle.std.specs.List.{list_any};
ghost use Rattle.pct_model.specs.Formats.{format_of, is_timed};

use crate::schedule::Format;
use crate::script::{Func, Script};
use crate::statement::Stmt;

/// The format of the texts of the runs of a script.
#[tactic(auto, unfolding(crate::specs::Formats::format_of))]
pub fn format_of(script: &Script) -> Format
    ensures { result ≡ format_of script.now }
{
    if have_timed(script.funcs.as_slice()) || !script.onces.as_slice().is_empty() {
        Format::Two
    } else {
        Format::One
    }
}

// Whether a statement of one of these functions is a wait with a time.
fn have_timed(funcs: &[Func]) -> bool
    ensures { result ≡ list_any (λ f. list_any is_timed f.body) funcs.now }
{
    funcs.iter().any(|func| has_timed(func.body.as_slice()))
}

// Whether one of these statements is a wait with a time.
fn has_timed(body: &[Stmt]) -> bool
    ensures { result ≡ list_any is_timed body.now }
{
    body.iter().any(|statement| statement.is_timed())
}
