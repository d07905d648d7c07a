//! Why a word does not fit an argument kind.

ghost use Rattle.std.specs.Prelude.{◌≡◌};
ghost use Rattle.pct_model.specs.Spelling.{begins_with_digit, not_a_number, why_not};

use pct_model::{ArgumentKind, ParseWhy};
use pct_text::is_digit;

fn begins_with_digit(word: &[u8]) -> bool
    ensures { result ≡ begins_with_digit word.now }
{
    match word {
        [] => false,
        [first, ..] => is_digit(*first),
    }
}

fn not_a_number(word: &[u8]) -> ParseWhy
    ensures { result ≡ not_a_number word.now }
{
    if begins_with_digit(word) {
        ParseWhy::BadNumber
    } else {
        ParseWhy::BadName
    }
}

/// The fault of a word that does not fit the argument kind.
#[tactic(auto, unfolding(pct_model::specs::Spelling::why_not))]
pub(crate) fn why_not(argument_kind: ArgumentKind, word: &[u8]) -> ParseWhy
    ensures { result ≡ why_not argument_kind word.now }
{
    match argument_kind {
        ArgumentKind::Count | ArgumentKind::Operand => not_a_number(word),
        ArgumentKind::State | ArgumentKind::Mode | ArgumentKind::Detached => ParseWhy::UnknownWord,
        _ => ParseWhy::BadName,
    }
}
