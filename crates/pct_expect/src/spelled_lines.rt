//! The lines of a text that are neither blank nor comments.

ghost use Rattle.std.specs.Prelude.{MatchOption, [], length, ◌∷◌, ◌≡◌, ◌≤◌};
ghost use Rattle.pct_model.specs.declared.limits.TheConstants.{MAX_INPUT};
ghost use Rattle.pct_model.specs.LineParsing.{spelled_lines};

use pct_text::{first_line, spells_something};
use std::marker::Model;

/// An iterator over the numbered lines of a text that spell something. Contracts see the list of the lines left.
#[derive(Drop)]
pub(crate) struct SpelledLines<'a> {
    /// The number of the first line left.
    number: u32,
    /// The rest of the text.
    rest: &'a [u8],
}

impl<'a> Model for SpelledLines<'a> {
    ghost use Rattle.std.specs.Prelude.{ℕ, ◌+◌, ◌≤◌, List, length};
    ghost use Rattle.pct_model.specs.declared.limits.TheConstants.{MAX_INPUT};
    ghost use Rattle.pct_expect.specs.SpelledLines.{spelled_from};

    ghost Value = { List (ℕ × List ℕ) };

    ghost view = { λ lines. spelled_from lines.number lines.rest.now };

    ghost invariant = { λ lines. lines.number + length lines.rest.now ≤ MAX_INPUT + 1 };
}

impl<'a> SpelledLines<'a> {
    /// The lines of a whole text.
    pub(crate) fn of(text: &'a [u8]) -> SpelledLines<'a>
        requires { length text.now ≤ MAX_INPUT }
        ensures { result ≡ spelled_lines text.now }
    {
        SpelledLines {
            number: 1,
            rest: text,
        }
    }

    /// The next line, or `None` after the last one.
    pub(crate) fn next(&mut self) -> Option<(u32, &'a [u8])>
        ensures { MatchOption result ((self.old ≡ []) × (self.new ≡ []))
            (λ first. self.old ≡ (first.0, first.1.now) ∷ self.new) }
    {
        while let Some((line, after)) = first_line(self.rest) {
            let number = self.number;
            self.number = number + 1;
            self.rest = after;
            if spells_something(line) {
                return Some((number, line));
            }
        }
        None
    }
}
