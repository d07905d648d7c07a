//! The lines of a script's text that are neither blank nor comments.

ghost use Rattle.std.specs.Prelude.{IfOk, MatchOption, [], filter_map, length, ◌∷◌, ◌≡◌, ◌≤◌};
ghost use Rattle.pct_model.specs.declared.limits.TheConstants.{MAX_INPUT};
ghost use Rattle.pct_model.specs.LineParsing.{spelled_lines};
ghost use Rattle.pct_model.specs.Sections.{parsed_numbered};

use crate::line::{Line, parse_line};
use pct_text::{first_line, spells_something};
use std::alloc::{AllocError, Global};
use std::marker::Model;

/// An iterator over the numbered lines of a text that spell something. Contracts see the list of the lines left.
#[derive(Drop)]
pub struct SpelledLines<'a> {
    /// The number of the first line left.
    number: u32,
    /// The rest of the text.
    rest: &'a [u8],
}

impl<'a> Model for SpelledLines<'a> {
    ghost use Rattle.std.specs.Prelude.{ℕ, ◌+◌, ◌≤◌, List, length};
    ghost use Rattle.pct_model.specs.declared.limits.TheConstants.{MAX_INPUT};
    ghost use Rattle.pct_script_lines.specs.SpelledLines.{spelled_from};

    ghost Value = { List (ℕ × List ℕ) };

    ghost view = { λ lines. spelled_from lines.number lines.rest.now };

    ghost invariant = { λ lines. lines.number + length lines.rest.now ≤ MAX_INPUT + 1 };
}

impl<'a> SpelledLines<'a> {
    /// The lines of a whole text.
    pub fn of(text: &'a [u8]) -> SpelledLines<'a>
        requires { length text.now ≤ MAX_INPUT }
        ensures { result ≡ spelled_lines text.now }
    {
        SpelledLines {
            number: 1,
            rest: text,
        }
    }

    /// A copy of the iterator.
    pub fn again(&self) -> SpelledLines<'a>
        ensures { result ≡ self.now }
    {
        SpelledLines {
            number: self.number,
            rest: self.rest,
        }
    }

    /// The next line, or `None` after the last one.
    pub fn next(&mut self) -> Option<(u32, &'a [u8])>
        ensures { MatchOption result ((self.old ≡ []) × (self.new ≡ []))
            (λ first. self.old ≡ (first.0, first.1.now) ∷ self.new) }
    {
        while let Some((line, after)) = first_line(self.rest) {
            let number = self.number;
            self.number = number + 1;
            self.rest = after;
            if spells_something(line) {
                return Some((number, line));
            }
        }
        None
    }
}

/// The next line that can be parsed, or `None` after the last one.
pub(crate) fn next_parsed(
    alloc: Global,
    lines: &mut SpelledLines,
) -> Result<Option<Line>, AllocError>
    ensures { IfOk result (λ found. MatchOption found (filter_map parsed_numbered lines.old ≡ [])
        (λ first. filter_map parsed_numbered lines.old ≡ first ∷ filter_map parsed_numbered lines.new)) }
{
    while let Some((number, line)) = lines.next() {
        if let Some(parsed) = parse_line(alloc, line)? {
            return Ok(Some((number, parsed)));
        }
    }
    Ok(None)
}
