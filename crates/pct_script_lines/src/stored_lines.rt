//! The first parsed lines of a text, which are stored so that the checks do not parse the text again, and the outlines of lines.

ghost use Rattle.std.specs.Prelude.{IfOk, MatchOption, OnOk, [], option_map, option_to_list, ◌++◌, ◌∷◌, ◌≡◌};
ghost use Rattle.pct_model.specs.LineParsing.{words_in};
ghost use Rattle.pct_model.specs.Spelling.{misspelled};
ghost use Rattle.pct_script_lines.specs.Outlines.{outline_of, outline_of_words, outlines_in, outlines_of};
ghost use Rattle.pct_model.specs.Sections.{parsed_numbered};
ghost use Rattle.pct_script_lines.specs.Fault.{Passes};

use crate::fault::ParseFault;
use crate::line::{Line, parse_line, store_line};
use crate::spelled_lines::SpelledLines;
use crate::spelling::{line_kind_of, misspelled};
use pct_model::{LineKind, ParsedLine};
use pct_text::{count_words, next_word};
use std::alloc::{AllocError, Global};
use std::marker::Model;

/// The outline of a line: its kind, and the number of words after the first one.
#[derive(Clone, Copy)]
pub(crate) struct LineOutline {
    pub(crate) line_kind: LineKind,
    pub(crate) token_count: usize,
}

// The outline of a line, if its first word begins a kind of line.
fn outline_in(line: &[u8]) -> Option<LineOutline>
    ensures { result ≡ outline_of_words (words_in line.now) }
{
    let (word, after) = next_word(line)?;
    let line_kind = line_kind_of(word)?;
    Some(LineOutline {
        line_kind,
        token_count: count_words(after),
    })
}

/// The outline of a parsed line.
pub(crate) fn outline_of(parsed: &ParsedLine) -> LineOutline
    ensures { result ≡ outline_of parsed.now }
{
    LineOutline {
        line_kind: parsed.line_kind,
        token_count: parsed.tokens.as_slice().len(),
    }
}

/// The outline and the number of the next line, or `None` after the last one.
pub(crate) fn next_outline(lines: &mut SpelledLines) -> Option<(u32, LineOutline)>
    ensures { MatchOption result (outlines_in lines.old ≡ [])
        (λ first. outlines_in lines.old ≡ first ∷ outlines_in lines.new) }
{
    while let Some((number, line)) = lines.next() {
        if let Some(outline) = outline_in(line) {
            return Some((number, outline));
        }
    }
    None
}

/// The maximum number of stored lines: one more than a text within the limits has, which are 64 functions, 32 declarations
/// of each of 5 other kinds, and 2,000 statement lines.
const MAX_STORED: usize = 2_225;

/// The maximum number of words of a stored line. A longer line and those after it are not stored; within the limits no line
/// has more than 10 words.
const MAX_WORDS: usize = 16;

/// The length of the shortest line with more words: so many words of one byte, with a blank between two.
const LONG_LINE: usize = 2 * MAX_WORDS + 1;

/// The parsed lines of a text of which no line is misspelled. Contracts see their list.
#[derive(Drop)]
pub struct StoredLines<'a> {
    /// The first parsed lines.
    pub lines: Vec<Line>,
    /// The lines after them, which are not stored.
    pub after: SpelledLines<'a>,
}

impl<'a> Model for StoredLines<'a> {
    ghost use Rattle.std.specs.Prelude.{◌≡◌, ◌++◌, true, List, filter_map, is_some};
    ghost use Rattle.std.specs.List.{list_all};
    ghost use Rattle.pct_model.specs.Sections.{Line, parsed_numbered};
    ghost use Rattle.pct_model.specs.LineParsing.{parsed};

    ghost Value = { List Line };

    ghost view = { λ k. k.lines.items ++ filter_map parsed_numbered k.after };

    ghost invariant = { λ k. list_all (λ l. is_some (parsed l.1)) k.after ≡ true };
}

impl<'a> StoredLines<'a> {
    /// An iterator over the outlines of the lines.
    pub(crate) fn outlines<'b>(&'b self) -> OutlinesLeft<'b, 'a>
        ensures { result ≡ outlines_of self.now }
    {
        OutlinesLeft {
            lines: &self.lines,
            at: 0,
            after: self.after.again(),
        }
    }

    /// The parsed lines in a vector.
    pub fn into_lines(self, alloc: Global) -> Result<Vec<Line>, AllocError>
        ensures { IfOk result (λ lines. lines.items ≡ self.entry) }
    {
        let mut lines = self.lines;
        let mut left = self.after;
        while let Some((number, line)) = left.next() {
            store_line(alloc, &mut lines, number, line)?;
        }
        Ok(lines)
    }
}

/// An iterator over the outlines of stored lines. Contracts see the list of the outlines left.
#[derive(Drop)]
pub(crate) struct OutlinesLeft<'b, 'a> {
    /// The stored lines.
    lines: &'b [Line],
    /// The number of stored lines that were passed.
    at: usize,
    /// The lines left that are not stored.
    after: SpelledLines<'a>,
}

impl<'b, 'a> Model for OutlinesLeft<'b, 'a> {
    ghost use Rattle.std.specs.Prelude.{ℕ, ◌++◌, List, drop};
    ghost use Rattle.pct_script_lines.specs.declared.stored_lines.LineOutline.{LineOutline};
    ghost use Rattle.pct_script_lines.specs.Outlines.{outlines_in, outlines_of};

    ghost Value = { List (ℕ × LineOutline) };

    ghost view = { λ h. outlines_of (drop h.at h.lines.now) ++ outlines_in h.after };
}

impl<'b, 'a> OutlinesLeft<'b, 'a> {
    /// The outline and the number of the next line, or `None` after the last one.
    #[inline(always)]
    pub(crate) fn next(&mut self) -> Option<(u32, LineOutline)>
        ensures { MatchOption result (self.old ≡ []) (λ first. self.old ≡ first ∷ self.new) }
    {
        if let Some(line) = self.lines.get(self.at) {
            self.at += 1;
            return Some((line.0, outline_of(&line.1)));
        }
        next_outline(&mut self.after)
    }
}

/// The next line, if it is to be stored where this many lines are.
pub fn next_stored<'a>(lines: &mut SpelledLines<'a>, kept: usize) -> Option<(u32, &'a [u8])>
    ensures { MatchOption result (lines.old ≡ lines.new)
        (λ first. lines.old ≡ (first.0, first.1.now) ∷ lines.new) }
{
    if MAX_STORED <= kept {
        return None;
    }
    let mut left = lines.again();
    match left.next() {
        Some((number, line)) => {
            if LONG_LINE <= line.len() && MAX_WORDS < count_words(line) {
                return None;
            }
            *lines = left;
            Some((number, line))
        }
        None => {
            *lines = left;
            None
        }
    }
}

/// Appends the parsed line, or refuses a misspelled one.
pub fn store_spelled(
    alloc: Global,
    lines: &mut Vec<Line>,
    number: u32,
    line: &[u8],
) -> Result<(), ParseFault>
    ensures kept { OnOk result (lines.new.items ≡ lines.old.items ++ option_to_list (parsed_numbered (number, line.now))) }
    ensures spelled { Passes result (option_map (λ why. (number, why)) (misspelled line.now)) }
{
    let Some(parsed) = parse_line(alloc, line)? else {
        return match misspelled(line) {
            Some(why) => Err(ParseFault::Refused { line: number, why }),
            None => Ok(()),
        };
    };
    lines.push((number, parsed))?;
    Ok(())
}
