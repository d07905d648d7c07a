//! The phrases of a field, which are collected in a text of their own.

ghost use Rattle.std.specs.Prelude.{◌≡◌, ◌∷◌, ◌++◌, List, map, codes};
ghost use Rattle.std.specs.List.{join_with_byte};
ghost use Rattle.pct_io.specs.Fields.{field_text as word_text};
ghost use Rattle.pct_view_texts.specs.Fields.{Phrase, after_commas, field_text};
ghost use Rattle.pct_view_texts.specs.TextBuffers.{text_in, Appends};

use crate::TextBuffer;
use pct_io::{Field, NoMemory};

/// Appends a phrase after a comma.
pub(crate) fn push_phrase(phrases: &mut TextBuffer, words: &[Field]) -> Result<(), NoMemory>
    ensures { Appends phrases.old phrases.new (codes ", " ++ join_with_byte 32 (map word_text words.now)) result }
{
    phrases.push(b", ")?;
    phrases.push_words(words)
}

/// Appends a tab, and the field of these phrases, each of which is after a comma, or `-` if there are none.
pub(crate) fn push_phrases(text: &mut TextBuffer, phrases: &TextBuffer) -> Result<(), NoMemory>
    ensures { (all : List Phrase) → text_in phrases.now ≡ after_commas all → Appends text.old text.new (9 ∷ field_text all) result }
{
    let bytes = phrases.as_slice();
    text.push(b"\t")?;
    if bytes.len() < 2 {
        text.push(b"-")
    } else {
        text.push(&bytes[2..])
    }
}
