//! Choices and entries.

ghost use Rattle.std.specs.Prelude.{◌∷◌, ◌++◌, decimal};
ghost use Rattle.std.specs.List.{join_with_byte};
ghost use Rattle.pct_model.specs.Keywords.{keyword_text, line_text};
ghost use Rattle.pct_model.specs.Report.{alt_words, entry_line};
ghost use Rattle.pct_view_texts.specs.TextBuffers.{Appends};

use crate::TextBuffer;
use pct_event_texts::names::word;
use pct_io::{Field, NoMemory};
use pct_model::{Alt, Entry, Keyword};

/// Appends a choice.
#[tactic(auto, unfolding(pct_model::specs::Report::alt_words))]
pub(crate) fn push_choice(text: &mut TextBuffer, choice: Alt) -> Result<(), NoMemory>
    ensures { Appends text.old text.new (join_with_byte 32 (alt_words choice)) result }
{
    match choice {
        Alt::Go => text.push(Keyword::Go.text()),
        Alt::Act(n) => push_numbered(text, Keyword::Act, n),
        Alt::New(n) => push_numbered(text, Keyword::New, n),
        Alt::Pick(n) => push_numbered(text, Keyword::Pick, n),
        Alt::Dtor(n) => push_numbered(text, Keyword::Dtor, n),
        Alt::Expire => text.push(Keyword::Expire.text()),
    }
}

// Appends a word and a number.
fn push_numbered(text: &mut TextBuffer, keyword: Keyword, number: u32) -> Result<(), NoMemory>
    ensures { Appends text.old text.new (keyword_text keyword ++ 32 ∷ decimal number) result }
{
    text.push_words(&[Field::Text(keyword.text()), Field::Number(number)])
}

/// Appends the line of an entry, as in a schedule.
#[tactic(auto, unfolding(pct_model::specs::Report::alt_words, pct_model::specs::Report::entry_line))]
pub fn push_entry(text: &mut TextBuffer, entry: &Entry) -> Result<(), NoMemory>
    ensures { Appends text.old text.new (line_text (entry_line entry.now)) result }
{
    let worker = Field::Number(entry.worker);
    let pid = Field::Number(entry.pid);
    let tid = Field::Number(entry.tid);
    match entry.alt {
        Alt::Go => text.push_line(&[worker, pid, tid, word(Keyword::Go)]),
        Alt::Act(n) => text.push_line(&[worker, pid, tid, word(Keyword::Act), Field::Number(n)]),
        Alt::New(n) => text.push_line(&[worker, pid, tid, word(Keyword::New), Field::Number(n)]),
        Alt::Pick(n) => text.push_line(&[worker, pid, tid, word(Keyword::Pick), Field::Number(n)]),
        Alt::Dtor(n) => text.push_line(&[worker, pid, tid, word(Keyword::Dtor), Field::Number(n)]),
        Alt::Expire => text.push_line(&[worker, pid, tid, word(Keyword::Expire)]),
    }
}
