//! The check of spelling, for one line.

ghost use Rattle.std.specs.Prelude.{◌≡◌, length, IfSome, IsTrue, Some};
ghost use Rattle.std.specs.Option.{option_map};
ghost use Rattle.pct_model.specs.declared.line_kind.LineKind.TheVariants.{Point};
ghost use Rattle.pct_model.specs.LineKinds.{is_generic, point_statement, line_kind_of, syntax_of};
ghost use Rattle.pct_model.specs.LineParsing.{words_in};
ghost use Rattle.pct_model.specs.Spelling.{faulty_word, fault_at, fault_of_words, misspelled};

use crate::argument_kind::why_not;
use crate::arguments::token_at;
use pct_cancel::point_of;
use pct_model::{LineKind, ParseWhy, PointKind, PointWait, SymbolKind, line_kind_with};
use pct_text::{are_allowed, count_words, next_word};

fn is_generic(kind: PointKind, wait: PointWait) -> bool
    ensures { result ≡ is_generic kind wait }
{
    match kind {
        PointKind::Required => match wait {
            PointWait::Outside | PointWait::Never => true,
            PointWait::NoWait | PointWait::Inside => false,
        },
        PointKind::Optional => true,
    }
}

// The line kind of a cancellation point that is a statement by its name alone.
#[tactic(auto, unfolding(pct_model::specs::LineKinds::point_statement))]
fn point_kind(word: &[u8]) -> Option<LineKind>
    ensures { result ≡ option_map (λ index. Point index) (point_statement word.now) }
{
    let point = point_of(word)?;
    if is_generic(point.kind, point.wait) {
        Some(LineKind::Point(point.index))
    } else {
        None
    }
}

// The line kinds with keywords of this length, the most frequent ones first.
fn kinds_by_length(length: usize) -> &'static [LineKind] {
    match length {
        2 => &[
            LineKind::If,
            LineKind::Do,
            LineKind::Declares(SymbolKind::Function),
        ],
        3 => &[
            LineKind::Set,
            LineKind::Add,
            LineKind::End,
            LineKind::Nop,
            LineKind::Declares(SymbolKind::Sem),
        ],
        4 => &[
            LineKind::Emit,
            LineKind::Else,
            LineKind::Fork,
            LineKind::ProcExit,
            LineKind::Declares(SymbolKind::Cond),
            LineKind::Declares(SymbolKind::Once),
        ],
        5 => &[
            LineKind::While,
            LineKind::ProcExitNow,
            LineKind::Declares(SymbolKind::Mutex),
        ],
        6 => &[
            LineKind::Return,
            LineKind::AtExit,
            LineKind::Declares(SymbolKind::Global),
        ],
        7 => &[LineKind::WaitPid],
        8 => &[LineKind::SemWait, LineKind::SemPost],
        12 => &[
            LineKind::Join,
            LineKind::SelfId,
            LineKind::ThreadExit,
            LineKind::CallOnce,
        ],
        13 => &[LineKind::SemTimedWait],
        14 => &[
            LineKind::Create,
            LineKind::Detach,
            LineKind::CancelThread,
            LineKind::AtFork,
        ],
        17 => &[LineKind::CondWait],
        18 => &[
            LineKind::Lock,
            LineKind::TestCancel,
            LineKind::KeyCreate,
            LineKind::KeyDelete,
        ],
        19 => &[
            LineKind::Pop,
            LineKind::Signal,
            LineKind::SetSpecific,
            LineKind::GetSpecific,
        ],
        20 => &[LineKind::Unlock, LineKind::Push],
        21 => &[LineKind::SetMode],
        22 => &[
            LineKind::SetState,
            LineKind::Broadcast,
            LineKind::CondTimedWait,
        ],
        _ => &[],
    }
}

#[tactic(auto, using(crate::proofs::Keywords::kind_of_keyword))]
fn has_keyword(line_kind: LineKind, word: &[u8]) -> bool
    ensures { IsTrue result → line_kind_of word.now ≡ Some line_kind }
{
    match line_kind.keyword() {
        Some(keyword) => keyword == word,
        None => false,
    }
}

// The line kind with this keyword, by a search of keywords of its length alone.
fn kind_by_length(word: &[u8]) -> Option<LineKind>
    ensures { IfSome result (λ line_kind. line_kind_of word.now ≡ Some line_kind) }
{
    for line_kind in kinds_by_length(word.len()) {
        if has_keyword(*line_kind, word) {
            return Some(*line_kind);
        }
    }
    None
}

// The kind of a line that begins with this word, by a search of all points and keywords.
#[tactic(auto, using(crate::proofs::Keywords::kind_of_point))]
fn kind_among_all(word: &[u8]) -> Option<LineKind>
    ensures { result ≡ line_kind_of word.now }
{
    match point_kind(word) {
        Some(line_kind) => Some(line_kind),
        None => line_kind_with(word),
    }
}

/// The kind of a line that begins with this word.
pub(crate) fn line_kind_of(word: &[u8]) -> Option<LineKind>
    ensures { result ≡ line_kind_of word.now }
{
    match kind_by_length(word) {
        Some(line_kind) => Some(line_kind),
        None => kind_among_all(word),
    }
}

// The fault of the first word that does not fit its argument kind, on a line of this kind with this number of words.
fn faulty_word(line_kind: LineKind, words: usize, bytes: &[u8]) -> Option<ParseWhy>
    ensures { result ≡ faulty_word ((syntax_of line_kind).argument_kinds words) (words_in bytes.now) }
{
    let mut at = 0;
    let mut rest = bytes;
    while let Some((word, after)) = next_word(rest) {
        let argument_kind = line_kind.argument_kind(words, at)?;
        if token_at(argument_kind, word).is_none() {
            return Some(why_not(argument_kind, word));
        }
        at += 1;
        rest = after;
    }
    None
}

// The fault of the words after the first one of a line of this kind.
#[tactic(auto, unfolding(pct_model::specs::Spelling::fault_at))]
fn fault_at(line_kind: LineKind, bytes: &[u8]) -> Option<ParseWhy>
    ensures { result ≡ fault_at ((syntax_of line_kind).argument_kinds (length (words_in bytes.now))) (words_in bytes.now) }
{
    let words = count_words(bytes);
    if words == line_kind.argument_count(words) {
        faulty_word(line_kind, words, bytes)
    } else {
        Some(ParseWhy::WordCount)
    }
}

// The fault of the words of a line.
#[tactic(auto, unfolding(pct_model::specs::Spelling::fault_of_words))]
fn fault_of_words(line: &[u8]) -> Option<ParseWhy>
    ensures { result ≡ fault_of_words (words_in line.now) }
{
    let (word, after) = next_word(line)?;
    match line_kind_of(word) {
        Some(line_kind) => fault_at(line_kind, after),
        None => Some(ParseWhy::UnknownWord),
    }
}

/// Why the line is misspelled, if it is: a byte that is not allowed, a first word that begins no kind of line, a wrong
/// number of words, or the first word that does not fit its argument kind. It allocates no memory.
#[tactic(auto, unfolding(pct_model::specs::Spelling::misspelled))]
pub fn misspelled(line: &[u8]) -> Option<ParseWhy>
    ensures { result ≡ misspelled line.now }
{
    if are_allowed(line) {
        fault_of_words(line)
    } else {
        Some(ParseWhy::NotAscii)
    }
}
