//! The syntax of each kind of line: its keyword, and its role among the lines around it.

ghost use Rattle.std.specs.Prelude.{◌≡◌, true, find, bytes_eq, is_some, IfSome, IsTrue};
ghost use Rattle.std.specs.List.{list_all};
ghost use Rattle.pct_model.specs.LineKinds.{syntax_of, declaration_syntax, is_no_point, line_kinds};

use crate::line_kind::{LINE_KINDS, LineKind, SymbolKind};
use crate::role::{Block, Role};

impl LineKind {
    /// The role of a line of this kind.
    #[tactic(auto, unfolding(crate::specs::LineKinds::syntax_of, crate::specs::LineKinds::declaration_syntax))]
    pub fn role(self) -> Role
        ensures { result ≡ (syntax_of self).role }
    {
        match self {
            LineKind::Declares(kind) => Role::Declares(kind),
            LineKind::If => Role::Opens(Block::If),
            LineKind::While => Role::Opens(Block::While),
            LineKind::Push => Role::Opens(Block::Push),
            LineKind::Else => Role::Else,
            LineKind::End => Role::End,
            LineKind::Pop => Role::Pop,
            LineKind::Return => Role::Return,
            LineKind::Emit | LineKind::Set | LineKind::Add | LineKind::Lock | LineKind::Unlock =>
                Role::Plain,
            _ => Role::Other,
        }
    }

    /// The keyword of a line of this kind: its first word. The result is `None` exactly for cancellation points, which are
    /// called by their names.
    #[tactic(auto, unfolding(crate::specs::LineKinds::syntax_of))]
    pub fn keyword(self) -> Option<&'static [u8]>
        ensures some { IfSome result (λ word. word.now ≡ (syntax_of self).keyword) }
        ensures none_at_points { is_some result ≡ is_no_point self }
    {
        match self {
            LineKind::Declares(kind) => Some(kind.keyword()),
            LineKind::Emit => Some(b"emit"),
            LineKind::Set => Some(b"set"),
            LineKind::Add => Some(b"add"),
            LineKind::Nop => Some(b"nop"),
            LineKind::If => Some(b"if"),
            LineKind::Else => Some(b"else"),
            LineKind::While => Some(b"while"),
            LineKind::End => Some(b"end"),
            LineKind::Do => Some(b"do"),
            LineKind::Return => Some(b"return"),
            LineKind::Create => Some(b"pthread_create"),
            LineKind::Join => Some(b"pthread_join"),
            LineKind::Detach => Some(b"pthread_detach"),
            LineKind::CancelThread => Some(b"pthread_cancel"),
            LineKind::SelfId => Some(b"pthread_self"),
            LineKind::ThreadExit => Some(b"pthread_exit"),
            LineKind::TestCancel => Some(b"pthread_testcancel"),
            LineKind::SetState => Some(b"pthread_setcancelstate"),
            LineKind::SetMode => Some(b"pthread_setcanceltype"),
            LineKind::Push => Some(b"pthread_cleanup_push"),
            LineKind::Pop => Some(b"pthread_cleanup_pop"),
            LineKind::KeyCreate => Some(b"pthread_key_create"),
            LineKind::KeyDelete => Some(b"pthread_key_delete"),
            LineKind::SetSpecific => Some(b"pthread_setspecific"),
            LineKind::GetSpecific => Some(b"pthread_getspecific"),
            LineKind::Lock => Some(b"pthread_mutex_lock"),
            LineKind::Unlock => Some(b"pthread_mutex_unlock"),
            LineKind::CondWait => Some(b"pthread_cond_wait"),
            LineKind::CondTimedWait => Some(b"pthread_cond_timedwait"),
            LineKind::Signal => Some(b"pthread_cond_signal"),
            LineKind::Broadcast => Some(b"pthread_cond_broadcast"),
            LineKind::SemWait => Some(b"sem_wait"),
            LineKind::SemTimedWait => Some(b"sem_timedwait"),
            LineKind::SemPost => Some(b"sem_post"),
            LineKind::CallOnce => Some(b"pthread_once"),
            LineKind::AtFork => Some(b"pthread_atfork"),
            LineKind::Fork => Some(b"fork"),
            LineKind::WaitPid => Some(b"waitpid"),
            LineKind::AtExit => Some(b"atexit"),
            LineKind::ProcExit => Some(b"exit"),
            LineKind::ProcExitNow => Some(b"_exit"),
            LineKind::Point(_) => None,
        }
    }
}

impl SymbolKind {
    /// The keyword of its declarations.
    #[tactic(auto, unfolding(crate::specs::LineKinds::declaration_syntax))]
    pub fn keyword(self) -> &'static [u8]
        ensures { result.now ≡ (declaration_syntax self).keyword }
    {
        match self {
            SymbolKind::Global => b"global",
            SymbolKind::Mutex => b"mutex",
            SymbolKind::Cond => b"cond",
            SymbolKind::Sem => b"sem",
            SymbolKind::Once => b"once",
            SymbolKind::Function => b"fn",
        }
    }
}

/// The kind of the lines that begin with a word, if the word is a keyword; the names of cancellation points are not.
#[tactic(auto, unfolding(crate::specs::LineKinds::line_kinds))]
pub fn line_kind_with(word: &[u8]) -> Option<LineKind>
    ensures { result ≡ find (λ f. bytes_eq (syntax_of f).keyword word.now) line_kinds }
{
    line_kind_among(&LINE_KINDS, word)
}

fn line_kind_among(among: &[LineKind], word: &[u8]) -> Option<LineKind>
    requires no_points { IsTrue (list_all is_no_point among.now) }
    ensures { result ≡ find (λ f. bytes_eq (syntax_of f).keyword word.now) among.now }
{
    let mut rest = among;
    while let Some((line_kind, after)) = rest.split_first() {
        if begins_with(*line_kind, word) {
            return Some(*line_kind);
        }
        rest = after;
    }
    None
}

fn begins_with(line_kind: LineKind, word: &[u8]) -> bool
    ensures { is_no_point line_kind ≡ true → result ≡ bytes_eq (syntax_of line_kind).keyword word.now }
{
    match line_kind.keyword() {
        Some(keyword) => keyword == word,
        None => false,
    }
}
