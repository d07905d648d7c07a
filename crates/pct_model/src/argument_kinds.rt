//! The syntax of each kind of line: the kinds of its arguments, which are the words after its keyword.

ghost use Rattle.std.specs.Prelude.{◌≡◌, ℕ, true, false, length, slice_get};
ghost use Rattle.pct_model.specs.LineKinds.{syntax_of, declaration_syntax, create_argument_kinds, fn_argument_kinds, is_fn, is_function};

use crate::line_kind::{ArgumentKind, LineKind, SymbolKind};

impl LineKind {
    /// The number of argument kinds of a line of this kind with `words` arguments. The line has the right number of
    /// arguments exactly if the two are equal.
    #[tactic(auto, using(crate::proofs::FnArgumentKinds::length_of_fn_argument_kinds))]
    pub fn argument_count(self, words: usize) -> usize
        ensures { result ≡ length ((syntax_of self).argument_kinds words) }
    {
        if self.is_fn() {
            words.max(2)
        } else {
            self.argument_kinds(words).len()
        }
    }

    /// The kind of the argument at an index (from 0) of a line of this kind with `words` arguments; `None` if the index
    /// is out of range.
    pub fn argument_kind(self, words: usize, at: usize) -> Option<ArgumentKind>
        ensures { result ≡ slice_get ((syntax_of self).argument_kinds words) at }
    {
        if self.is_fn() {
            fn_argument_kind(words, at)
        } else {
            argument_kind_at(self.argument_kinds(words), at)
        }
    }

    #[tactic(auto, unfolding(crate::specs::LineKinds::syntax_of, crate::specs::LineKinds::declaration_syntax))]
    fn is_fn(self) -> bool
        ensures test { result ≡ is_fn self }
        ensures argument_kinds { result ≡ true → (n : ℕ) → (syntax_of self).argument_kinds n ≡ fn_argument_kinds n }
    {
        match self {
            LineKind::Declares(SymbolKind::Function) => true,
            _ => false,
        }
    }

    /// The argument kinds of a line of this kind with `words` arguments. Those of `fn` have no fixed number: see
    /// `fn_argument_kind`.
    #[tactic(auto, unfolding(crate::specs::LineKinds::syntax_of, crate::specs::LineKinds::declaration_syntax))]
    fn argument_kinds(self, words: usize) -> &'static [ArgumentKind]
        ensures { is_fn self ≡ false → result.now ≡ (syntax_of self).argument_kinds words }
    {
        match self {
            LineKind::Declares(kind) => kind.argument_kinds(),
            LineKind::Create => create_argument_kinds(words),
            LineKind::Emit => &[ArgumentKind::Operand],
            LineKind::Set => &[ArgumentKind::Variable, ArgumentKind::Operand],
            LineKind::Add => &[ArgumentKind::Variable, ArgumentKind::Operand],
            LineKind::Nop => &[],
            LineKind::If => &[ArgumentKind::Operand],
            LineKind::Else => &[],
            LineKind::While => &[ArgumentKind::Operand],
            LineKind::End => &[],
            LineKind::Do => &[
                ArgumentKind::Item(SymbolKind::Function),
                ArgumentKind::Operand,
            ],
            LineKind::Return => &[ArgumentKind::Operand],
            LineKind::Join => &[ArgumentKind::Operand, ArgumentKind::Dest],
            LineKind::Detach => &[ArgumentKind::Operand],
            LineKind::CancelThread => &[ArgumentKind::Operand],
            LineKind::SelfId => &[ArgumentKind::Dest],
            LineKind::ThreadExit => &[ArgumentKind::Operand],
            LineKind::TestCancel => &[],
            LineKind::SetState => &[ArgumentKind::State, ArgumentKind::Dest],
            LineKind::SetMode => &[ArgumentKind::Mode, ArgumentKind::Dest],
            LineKind::Push => &[
                ArgumentKind::Item(SymbolKind::Function),
                ArgumentKind::Operand,
            ],
            LineKind::Pop => &[ArgumentKind::Operand],
            LineKind::KeyCreate => &[
                ArgumentKind::Dest,
                ArgumentKind::Dest,
                ArgumentKind::OptionalFunction,
            ],
            LineKind::KeyDelete => &[ArgumentKind::Operand],
            LineKind::SetSpecific => &[ArgumentKind::Operand, ArgumentKind::Operand],
            LineKind::GetSpecific => &[ArgumentKind::Dest, ArgumentKind::Operand],
            LineKind::Lock => &[ArgumentKind::Item(SymbolKind::Mutex)],
            LineKind::Unlock => &[ArgumentKind::Item(SymbolKind::Mutex)],
            LineKind::CondWait => &[
                ArgumentKind::Item(SymbolKind::Cond),
                ArgumentKind::Item(SymbolKind::Mutex),
            ],
            LineKind::CondTimedWait => &[
                ArgumentKind::Dest,
                ArgumentKind::Item(SymbolKind::Cond),
                ArgumentKind::Item(SymbolKind::Mutex),
            ],
            LineKind::Signal => &[ArgumentKind::Item(SymbolKind::Cond)],
            LineKind::Broadcast => &[ArgumentKind::Item(SymbolKind::Cond)],
            LineKind::SemWait => &[ArgumentKind::Item(SymbolKind::Sem)],
            LineKind::SemTimedWait => &[ArgumentKind::Dest, ArgumentKind::Item(SymbolKind::Sem)],
            LineKind::SemPost => &[ArgumentKind::Item(SymbolKind::Sem)],
            LineKind::CallOnce => &[
                ArgumentKind::Item(SymbolKind::Once),
                ArgumentKind::Item(SymbolKind::Function),
            ],
            LineKind::AtFork => &[
                ArgumentKind::Dest,
                ArgumentKind::OptionalPlainFunction,
                ArgumentKind::OptionalPlainFunction,
                ArgumentKind::OptionalPlainFunction,
            ],
            LineKind::Fork => &[ArgumentKind::Dest, ArgumentKind::Dest],
            LineKind::WaitPid => &[
                ArgumentKind::Dest,
                ArgumentKind::Operand,
                ArgumentKind::Dest,
            ],
            LineKind::AtExit => &[ArgumentKind::Dest, ArgumentKind::PlainFunction],
            LineKind::ProcExit => &[ArgumentKind::Operand],
            LineKind::ProcExitNow => &[ArgumentKind::Operand],
            LineKind::Point(_) => &[],
        }
    }
}

impl SymbolKind {
    /// The argument kinds of a declaration, but for `fn`.
    #[tactic(auto, unfolding(crate::specs::LineKinds::declaration_syntax))]
    fn argument_kinds(self) -> &'static [ArgumentKind]
        ensures { is_function self ≡ false → (n : ℕ) → result.now ≡ (declaration_syntax self).argument_kinds n }
    {
        match self {
            SymbolKind::Sem => &[ArgumentKind::Declared, ArgumentKind::Count],
            _ => &[ArgumentKind::Declared],
        }
    }
}

fn fn_argument_kind(words: usize, at: usize) -> Option<ArgumentKind>
    ensures { result ≡ slice_get (fn_argument_kinds words) at }
{
    if at == 0 {
        Some(ArgumentKind::Declared)
    } else if at < 2 || at < words {
        Some(ArgumentKind::Local)
    } else {
        None
    }
}

fn create_argument_kinds(words: usize) -> &'static [ArgumentKind]
    ensures { result.now ≡ create_argument_kinds words }
{
    if words < 5 {
        &[
            ArgumentKind::Dest,
            ArgumentKind::Dest,
            ArgumentKind::Item(SymbolKind::Function),
            ArgumentKind::Operand,
        ]
    } else {
        &[
            ArgumentKind::Dest,
            ArgumentKind::Dest,
            ArgumentKind::Item(SymbolKind::Function),
            ArgumentKind::Operand,
            ArgumentKind::Detached,
        ]
    }
}

fn argument_kind_at(argument_kinds: &[ArgumentKind], at: usize) -> Option<ArgumentKind>
    ensures { result ≡ slice_get argument_kinds.now at }
{
    argument_kinds.get(at).copied()
}
