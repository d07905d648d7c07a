//! Parsed lines of a script: tokens, in which names are not resolved, and arguments, in which they are.

use crate::line_kind::LineKind;
use crate::name::Name;
use crate::sequence::Sequence;

/// An argument as it is written.
#[derive(Drop)]
pub enum Token {
    Number(u32),
    Name(Name),
    /// `-`
    Nothing,
    /// A fixed word: true for `enable`, `asynchronous` and `detached`, false for `disable` and `deferred`.
    Flag(bool),
}

/// The arguments of a line as they are written.
pub type Tokens = Sequence<Token>;

/// A parsed line: its kind, and its arguments as they are written.
#[derive(Drop)]
pub struct ParsedLine {
    pub line_kind: LineKind,
    pub tokens: Tokens,
}

/// An argument of a statement, with names resolved to indexes.
#[derive(Clone, Copy, Default)]
pub enum Argument {
    Number(u32),
    /// A local of the function, by index.
    Local(u32),
    /// A global, by index.
    Global(u32),
    /// A function, mutex, condition variable, semaphore or once control, by its index among the declarations of its kind.
    Item(u32),
    /// `-`
    #[default]
    Nothing,
    Flag(bool),
}
