//! The roles of lines in the nesting of blocks.

use crate::line_kind::SymbolKind;

/// A block: it begins at the line that opens it, and ends at the line that closes it.
#[derive(Clone, Copy)]
pub enum Block {
    Function,
    If,
    Else,
    While,
    Push,
}

/// The role of a line among the lines around it.
#[derive(Clone, Copy)]
pub enum Role {
    /// A declaration, which is outside functions.
    Declares(SymbolKind),
    /// `if`, `while` or pthread_cleanup_push
    Opens(Block),
    /// `else`
    Else,
    /// `end`
    End,
    /// pthread_cleanup_pop
    Pop,
    /// `return`
    Return,
    /// Any other statement that is allowed in a plain function.
    Plain,
    /// Any other statement.
    Other,
}

/// The effect of a line on the open blocks.
#[derive(Clone, Copy)]
pub enum Change {
    Stays,
    Opens(Block),
    /// The innermost block is closed.
    Closes,
    /// The innermost block, an `if`, continues as its `else`.
    Turns,
}
