//! Lists that are equal in contracts if their items are.

ghost use Rattle.std.specs.Prelude.{◌≡◌, length};

use crate::name::Name;
use crate::script::{Func, SemDecl};
use crate::statement::Stmt;
use std::marker::Model;

/// A list, kept in a vector. In a contract it is the list of its items, without the vector's capacity.
#[derive(Debug, Drop)]
pub struct Sequence<T> {
    items: Vec<T>,
}

impl<T> Model for Sequence<T> {
    ghost use Rattle.std.specs.Prelude.{List};

    ghost Value = { List T };

    ghost view = { λ s. s.items.items };
}

impl<T> Sequence<T> {
    /// The list of a vector's items. It takes over the vector, and allocates no memory.
    pub fn of(items: Vec<T>) -> Sequence<T>
        ensures { result ≡ items.items }
    {
        Sequence { items }
    }

    /// The items, in order.
    pub fn as_slice(&self) -> &[T]
        ensures { result.now ≡ self.now }
    {
        self.items.as_slice()
    }

    /// The vector of the items. It allocates no memory.
    pub fn into_vec(self) -> Vec<T>
        ensures { result.items ≡ self }
    {
        self.items
    }
}

/// Names.
pub type Names = Sequence<Name>;
/// Declarations of semaphores.
pub type SemDecls = Sequence<SemDecl>;
/// The statements of a function.
pub type Stmts = Sequence<Stmt>;
/// The functions of a script.
pub type Funcs = Sequence<Func>;
