//! Stacks of handlers that share what is below their tops.

ghost use Rattle.std.specs.Prelude.{◌≡◌, ℕ, ◌<◌, ◌≤◌, List, [], ◌∷◌, ◌++◌, length, OnOk, OnErr, IfOk};
ghost use Rattle.pct_model.specs.Actions.{without_first};
ghost use Rattle.pct_audit.specs.Stacks.{newest};

use pct_io::NoMemory;
use std::alloc::Global;
use std::marker::Model;

/// The top of a stack: a function and an argument, the number of the stack below, and how many handlers the stack has.
#[derive(Clone, Copy)]
pub(crate) struct Node {
    f: u32,
    a: u32,
    below: usize,
    depth: usize,
}

/// Stacks by their numbers. Stack 0 is empty, and each other one is one handler on a stack with a lower number.
#[derive(Drop)]
pub struct Stacks {
    nodes: Vec<Node>,
}

impl Model for Stacks {
    ghost use Rattle.std.specs.Prelude.{ℕ, List};
    ghost use Rattle.pct_audit.specs.StackNodes.{stacks_of, AreStacks};

    ghost Value = { List (List (ℕ × ℕ)) };

    ghost view = { λ s. stacks_of s.nodes.items };

    ghost invariant = { λ s. AreStacks s.nodes.items };
}

impl Stacks {
    ghost use Rattle.pct_audit.specs.Stacks.{stack_at};

    /// The empty stack alone.
    pub fn new(alloc: Global) -> Stacks
        ensures { result ≡ [] ∷ [] }
    {
        Stacks {
            nodes: Vec::new(alloc),
        }
    }

    /// A new stack: a handler on a stack. After `NoMemory` there is none.
    pub fn push(&mut self, stack: usize, f: u32, a: u32) -> Result<usize, NoMemory>
        requires { stack < length self.old }
        ensures number { IfOk result (λ number. number ≡ length self.old) }
        ensures ok { OnOk result (self.new ≡ self.old ++ ((f, a) ∷ stack_at self.old stack) ∷ []) }
        ensures unchanged { OnErr result (self.new ≡ self.old) }
    {
        let depth = self.depth(stack) + 1;
        self.nodes.push(Node {
            f,
            a,
            below: stack,
            depth,
        })?;
        Ok(self.nodes.len())
    }

    /// How many handlers are on a stack.
    pub fn depth(&self, stack: usize) -> usize
        requires { stack < length self.now }
        ensures depth { result ≡ length (stack_at self.now stack) }
        ensures few { result ≤ stack }
    {
        if stack == 0 {
            0
        } else {
            self.nodes[stack - 1].depth
        }
    }

    /// The newest handler on a stack.
    pub fn top(&self, stack: usize) -> Option<(u32, u32)>
        requires { stack < length self.now }
        ensures { result ≡ newest (stack_at self.now stack) }
    {
        if stack == 0 {
            None
        } else {
            let node = self.nodes[stack - 1];
            Some((node.f, node.a))
        }
    }

    /// The stack without its newest handler.
    pub fn below(&self, stack: usize) -> usize
        requires { stack < length self.now }
        ensures number { result < length self.now }
        ensures stack { stack_at self.now result ≡ without_first (stack_at self.now stack) }
    {
        if stack == 0 {
            0
        } else {
            self.nodes[stack - 1].below
        }
    }
}
