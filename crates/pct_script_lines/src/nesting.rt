//! The check of nesting: each line is allowed in the block around it, and no block is open after the last line.

ghost use Rattle.std.specs.Prelude.{◌≡◌, [], ◌∷◌, length, slice_get, MatchOption, OnOk};
ghost use Rattle.pct_model.specs.Checks.{roles};
ghost use Rattle.pct_model.specs.Nesting.{opened_by, outside, else_in, end_in, pop_in, inside, change_at, kinds_of, open_after_line, nesting};
ghost use Rattle.pct_script_lines.specs.Fault.{Passes};

use crate::fault::ParseFault;
use crate::stored_lines::StoredLines;
use pct_model::{Block, Change, ParseWhy, Role, SymbolKind};
use std::alloc::{AllocError, Global};
use std::marker::Model;

fn opened_by(kind: SymbolKind) -> Change
    ensures { result ≡ opened_by kind }
{
    match kind {
        SymbolKind::Function => Change::Opens(Block::Function),
        _ => Change::Stays,
    }
}

// The change that a line outside of functions makes.
#[tactic(auto, unfolding(pct_model::specs::Nesting::outside))]
fn outside(role: Role) -> Result<Change, ParseWhy>
    ensures { result ≡ outside role }
{
    match role {
        Role::Declares(kind) => Ok(opened_by(kind)),
        Role::Else | Role::End => Err(ParseWhy::StrayEnd),
        Role::Pop => Err(ParseWhy::PopUnmatched),
        _ => Err(ParseWhy::Misplaced),
    }
}

fn else_in(block: Block) -> Result<Change, ParseWhy>
    ensures { result ≡ else_in block }
{
    match block {
        Block::If => Ok(Change::Turns),
        Block::Push => Err(ParseWhy::Unclosed),
        _ => Err(ParseWhy::StrayEnd),
    }
}

fn end_in(block: Block) -> Result<Change, ParseWhy>
    ensures { result ≡ end_in block }
{
    match block {
        Block::Push => Err(ParseWhy::Unclosed),
        _ => Ok(Change::Closes),
    }
}

fn pop_in(block: Block) -> Result<Change, ParseWhy>
    ensures { result ≡ pop_in block }
{
    match block {
        Block::Push => Ok(Change::Closes),
        _ => Err(ParseWhy::PopUnmatched),
    }
}

// The change that a line in this block makes.
#[tactic(auto, unfolding(pct_model::specs::Nesting::inside))]
fn inside(block: Block, role: Role) -> Result<Change, ParseWhy>
    ensures { result ≡ inside block role }
{
    match role {
        Role::Declares(_) => Err(ParseWhy::Misplaced),
        Role::Opens(inner) => Ok(Change::Opens(inner)),
        Role::Else => else_in(block),
        Role::End => end_in(block),
        Role::Pop => pop_in(block),
        _ => Ok(Change::Stays),
    }
}

/// The stack of open blocks, each with the number of the line that opened it. In contracts the innermost comes first.
#[derive(Drop)]
struct OpenBlocks {
    /// The innermost block is the last.
    blocks: Vec<(u32, Block)>,
}

impl Model for OpenBlocks {
    ghost use Rattle.std.specs.Prelude.{reverse};
    ghost use Rattle.pct_model.specs.Nesting.{Blocks};

    ghost Value = { Blocks };

    ghost view = { λ o. reverse o.blocks.items };
}

impl OpenBlocks {
    // The empty stack.
    fn new(alloc: Global) -> OpenBlocks
        ensures { result ≡ [] }
    {
        OpenBlocks {
            blocks: Vec::new(alloc),
        }
    }

    fn innermost(&self) -> Option<(u32, Block)>
        ensures { result ≡ slice_get self.now 0 }
    {
        self.blocks.last().copied()
    }

    // Pushes a block that this line opened.
    fn add(&mut self, line: u32, block: Block) -> Result<(), AllocError>
        ensures { OnOk result (self.new ≡ (line, block) ∷ self.old) }
    {
        self.blocks.push((line, block))?;
        Ok(())
    }

    // Pops the innermost block, if there is one.
    fn close(&mut self) -> Option<(u32, Block)>
        ensures { MatchOption result ((self.old ≡ []) × (self.new ≡ [])) (λ first. self.old ≡ first ∷ self.new) }
    {
        self.blocks.pop()
    }

    // The change that a line with this role makes, or its fault.
    #[tactic(auto, using(crate::proofs::Innermost::inside_first, crate::proofs::Innermost::outside_all))]
    fn change_at(&self, role: Role) -> Result<Change, ParseWhy>
        ensures { result ≡ change_at (kinds_of self.now) role }
    {
        match self.innermost() {
            Some((_, block)) => inside(block, role),
            None => outside(role),
        }
    }

    // Applies a change that this line makes.
    #[tactic(auto, unfolding(pct_model::specs::Nesting::open_after_line))]
    fn change(&mut self, number: u32, change: Change) -> Result<(), AllocError>
        ensures { OnOk result (self.new ≡ open_after_line self.old number change) }
    {
        match change {
            Change::Stays => Ok(()),
            Change::Opens(block) => self.add(number, block),
            Change::Closes => {
                self.close();
                Ok(())
            }
            Change::Turns => match self.close() {
                Some((line, _)) => self.add(line, Block::Else),
                None => Ok(()),
            },
        }
    }
}

/// The check of nesting on the lines of a text.
pub fn check_nesting(alloc: Global, lines: &StoredLines) -> Result<(), ParseFault>
    ensures { Passes result (nesting (roles lines.now)) }
{
    let mut outlines = lines.outlines();
    let mut blocks = OpenBlocks::new(alloc);
    while let Some((number, outline)) = outlines.next() {
        match blocks.change_at(outline.line_kind.role()) {
            Ok(change) => blocks.change(number, change)?,
            Err(why) => return Err(ParseFault::Refused { line: number, why }),
        }
    }
    match blocks.innermost() {
        Some((line, _)) => Err(ParseFault::Refused {
            line,
            why: ParseWhy::Unclosed,
        }),
        None => Ok(()),
    }
}
