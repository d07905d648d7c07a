//! The jump table of a script: which statement closes a block, and which one opened it.

ghost use Rattle.std.specs.Prelude.{IfOk, None, cond, false, find, length, map, nat_eq, slice_index_or, ◌&&◌, ◌+◌, ◌<◌, ◌||◌, ◌≡◌, ◌≤◌};
ghost use Rattle.std.specs.List.{range_with_len};
ghost use Rattle.std.specs.Option.{option_map_or};
ghost use Rattle.pct_model.specs.declared.limits.TheConstants.{MAX_STATEMENTS};
ghost use Rattle.pct_model.specs.Jumps.{close_of, closes, closes_else, first_later, holds, is_else, is_end, is_if as is_if_statement, is_while, open_of};
ghost use Rattle.pct_jumps.specs.JumpTable.{blocks_of};

use pct_io::NoMemory;
use pct_model::{Script, Sequence, Stmt};
use std::alloc::Global;
use std::marker::Model;

/// The jump table of a script. A statement is named by the index of its function and its program counter, the index in the
/// function's body.
#[derive(Debug, Drop)]
pub struct Jumps {
    bodies: Sequence<Blocks>,
}

impl Model for Jumps {
    ghost use Rattle.std.specs.Prelude.{List};
    ghost use Rattle.pct_jumps.specs.declared.jump_table.Blocks.{Blocks as BlocksRecord};

    ghost Value = { List BlocksRecord };

    ghost view = { λ j. j.bodies };
}

impl Jumps {
    ghost use Rattle.std.specs.Prelude.{◌≡◌, ◌<◌, ◌+◌, ◌↔◌, None, Some, true, length, IfOk, IfSome};
    ghost use Rattle.pct_model.specs.declared.script.Script.{Script as ScriptRecord};
    ghost use Rattle.pct_model.specs.World.{body_of};
    ghost use Rattle.pct_model.specs.Jumps.{close_of as close_in, open_of as open_in, holds, is_end};
    ghost use Rattle.pct_jumps.specs.JumpTable.{jumps_of, IsOpening, closing, opening, opens_block};

    /// The jump table of this script. `NoMemory` is returned if the table does not fit into memory.
    pub fn new(alloc: Global, script: &Script) -> Result<Jumps, NoMemory>
        ensures { IfOk result (λ jumps. jumps ≡ jumps_of script.now.funcs) }
    {
        let funcs = script.funcs.as_slice();
        let mut bodies = Vec::with_capacity(alloc, funcs.len())?;
        for func in funcs {
            bodies.push(blocks_of(alloc, func.body.as_slice())?)?;
        }
        Ok(Jumps {
            bodies: Sequence::of(bodies),
        })
    }

    /// The program counter of the statement that closes the block opened at `pc`, where an `if`, an `else` or a `while` is:
    /// the `else` of an `if` that has one, otherwise the `end`.
    pub fn close_of(&self, func: u32, pc: u32) -> u32
        requires { IsOpening self.now func pc }
        ensures close { (script : ScriptRecord) → self.now ≡ jumps_of script.funcs → close_in (body_of script func) pc ≡ Some result }

        // A block closes after the statement that opened it, and before the last statement of the body.
        ensures within { (script : ScriptRecord) → self.now ≡ jumps_of script.funcs → (pc < result) × (result + 1 < length (body_of script func)) }
    {
        match self.closing(func, pc) {
            Some(close) => close,
            None => unreachable!(),
        }
    }

    /// The program counter of the `if`, `else` or `while` whose block the `end` at `pc` closes. It is `None` for the `end`
    /// that closes the function, and where the statement at `pc` is no `end`.
    pub fn open_of(&self, func: u32, pc: u32) -> Option<u32>
        ensures opening { (script : ScriptRecord) → self.now ≡ jumps_of script.funcs → open_in (body_of script func) pc ≡ result }

        // The block was opened earlier, by an `if`, an `else` or a `while`.
        ensures before { (script : ScriptRecord) → self.now ≡ jumps_of script.funcs → IfSome result (λ opening. (opening < pc) × (holds (body_of script func) opens_block opening ≡ true)) }

        // Of the `end` of a body, the last statement alone closes the function.
        ensures last { (script : ScriptRecord) → self.now ≡ jumps_of script.funcs → holds (body_of script func) is_end pc ≡ true → (result ≡ None) ↔ (pc + 1 ≡ length (body_of script func)) }
    {
        self.opening(func, pc)
    }

    // The statement that closes the block opened at `pc`, if one is opened there.
    #[tactic(auto, unfolding(crate::specs::JumpTable::closing))]
    fn closing(&self, func: u32, pc: u32) -> Option<u32>
        ensures { result ≡ closing self.now func pc }
    {
        let blocks = self.bodies.as_slice().get(func as usize)?;
        *blocks.closes.as_slice().get(pc as usize)?
    }

    // The statement that opened the block closed at `pc`, if one is closed there.
    #[tactic(auto, unfolding(crate::specs::JumpTable::opening))]
    fn opening(&self, func: u32, pc: u32) -> Option<u32>
        ensures { result ≡ opening self.now func pc }
    {
        let blocks = self.bodies.as_slice().get(func as usize)?;
        *blocks.opens.as_slice().get(pc as usize)?
    }
}

/// The jump table of a function's body: for each statement, the one that closes the block it opens, and the one that
/// opened the block it closes.
#[derive(Debug, Drop)]
pub struct Blocks {
    pub closes: Sequence<Option<u32>>,
    pub opens: Sequence<Option<u32>>,
}

/// The jump table of a body.
pub(crate) fn blocks_of(alloc: Global, body: &[Stmt]) -> Result<Blocks, NoMemory>
    requires { length body.now ≤ MAX_STATEMENTS }
    ensures { IfOk result (λ blocks. blocks ≡ blocks_of body.now) }
{
    let closes = closes_of(alloc, body)?;
    let opens = opens_of(alloc, body, &closes)?;
    Ok(Blocks {
        closes: Sequence::of(closes),
        opens: Sequence::of(opens),
    })
}

// For each statement, the one that closes the block it opens.
fn closes_of(alloc: Global, body: &[Stmt]) -> Result<Vec<Option<u32>>, NoMemory>
    requires { length body.now ≤ MAX_STATEMENTS }
    ensures { IfOk result (λ closes. closes.items ≡ map (close_of body.now) (range_with_len 0 (length body.now))) }
{
    let mut closes = Vec::with_capacity(alloc, body.len())?;
    for pc in 0..body.len() {
        closes.push(close_of(body, pc))?;
    }
    Ok(closes)
}

// For each statement, the one that opened the block it closes.
fn opens_of(
    alloc: Global,
    body: &[Stmt],
    closes: &[Option<u32>],
) -> Result<Vec<Option<u32>>, NoMemory>
    requires few { length body.now ≤ MAX_STATEMENTS }
    requires closes { closes.now ≡ map (close_of body.now) (range_with_len 0 (length body.now)) }
    ensures { IfOk result (λ opens. opens.items ≡ map (open_of body.now) (range_with_len 0 (length body.now))) }
{
    let mut opens = Vec::with_capacity(alloc, body.len())?;
    for pc in 0..body.len() {
        opens.push(open_of(body, closes, pc))?;
    }
    Ok(opens)
}

// ---- one statement

// The statement that closes the block opened at `pc`.
#[tactic(auto, unfolding(pct_model::specs::Jumps::close_of))]
fn close_of(body: &[Stmt], pc: usize) -> Option<u32>
    requires few { length body.now ≤ MAX_STATEMENTS }
    requires within { pc < length body.now }
    ensures { result ≡ close_of body.now pc }
{
    match body[pc] {
        Stmt::If(_) => close_of_block(body, pc, true),
        Stmt::While(_) => close_of_block(body, pc, false),
        Stmt::Else => close_of_else(body, pc),
        _ => None,
    }
}

// The statement that closes an `if` or a `while`.
fn close_of_block(body: &[Stmt], opening: usize, is_if: bool) -> Option<u32>
    requires few { length body.now ≤ MAX_STATEMENTS }
    requires within { opening < length body.now }
    requires opening { holds body.now is_if_statement opening ≡ is_if }
    ensures { result ≡ first_later body.now (closes body.now opening) opening }
{
    let mut begins = more(0, begins_block(body[opening]));
    let mut ends = more(0, is_end(body[opening]));
    for pc in opening + 1..body.len() {
        let statement = body[pc];
        begins = more(begins, begins_block(statement));
        ends = more(ends, is_end(statement));
        if closes_block(is_if, statement, begins, ends) {
            return Some(pc as u32);
        }
    }
    None
}

// The statement that closes an `else`.
fn close_of_else(body: &[Stmt], opening: usize) -> Option<u32>
    requires few { length body.now ≤ MAX_STATEMENTS }
    requires within { opening < length body.now }
    ensures { result ≡ first_later body.now (closes_else body.now opening) opening }
{
    let mut begins = 0;
    let mut ends = 0;
    for pc in opening + 1..body.len() {
        begins = more(begins, begins_block(body[pc]));
        ends = more(ends, is_end(body[pc]));
        if ends == begins + 1 {
            return Some(pc as u32);
        }
    }
    None
}

// The statement that opened the block closed at `pc`.
#[tactic(auto, unfolding(pct_model::specs::Jumps::open_of))]
fn open_of(body: &[Stmt], closes: &[Option<u32>], pc: usize) -> Option<u32>
    requires few { length body.now ≤ MAX_STATEMENTS }
    requires within { pc < length body.now }
    requires closes { closes.now ≡ map (close_of body.now) (range_with_len 0 (length body.now)) }
    ensures { result ≡ open_of body.now pc }
{
    if is_end(body[pc]) {
        closed_at(closes, pc)
    } else {
        None
    }
}

// The first statement whose block is closed at `pc`.
fn closed_at(closes: &[Option<u32>], pc: usize) -> Option<u32>
    requires few { length closes.now ≤ MAX_STATEMENTS }
    requires within { pc < length closes.now }
    ensures { result ≡ find (λ i. option_map_or (nat_eq pc) (slice_index_or closes.now i None) false) (range_with_len 0 (length closes.now)) }
{
    for opening in 0..closes.len() {
        if closes[opening] == Some(pc as u32) {
            return Some(opening as u32);
        }
    }
    None
}

// ---- counts

// Whether a statement closes an `if` or a `while`. `begins` counts the `if` and `while`, and `ends` the `end`, from the
// opening statement to this one, both included.
fn closes_block(is_if: bool, statement: Stmt, begins: usize, ends: usize) -> bool
    requires { ends ≤ MAX_STATEMENTS }
    ensures { result ≡ is_end statement && nat_eq ends begins || is_if && is_else statement && nat_eq (ends + 1) begins }
{
    is_end(statement) && ends == begins || is_if && is_else(statement) && ends + 1 == begins
}

fn more(count: usize, counts: bool) -> usize
    requires { count < MAX_STATEMENTS }
    ensures value { result ≡ count + cond counts 1 0 }
    ensures bound { result ≤ count + 1 }
{
    if counts { count + 1 } else { count }
}

fn begins_block(statement: Stmt) -> bool
    ensures { result ≡ is_if_statement statement || is_while statement }
{
    matches!(statement, Stmt::If(_) | Stmt::While(_))
}

fn is_end(statement: Stmt) -> bool
    ensures { result ≡ is_end statement }
{
    matches!(statement, Stmt::End)
}

fn is_else(statement: Stmt) -> bool
    ensures { result ≡ is_else statement }
{
    matches!(statement, Stmt::Else)
}
