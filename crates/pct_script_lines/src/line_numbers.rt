//! The numbers of the lines of a script's statements.

ghost use Rattle.std.specs.Prelude.{IfOk, OnOk, if◌then◌else◌, length, [], ◌++◌, ◌∷◌, ◌≡◌, ◌≤◌};
ghost use Rattle.pct_model.specs.declared.limits.TheConstants.{MAX_INPUT};
ghost use Rattle.pct_script_lines.specs.StatementLines.{line_at, statement_lines, LinesAreOfStatements, LinesAscend, LinesSpellStatements};

use crate::line::declares;
use crate::sections::is_statement;
use crate::spelled_lines::{SpelledLines, next_parsed};
use pct_model::{Sequence, SymbolKind};
use std::alloc::{AllocError, Global};
use std::marker::Model;

/// The numbers of the lines of a script's statements. Contracts see one list for each function, in the order of the
/// functions, with one number for each statement, in the order of the program counters.
#[derive(Debug, Drop)]
pub struct StatementLines {
    functions: Vec<Sequence<u32>>,
}

impl Model for StatementLines {
    ghost use Rattle.std.specs.Prelude.{ℕ, List};

    ghost Value = { List (List ℕ) };

    ghost view = { λ lines. lines.functions.items };
}

impl StatementLines {
    /// The number of the line of the statement of a function at this program counter, or `None` if there is no such
    /// statement.
    pub fn line(&self, func: u32, pc: u32) -> Option<u32>
        ensures { result ≡ line_at self.now func pc }
    {
        let numbers = self.functions.get(func as usize)?;
        numbers.as_slice().get(pc as usize).copied()
    }
}

// Appends the numbers of the lines since the last declaration, if that was of a function.
fn end_section(
    functions: &mut Vec<Sequence<u32>>,
    numbers: Vec<u32>,
    in_function: bool,
) -> Result<(), AllocError>
    ensures { OnOk result (functions.new.items ≡ (if in_function then functions.old.items ++ numbers.items ∷ [] else functions.old.items)) }
{
    if in_function {
        functions.push(Sequence::of(numbers))?;
    }
    Ok(())
}

/// The numbers of the lines of the statements of each function of a script's text. A line is a statement of the function
/// whose `fn` line is the last declaration before it; a line that cannot be parsed is left out.
pub fn statement_lines(alloc: Global, text: &[u8]) -> Result<StatementLines, AllocError>
    requires { length text.now ≤ MAX_INPUT }
    ensures { IfOk result (λ lines. lines ≡ statement_lines text.now) }
{
    let mut functions = Vec::new(alloc);
    let mut numbers = Vec::new(alloc);
    let mut in_function = false;
    let mut left = SpelledLines::of(text);
    while let Some((number, line)) = next_parsed(alloc, &mut left)? {
        if is_statement(&line) {
            numbers.push(number)?;
        } else {
            end_section(&mut functions, numbers, in_function)?;
            numbers = Vec::new(alloc);
            in_function = declares(SymbolKind::Function, &line);
        }
    }
    end_section(&mut functions, numbers, in_function)?;
    Ok(StatementLines { functions })
}

/// An empty function whose contract states the theorems. The line of each statement of the script that a text spells is a
/// line of the text that spells this statement. There are no other lines, and no two statements have the same one: the lines
/// are in the order of the text.
pub fn lines_spell_statements()
    ensures spelled { LinesSpellStatements }
    ensures only { LinesAreOfStatements }
    ensures order { LinesAscend }
{}
