//! The check of limits: on the declarations of each kind, on the statement lines, and on the locals of a function.

ghost use Rattle.std.specs.Prelude.{◌≡◌};
ghost use Rattle.pct_model.specs.declared.line_kind.SymbolKind.TheVariants.{Function};
ghost use Rattle.pct_model.specs.Checks.{fault_at_line};
ghost use Rattle.pct_model.specs.Sections.{declares_by};
ghost use Rattle.pct_model.specs.declared.refusal.ParseWhy.TheVariants.{TooMany};
ghost use Rattle.pct_script_lines.specs.Outlines.{outlines_of};
ghost use Rattle.pct_script_lines.specs.LineCounts.{none_yet, one_more, with_declared, with_statement, has_many_words, with_outline, limit_in};

use crate::stored_lines::{LineOutline, StoredLines};
use pct_model::{
    MAX_DECLARED, MAX_FUNCTIONS, MAX_LOCALS, MAX_STATEMENTS, ParseWhy, Role, SymbolKind,
};

/// The numbers of lines of each sort before a line.
#[derive(Clone, Copy)]
struct Counts {
    globals: usize,
    mutexes: usize,
    conds: usize,
    sems: usize,
    onces: usize,
    functions: usize,
    statements: usize,
}

fn one_more(count: usize, limit: usize) -> Option<usize>
    ensures { result ≡ one_more count limit }
{
    if limit <= count {
        None
    } else {
        Some(count + 1)
    }
}

// Whether the line is a `fn` line.
fn is_fn(role: Role) -> bool
    ensures { result ≡ declares_by Function role }
{
    match role {
        Role::Declares(SymbolKind::Function) => true,
        _ => false,
    }
}

// Whether the line declares a function with more than 8 locals.
fn has_many_locals(outline: LineOutline) -> bool
    ensures { result ≡ has_many_words outline }
{
    is_fn(outline.line_kind.role()) && 1 + MAX_LOCALS < outline.token_count
}

impl Counts {
    fn none_yet() -> Counts
        ensures { result ≡ none_yet }
    {
        Counts {
            globals: 0,
            mutexes: 0,
            conds: 0,
            sems: 0,
            onces: 0,
            functions: 0,
            statements: 0,
        }
    }

    fn with_declared(self, kind: SymbolKind) -> Option<Counts>
        ensures { result ≡ with_declared self kind }
    {
        match kind {
            SymbolKind::Global => Some(Counts {
                globals: one_more(self.globals, MAX_DECLARED)?,
                ..self
            }),
            SymbolKind::Mutex => Some(Counts {
                mutexes: one_more(self.mutexes, MAX_DECLARED)?,
                ..self
            }),
            SymbolKind::Cond => Some(Counts {
                conds: one_more(self.conds, MAX_DECLARED)?,
                ..self
            }),
            SymbolKind::Sem => Some(Counts {
                sems: one_more(self.sems, MAX_DECLARED)?,
                ..self
            }),
            SymbolKind::Once => Some(Counts {
                onces: one_more(self.onces, MAX_DECLARED)?,
                ..self
            }),
            SymbolKind::Function => Some(Counts {
                functions: one_more(self.functions, MAX_FUNCTIONS)?,
                ..self
            }),
        }
    }

    fn with_statement(self) -> Option<Counts>
        ensures { result ≡ with_statement self }
    {
        Some(Counts {
            statements: one_more(self.statements, MAX_STATEMENTS)?,
            ..self
        })
    }

    // The counts with one more line, if it exceeds no limit.
    #[tactic(auto, unfolding(crate::specs::LineCounts::with_outline))]
    fn with_outline(self, outline: LineOutline) -> Option<Counts>
        ensures { result ≡ with_outline self outline }
    {
        if has_many_locals(outline) {
            return None;
        }
        match outline.line_kind.role() {
            Role::Declares(kind) => self.with_declared(kind),
            _ => self.with_statement(),
        }
    }
}

/// The check of limits on the lines of a text. It allocates no memory.
pub fn check_limits(lines: &StoredLines) -> Option<(u32, ParseWhy)>
    ensures { result ≡ fault_at_line TooMany (limit_in none_yet (outlines_of lines.now)) }
{
    let mut counts = Counts::none_yet();
    let mut outlines = lines.outlines();
    while let Some((number, outline)) = outlines.next() {
        match counts.with_outline(outline) {
            Some(next) => counts = next,
            None => return Some((number, ParseWhy::TooMany)),
        }
    }
    None
}
