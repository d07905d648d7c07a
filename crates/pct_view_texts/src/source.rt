//! A script with the lines of its text.

use pct_model::Script;
use pct_script_lines::StatementLines;

/// A script, and the numbers of the lines of its text.
#[derive(Clone, Copy)]
pub struct Source<'a> {
    pub script: &'a Script,
    pub lines: &'a StatementLines,
}
