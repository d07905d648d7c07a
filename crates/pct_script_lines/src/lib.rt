//! What a script's text is made of. `SpelledLines` iterates over the lines that spell something, `StoredLines` keeps the first of
//! them parsed, and `misspelled` says why a line cannot be parsed. `check_nesting`, `check_limits`, `name_twice` and `not_plain`
//! are checks of lines. `resolve_contents` returns the contents of the script that parsed lines spell, or the first line with a
//! name that is not declared. `parse` of pct_script calls all these in their order, and `ParseFault` is its error.
//!
//! `statement_lines` are the numbers of the lines of a text's statements. `copy_script` copies a script.
#![tactic(auto)]

mod argument_kind;
mod arguments;
mod copying;
mod decode;
mod duplicates;
mod fault;
mod identifier;
mod limits;
mod line;
mod line_numbers;
mod nesting;
mod plain_functions;
mod resolve;
mod sections;
mod spelled_lines;
mod spelling;
mod stored_lines;
mod symbols;

pub use copying::copy_script;
pub use duplicates::name_twice;
pub use fault::ParseFault;
pub use limits::check_limits;
pub use line::{Line, role_in};
pub use line_numbers::{StatementLines, lines_spell_statements, statement_lines};
pub use nesting::check_nesting;
pub use plain_functions::not_plain;
pub use resolve::{ScriptContents, resolve_contents};
pub use sections::next_function;
pub use spelled_lines::SpelledLines;
pub use spelling::misspelled;
pub use stored_lines::{StoredLines, next_stored, store_spelled};
pub use symbols::next_declared;
