//! Scripts and their texts: `parse` returns the script that a text spells or the first fault of the text. `Jumps` is the jump
//! table of a script.
//!
//! A text passes the checks in this order, in which checks calls them: scan; `check_nesting`, `check_limits`, `name_twice` and
//! `resolve_contents` of pct_script_lines; push_returns; `not_plain` of pct_script_lines; and the check of `main` in checks.
#![tactic(auto)]

mod checks;
mod parser;
mod push_returns;
mod scan;

pub use parser::parse;
pub use pct_grammar::texts_spell_scripts;
pub use pct_jumps::Jumps;
pub use pct_model::ParseWhy;
pub use pct_script_lines::ParseFault;
