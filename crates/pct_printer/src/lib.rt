//! The canonical text of a script: `print` writes it, and `write_statement_words` writes the words of one statement. A
//! statement passes encode, argument_text, printer.
#![tactic(auto)]

mod argument_text;
mod encode;
mod printer;

pub use printer::{print, write_statement_words};
