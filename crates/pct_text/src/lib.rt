//! The text layer that scripts and schedules share: the lines of a text, the words of a line, and numbers. It takes no
//! memory, and each line, word or rest is a slice of its input.
#![tactic(auto)]

mod line;
mod number;
mod tokens;

pub use line::{first_line, split_once, strip_cr};
pub use number::{is_digit, number_of, numeral, split_number};
pub use tokens::{are_allowed, count_words, next_word, spells_something};
