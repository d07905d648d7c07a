//! The theorems on texts and the scripts that they spell. The crate has no code that runs: the parser and the engine cite
//! its definitions and lemmas.
#![tactic(auto)]

mod law;

pub use law::texts_spell_scripts;
