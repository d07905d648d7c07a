//! What every run keeps of each thread, beside what the events report of it, and the lemmas by which a fact that each step keeps
//! holds after every run. The crate has no code.
#![tactic(auto)]
