//! Every run keeps the law of frames. The crate has no code.
#![tactic(auto)]
