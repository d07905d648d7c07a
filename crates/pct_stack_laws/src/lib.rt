//! Every run keeps the law of stack slots: a stack slot is taken by one thread at a time, and is given back only when its thread has ended and
//! was joined or is detached. The crate has no code.
#![tactic(auto)]
