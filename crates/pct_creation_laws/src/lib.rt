//! Every run keeps the law of creation, of the threads that pthread_create makes and the processes that fork makes, and the law of
//! fork handlers. The crate has no code.
#![tactic(auto)]
