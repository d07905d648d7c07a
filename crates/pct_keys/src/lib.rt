//! The keys of thread-specific data of one process, and the values that its threads have for them (XSH pthread_key_create,
//! pthread_key_delete, pthread_getspecific). Only `Keys::new` allocates memory.
#![tactic(auto)]

mod keys;
mod place;
mod row;

pub use keys::Keys;
pub use place::key_place;
