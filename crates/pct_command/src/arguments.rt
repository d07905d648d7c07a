//! The arguments of a program.

use pct_io::NoMemory;
use std::rt::Env;
use std::{env, io};

/// The arguments after the program's name. If one is not UTF-8, the list is empty, which `command` refuses as well.
pub fn words_of<R: Env + AllocGlobal>(rt: &R) -> Result<Vec<String>, NoMemory> {
    match env::args(rt) {
        Ok(args) => Ok(args.skip(1).collect(rt.alloc())?),
        Err(error) => match error.kind() {
            io::ErrorKind::OutOfMemory => Err(NoMemory),
            _ => Ok(Vec::new(rt.alloc())),
        },
    }
}
