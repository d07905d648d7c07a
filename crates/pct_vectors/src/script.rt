//! The script of a number.

ghost use Rattle.std.specs.Prelude.{◌≡◌, IfOk};
ghost use Rattle.pct_model.specs.Canon.{canon};
ghost use Rattle.pct_model.specs.GeneratedScript.{generated_text};

use crate::functions::functions;
use crate::names::{global_names, one_name};
use pct_io::NoMemory;
use pct_model::{Script, Sequence};
use std::alloc::Global;

/// The script of this number. Main creates 1 to 28 threads that wait for a condition variable. It signals the variable 1 to 200
/// times, and then cancels and joins the threads, each of which adds its number to a total in a destructor.
///
/// `NoMemory` is returned if an allocation fails.
pub fn generate(alloc: Global, number: u32) -> Result<Script, NoMemory>
    ensures { IfOk result (λ script. canon script ≡ generated_text number) }
{
    let threads = 1 + number % 28;
    let rounds = 1 + number / 28 % 200;
    Ok(Script {
        globals: global_names(alloc, threads)?,
        mutexes: one_name(alloc, b"m")?,
        conds: one_name(alloc, b"c")?,
        sems: Sequence::of(Vec::new(alloc)),
        onces: Sequence::of(Vec::new(alloc)),
        funcs: functions(alloc, threads, rounds)?,
    })
}
