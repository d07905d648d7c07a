//! Lists of the names that a generated script declares.

ghost use Rattle.std.specs.Prelude.{◌≡◌, ◌≤◌, ◌<◌, ◌+◌, ◌∷◌, ◌++◌, [], length, map, IfOk, OnOk};
ghost use Rattle.std.specs.List.{range_with_len};
ghost use Rattle.pct_model.specs.declared.name.TheConstants.{MAX_NAME};
ghost use Rattle.pct_vectors.specs.GeneratedContents.{global_names, thread_name};

use pct_io::NoMemory;
use pct_model::{Name, Names, Sequence};
use std::alloc::Global;

/// The list of this name alone.
pub(crate) fn one_name(alloc: Global, name: &[u8]) -> Result<Names, NoMemory>
    requires some { 0 < length name.now }
    requires few { length name.now ≤ MAX_NAME }
    ensures { IfOk result (λ names. names ≡ name.now ∷ []) }
{
    let mut names = Vec::new(alloc);
    names.push(Name::of(name))?;
    Ok(Sequence::of(names))
}

/// The list of these two names.
pub(crate) fn two_names(alloc: Global, first: &[u8], second: &[u8]) -> Result<Names, NoMemory>
    requires some { (0 < length first.now) × (0 < length second.now) }
    requires few { (length first.now ≤ MAX_NAME) × (length second.now ≤ MAX_NAME) }
    ensures { IfOk result (λ names. names ≡ first.now ∷ second.now ∷ []) }
{
    let mut names = Vec::new(alloc);
    names.push(Name::of(first))?;
    names.push(Name::of(second))?;
    Ok(Sequence::of(names))
}

/// The names of the globals: three, and one for each thread.
pub(crate) fn global_names(alloc: Global, threads: u32) -> Result<Names, NoMemory>
    requires { threads ≤ 28 }
    ensures { IfOk result (λ names. names ≡ global_names threads) }
{
    let mut names = Vec::new(alloc);
    names.push(Name::of(b"key"))?;
    names.push(Name::of(b"total"))?;
    names.push(Name::of(b"work"))?;
    push_threads(&mut names, threads)?;
    Ok(Sequence::of(names))
}

// Appends the names of the globals for the ids of the threads.
fn push_threads(names: &mut Vec<Name>, threads: u32) -> Result<(), NoMemory>
    requires { threads ≤ 28 }
    ensures { OnOk result (names.new.items ≡ names.old.items ++ map thread_name (range_with_len 1 threads)) }
{
    for number in 1..threads + 1 {
        names.push(thread_name(number))?;
    }
    Ok(())
}

// The name of the global for the id of the thread with this number.
#[tactic(auto, unfolding(crate::specs::GeneratedContents::thread_name))]
fn thread_name(number: u32) -> Name
    requires { number ≤ 28 }
    ensures { result ≡ thread_name number }
{
    if number < 10 {
        Name::of(&[b't', digit(number)])
    } else {
        Name::of(&[b't', digit(number / 10), digit(number % 10)])
    }
}

// The code of a digit.
fn digit(value: u32) -> u8
    requires { value < 10 }
    ensures { result ≡ 48 + value }
{
    b'0' + value as u8
}
