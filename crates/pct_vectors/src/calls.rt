//! The statements of main that are the same for each thread but for its number.

ghost use Rattle.std.specs.Prelude.{◌≡◌, ◌≤◌, ◌++◌, map, OnOk};
ghost use Rattle.std.specs.List.{range_with_len};
ghost use Rattle.pct_vectors.specs.GeneratedContents.{statement_of};

use pct_io::NoMemory;
use pct_model::{Dest, Operand, Stmt};

/// A call that main makes for each thread.
#[derive(Clone, Copy)]
pub(crate) enum Call {
    Create,
    Cancel,
    Join,
}

/// Appends the call for each thread, by rising number.
pub(crate) fn push_calls(body: &mut Vec<Stmt>, call: Call, threads: u32) -> Result<(), NoMemory>
    requires { threads ≤ 28 }
    ensures { OnOk result (body.new.items ≡ body.old.items ++ map (statement_of call) (range_with_len 1 threads)) }
{
    for number in 1..threads + 1 {
        body.push(statement_of(call, number))?;
    }
    Ok(())
}

// The call for the thread with this number, whose id is in the global after the first three and those of the threads before it.
fn statement_of(call: Call, number: u32) -> Stmt
    requires { number ≤ 28 }
    ensures { result ≡ statement_of call number }
{
    let id = 2 + number;
    match call {
        Call::Create => Stmt::Create {
            result: Dest::Drop,
            id: Dest::Global(id),
            func: 2,
            arg: Operand::Num(number),
            detached: false,
        },
        Call::Cancel => Stmt::CancelThread(Operand::Global(id)),
        Call::Join => Stmt::Join {
            id: Operand::Global(id),
            value: Dest::Drop,
        },
    }
}
