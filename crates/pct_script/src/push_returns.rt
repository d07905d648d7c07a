//! The check that no `return` is between a push and its pop (XSH pthread_cleanup_push).

ghost use Rattle.std.specs.Prelude.{◌≡◌, ◌≤◌, true, []};
ghost use Rattle.pct_model.specs.Sections.{are_in_functions};
ghost use Rattle.pct_model.specs.Checks.{first_wrong, roles, is_push, is_pop, is_return, is_in_push, return_in_push};
ghost use Rattle.pct_script.specs.PushCounts.{one_if};

use pct_model::{Block, ParseWhy, Role};
use pct_script_lines::{Line, next_function, role_in};

fn is_push(role: Role) -> bool
    ensures { result ≡ is_push role }
{
    match role {
        Role::Opens(Block::Push) => true,
        _ => false,
    }
}

fn is_pop(role: Role) -> bool
    ensures { result ≡ is_pop role }
{
    match role {
        Role::Pop => true,
        _ => false,
    }
}

fn is_return(role: Role) -> bool
    ensures { result ≡ is_return role }
{
    match role {
        Role::Return => true,
        _ => false,
    }
}

fn one_if(counts: bool) -> usize
    ensures value { result ≡ one_if counts }
    ensures most { result ≤ 1 }
{
    if counts { 1 } else { 0 }
}

// The number of the first `return` line with more pushes than pops before it.
#[tactic(auto, unfolding(crate::specs::PushCounts::return_after), using(crate::proofs::PushCounts::by_counts))]
fn return_in(body: &[Line]) -> Option<u32>
    ensures { result ≡ first_wrong is_in_push [] (roles body.now) }
{
    let mut pushes: usize = 0;
    let mut pops: usize = 0;
    let mut rest = body;
    while let Some((line, after)) = rest.split_first() {
        let role = role_in(&line.1);
        if is_return(role) && pops < pushes {
            return Some(line.0);
        }
        pushes += one_if(is_push(role));
        pops += one_if(is_pop(role));
        rest = after;
    }
    None
}

/// The check that no `return` is between a push and its pop. It allocates no memory.
#[tactic(auto, unfolding(pct_model::specs::Checks::return_in_push))]
pub(crate) fn return_in_push(lines: &[Line]) -> Option<(u32, ParseWhy)>
    requires { are_in_functions lines.now ≡ true }
    ensures { result ≡ return_in_push lines.now }
{
    let mut rest = lines;
    while let Some((_, body, after)) = next_function(rest) {
        if let Some(number) = return_in(body) {
            return Some((number, ParseWhy::ReturnInPush));
        }
        rest = after;
    }
    None
}
