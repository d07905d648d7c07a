//! What is left of open handlers.

ghost use Rattle.std.specs.Prelude.{◌≡◌, ℕ, ◌<◌, List, length, reverse, Some, IfOk, IfSome, option_map, option_and_then};
ghost use Rattle.pct_laws.specs.RanAll.{handler_run};
ghost use Rattle.pct_audit.specs.Stacks.{stack_at};
ghost use Rattle.pct_handler_monitor.specs.Left.{left_after, take_off};

use crate::events::handler_run;
use pct_audit::Stacks;
use pct_io::NoMemory;
use pct_model::What;
use std::alloc::Global;

/// The handlers on a stack, the newest first.
pub fn listed(alloc: Global, stacks: &Stacks, stack: usize) -> Result<Vec<(u32, u32)>, NoMemory>
    requires { stack < length stacks.now }
    ensures { IfOk result (λ handlers. handlers.items ≡ stack_at stacks.now stack) }
{
    let mut handlers = Vec::new(alloc);
    let mut rest = stack;
    while let Some(handler) = stacks.top(rest) {
        handlers.push(handler)?;
        rest = stacks.below(rest);
    }
    Ok(handlers)
}

/// The stack without its newest handler, if it is this one.
pub fn take_off(stacks: &Stacks, stack: usize, handler: (u32, u32)) -> Option<usize>
    requires { stack < length stacks.now }
    ensures within { IfSome result (λ left. left < length stacks.now) }
    ensures left { option_map (stack_at stacks.now) result ≡ take_off handler (stack_at stacks.now stack) }
{
    let newest = stacks.top(stack)?;
    if handler.0 == newest.0 && handler.1 == newest.1 {
        Some(stacks.below(stack))
    } else {
        None
    }
}

/// What is left of a stack after some handlers ran, which are listed newest first.
pub fn left_of(stacks: &Stacks, stack: usize, mut ran: Vec<(u32, u32)>) -> Option<usize>
    requires { stack < length stacks.now }
    ensures within { IfSome result (λ left. left < length stacks.now) }
    ensures left { option_map (stack_at stacks.now) result ≡ left_after (reverse ran.items) (stack_at stacks.now stack) }
{
    let mut left = stack;
    while let Some(handler) = ran.pop() {
        left = take_off(stacks, left, handler)?;
    }
    Some(left)
}

/// What is left of open handlers after one more event of their thread.
pub fn left_after_event(stacks: &Stacks, left: Option<usize>, what: What) -> Option<usize>
    requires { IfSome left (λ number. number < length stacks.now) }
    ensures within { IfSome result (λ number. number < length stacks.now) }
    ensures left { option_map (stack_at stacks.now) result ≡ option_and_then (left_after (handler_run what)) (option_map (stack_at stacks.now) left) }
{
    match handler_run(what) {
        Some(handler) => take_off(stacks, left?, handler),
        None => left,
    }
}
