//! The steps of the threads of a process.

ghost use Rattle.std.specs.Prelude.{◌≡◌, ◌+◌, ◌<◌, IfSome, Some, is_some, length, slice_get, true};
ghost use Rattle.pct_model.specs.Formats.{has_timeouts};
ghost use Rattle.pct_model.specs.World.{Thread, SharedState};
ghost use Rattle.pct_model.specs.Environment.{Environment};
ghost use Rattle.pct_model.specs.NextStatement.{next_of, body_at};
ghost use Rattle.pct_model.specs.ChoiceTable.{choices_at};
ghost use Rattle.pct_model.specs.Chosen.{item_at};
ghost use Rattle.pct_engine_laws.specs.Fitting.{Fits};
ghost use Rattle.pct_engine_laws.specs.SeenSteps.{choices_in, is_ready_in};
ghost use Rattle.pct_process.specs.FamilyViews.{other_processes};
ghost use Rattle.pct_process.specs.ProcessViews.{thread_on_slot};
ghost use Rattle.pct_step_context.specs.Contexts.{IsContext, IsWhole};
ghost use Rattle.pct_step_context.specs.Numbers.{NumbersFit, NewNumbersFit};
ghost use Rattle.pct_transitions.specs.ProcessSteps.{with_data, ForksHaveRoom, Takes};

use crate::choice_table::choices_at;
use crate::readiness::{is_met, ready_when};
use crate::transition_table::transition_by;
use pct_model::{Alt, Transition};
use pct_process::ProcessState;
use pct_step_context::{Context, Surroundings};
use pct_threads::Steps;
use std::marker::Brand;
use std::sync::ledger::{Blank, Ledger};

// ---- choices

/// Whether the thread on a slot has a choice.
#[inline]
pub fn has_choice(around: Surroundings, process: &ProcessState, slot: u32) -> bool
    requires { is_some (thread_on_slot process.now.slots slot) ≡ true }
    ensures { (t : Thread) → thread_on_slot process.now.slots slot ≡ Some t → result ≡ is_ready_in around.entry.program.now.script (has_timeouts around.entry.program.now.config.format) (length process.now.slots) (other_processes around.entry.family) (with_data process.now) t }
{
    has_choice_counted::<Brand>(around, process, slot, Blank::new(1))
}

// The same, with a count on a new ledger.
#[inline(always)]
fn has_choice_counted<L: Ledger>(
    around: Surroundings,
    process: &ProcessState,
    slot: u32,
    blank: Blank,
) -> bool
    requires held { is_some (thread_on_slot process.now.slots slot) ≡ true }
    requires name { blank.name ≡ L.name }
    requires parts { blank.parts ≡ L.parts }
    requires some { 0 < blank.parts }
    ensures { (t : Thread) → thread_on_slot process.now.slots slot ≡ Some t → result ≡ is_ready_in around.entry.program.now.script (has_timeouts around.entry.program.now.config.format) (length process.now.slots) (other_processes around.entry.family) (with_data process.now) t }
{
    let mut steps = Steps::<L>::new(blank);
    let when = ready_when(around.program, process, slot, &mut steps);
    is_met(around, process, when)
}

/// The choice of the thread on a slot that a number chooses, modulo the number of its choices. `None` exactly if it has none.
pub fn choice_by(
    around: Surroundings,
    process: &ProcessState,
    slot: u32,
    number: u32,
) -> Option<Alt>
    requires held { is_some (thread_on_slot process.now.slots slot) ≡ true }
    requires numbers { NewNumbersFit process.now }
    ensures { (t : Thread) → thread_on_slot process.now.slots slot ≡ Some t → result ≡ item_at (choices_in around.entry.program.now.script (has_timeouts around.entry.program.now.config.format) (length process.now.slots) (other_processes around.entry.family) (with_data process.now) t) number }
{
    numbered(&Context::uncounted(around, process, slot), number)
}

/// The same, and writes what the thread does by the choice to `transition`. The record of the thread is read once.
#[inline]
pub fn transition_by_number<L: Ledger>(
    around: Surroundings,
    process: &ProcessState,
    slot: u32,
    number: u32,
    transition: &mut Transition,
    steps: &mut Steps<L>,
) -> Option<Alt>
    requires held { is_some (thread_on_slot process.now.slots slot) ≡ true }
    requires numbers { NewNumbersFit process.now }
    requires room { ForksHaveRoom process.now.slots }
    ensures chosen { (t : Thread) → thread_on_slot process.now.slots slot ≡ Some t → result ≡ item_at (choices_in around.entry.program.now.script (has_timeouts around.entry.program.now.config.format) (length process.now.slots) (other_processes around.entry.family) (with_data process.now) t) number }
    ensures taken { (t : Thread) → thread_on_slot process.now.slots slot ≡ Some t → IfSome result (λ choice. Takes around.entry.program.now.script around.entry.program.now.config (other_processes around.entry.family) process.now t choice true transition.new) }
    ensures fits { (t : Thread) → thread_on_slot process.now.slots slot ≡ Some t → IfSome result (λ choice. Fits (length t.frames) (length t.handlers) t.pass transition.new.own) }
    ensures count { steps.new ≡ steps.old + 1 }
{
    let context = Context::new(around, process, slot, steps);
    let choice = numbered(&context, number)?;
    transition_by(&context, choice, transition);
    Some(choice)
}

/// The number of the choices of the thread on a slot.
pub fn choice_count(around: Surroundings, process: &ProcessState, slot: u32) -> usize
    requires held { is_some (thread_on_slot process.now.slots slot) ≡ true }
    requires numbers { NewNumbersFit process.now }
    ensures { (t : Thread) → thread_on_slot process.now.slots slot ≡ Some t → result ≡ length (choices_in around.entry.program.now.script (has_timeouts around.entry.program.now.config.format) (length process.now.slots) (other_processes around.entry.family) (with_data process.now) t) }
{
    let context = Context::uncounted(around, process, slot);
    choices_at(&context).count(context.position.keys)
}

/// The choice of the thread on a slot at an index among its choices. `None` exactly if it has no more than that.
pub fn choice_at(
    around: Surroundings,
    process: &ProcessState,
    slot: u32,
    index: usize,
) -> Option<Alt>
    requires held { is_some (thread_on_slot process.now.slots slot) ≡ true }
    requires numbers { NewNumbersFit process.now }
    ensures { (t : Thread) → thread_on_slot process.now.slots slot ≡ Some t → result ≡ slice_get (choices_in around.entry.program.now.script (has_timeouts around.entry.program.now.config.format) (length process.now.slots) (other_processes around.entry.family) (with_data process.now) t) index }
{
    let context = Context::uncounted(around, process, slot);
    choices_at(&context).nth(context.threads, context.position.keys, index)
}

// ---- steps

/// Whether a choice of the thread on a slot is offered. If it is, what the thread does by it is written to `transition`. The record of
/// the thread is read once.
#[inline]
pub fn transition_if_offered<L: Ledger>(
    around: Surroundings,
    process: &ProcessState,
    slot: u32,
    choice: Alt,
    transition: &mut Transition,
    steps: &mut Steps<L>,
) -> bool
    requires held { is_some (thread_on_slot process.now.slots slot) ≡ true }
    requires numbers { NewNumbersFit process.now }
    requires room { ForksHaveRoom process.now.slots }
    ensures taken { (t : Thread) → thread_on_slot process.now.slots slot ≡ Some t → Takes around.entry.program.now.script around.entry.program.now.config (other_processes around.entry.family) process.now t choice result transition.new }
    ensures fits { (t : Thread) → thread_on_slot process.now.slots slot ≡ Some t → result ≡ true → Fits (length t.frames) (length t.handlers) t.pass transition.new.own }
    ensures count { steps.new ≡ steps.old + 1 }
{
    let context = Context::new(around, process, slot, steps);
    if !choices_at(&context).offers(context.threads, context.position.keys, choice) {
        return false;
    }
    transition_by(&context, choice, transition);
    true
}

// The choice that a number chooses, modulo the number of choices, of a thread with this context.
#[inline(always)]
fn numbered(context: &Context, number: u32) -> Option<Alt>
    requires whole { IsWhole context.now }
    requires numbers { NumbersFit context.now.threads.now context.now.position.keys.now }
    ensures { (shared : SharedState) (t : Thread) (environment : Environment) → IsContext shared t environment context.now
        → let script = context.now.program.now.script in
        result ≡ item_at (choices_at (body_at script t.frames) shared t environment (next_of script t.frames) t.status) number }
{
    let choices = choices_at(context);
    let count = choices.count(context.position.keys);
    if count == 0 {
        return None;
    }
    choices.nth(
        context.threads,
        context.position.keys,
        number as usize % count,
    )
}
