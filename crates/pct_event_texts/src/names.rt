//! The fields of events and of other texts that are words or names.

ghost use Rattle.std.specs.Prelude.{◌≡◌, true};
ghost use Rattle.pct_io.specs.Fields.{field_text};
ghost use Rattle.pct_model.specs.Keywords.{keyword_text};
ghost use Rattle.pct_model.specs.Names.{name_at};
ghost use Rattle.pct_model.specs.Points.{point_name};
ghost use Rattle.pct_model.specs.LineKinds.{syntax_of, is_no_point};
ghost use Rattle.pct_model.specs.EventTexts.{either, caller_name, func_name, mutex_name, cond_name, sem_name, once_name};

use pct_cancel::point_name;
use pct_io::Field;
use pct_model::{Caller, Keyword, LineKind, Name, Script};

/// A fixed word.
pub fn word(keyword: Keyword) -> Field<'static>
    ensures { field_text result ≡ keyword_text keyword }
{
    Field::Text(keyword.text())
}

/// The first word if the flag is set, else the second, as a field.
pub(crate) fn word_if(flag: bool, first: Keyword, second: Keyword) -> Field<'static>
    ensures { field_text result ≡ either first second flag }
{
    Field::Text(text_if(flag, first, second))
}

/// The first word if the flag is set, else the second.
pub(crate) fn text_if(flag: bool, first: Keyword, second: Keyword) -> &'static [u8]
    ensures { result.now ≡ either first second flag }
{
    if flag { first.text() } else { second.text() }
}

/// The name of a call.
pub(crate) fn caller(call: Caller) -> Field<'static>
    ensures { field_text result ≡ caller_name call }
{
    match call {
        Caller::Create => keyword_of(LineKind::Create),
        Caller::KeyCreate => keyword_of(LineKind::KeyCreate),
        Caller::AtFork => keyword_of(LineKind::AtFork),
        Caller::Fork => keyword_of(LineKind::Fork),
        Caller::WaitPid => keyword_of(LineKind::WaitPid),
        Caller::AtExit => keyword_of(LineKind::AtExit),
        Caller::CondTimedWait => keyword_of(LineKind::CondTimedWait),
        Caller::SemTimedWait => keyword_of(LineKind::SemTimedWait),
    }
}

/// The keyword of a kind of line that has one of its own.
pub fn keyword_of(line_kind: LineKind) -> Field<'static>
    requires { is_no_point line_kind ≡ true }
    ensures { field_text result ≡ (syntax_of line_kind).keyword }
{
    Field::Text(line_kind.keyword().unwrap())
}

/// The name of a cancellation point.
pub fn point(index: u32) -> Field<'static>
    ensures { field_text result ≡ point_name index }
{
    Field::Text(point_name(index))
}

/// The name of a function, as a field.
pub fn func(script: &Script, index: u32) -> Field<'_>
    ensures { field_text result ≡ func_name script.now index }
{
    Field::Text(func_name(script, index))
}

/// The name of a function.
#[tactic(auto, unfolding(pct_model::specs::Names::name_at))]
pub(crate) fn func_name(script: &Script, index: u32) -> &[u8]
    ensures { result.now ≡ func_name script.now index }
{
    match script.funcs.as_slice().get(index as usize) {
        None => &[],
        Some(func) => func.name.as_bytes(),
    }
}

/// The name of a mutex, as a field.
pub fn mutex(script: &Script, index: u32) -> Field<'_>
    ensures { field_text result ≡ mutex_name script.now index }
{
    Field::Text(mutex_name(script, index))
}

/// The name of a mutex.
pub(crate) fn mutex_name(script: &Script, index: u32) -> &[u8]
    ensures { result.now ≡ mutex_name script.now index }
{
    name_at(script.mutexes.as_slice(), index)
}

/// The name of a condition variable, as a field.
pub fn cond(script: &Script, index: u32) -> Field<'_>
    ensures { field_text result ≡ cond_name script.now index }
{
    Field::Text(cond_name(script, index))
}

/// The name of a condition variable.
pub(crate) fn cond_name(script: &Script, index: u32) -> &[u8]
    ensures { result.now ≡ cond_name script.now index }
{
    name_at(script.conds.as_slice(), index)
}

/// The name of a semaphore.
#[tactic(auto, unfolding(pct_model::specs::Names::name_at))]
pub fn sem(script: &Script, index: u32) -> Field<'_>
    ensures { field_text result ≡ sem_name script.now index }
{
    match script.sems.as_slice().get(index as usize) {
        None => Field::Text(&[]),
        Some(sem) => Field::Text(sem.name.as_bytes()),
    }
}

/// The name of a once control.
pub fn once(script: &Script, index: u32) -> Field<'_>
    ensures { field_text result ≡ once_name script.now index }
{
    Field::Text(name_at(script.onces.as_slice(), index))
}

// The name at an index.
#[tactic(auto, unfolding(pct_model::specs::Names::name_at))]
fn name_at(names: &[Name], index: u32) -> &[u8]
    ensures { result.now ≡ name_at names.now index }
{
    match names.get(index as usize) {
        None => &[],
        Some(name) => name.as_bytes(),
    }
}
