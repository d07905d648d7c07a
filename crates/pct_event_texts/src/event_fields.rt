//! The table of events: the words of each.

ghost use Rattle.std.specs.Prelude.{◌≡◌};
ghost use Rattle.pct_model.specs.EventTexts.{event_names, event_words};
ghost use Rattle.pct_event_texts.specs.EventFields.{words_of};

use crate::fields::Fields::{self, Four, One, Three, Two};
use crate::names::{caller, cond, func, mutex, once, point, sem, word, word_if};
use pct_io::Field::Number;
use pct_model::{Keyword, Script, What};

/// The words of an event.
#[inline(always)]
#[tactic(auto, unfolding(pct_model::specs::EventTexts::event_words, pct_model::specs::StopTexts::stop_words))]
pub fn fields_of_event(script: &Script, what: What) -> Fields<'_>
    ensures { words_of result ≡ event_words (event_names script.now) what }
{
    match what {
        What::Emit(value) => One(Keyword::Emit, Number(value)),
        What::Created { id, detached } => {
            let kind = word_if(detached, Keyword::Detached, Keyword::Joinable);
            Two(Keyword::Create, Number(id), kind)
        }
        What::Answer { call, number } => Two(Keyword::Answer, caller(call), Number(number)),
        What::Pushed(f, a) => Two(Keyword::Push, func(script, f), Number(a)),
        What::Popped { f, a, run } => {
            let last = word_if(run, Keyword::Run, Keyword::Drop);
            Three(Keyword::Pop, func(script, f), Number(a), last)
        }
        What::Request(id) => One(Keyword::Request, Number(id)),
        What::Detached(id) => One(Keyword::Detach, Number(id)),
        What::StateSet(enable) => {
            let state = word_if(enable, Keyword::Enable, Keyword::Disable);
            One(Keyword::State, state)
        }
        What::ModeSet(asynchronous) => {
            let kind = word_if(asynchronous, Keyword::Asynchronous, Keyword::Deferred);
            One(Keyword::Type, kind)
        }
        What::Called(index) => One(Keyword::Call, point(index)),
        What::Done(index) => One(Keyword::Done, point(index)),
        What::Joined(id, value) => Two(Keyword::Joined, Number(id), Number(value)),
        What::EndingExit(value) => Two(Keyword::Ending, word(Keyword::Exit), Number(value)),
        What::EndingCanceled => One(Keyword::Ending, word(Keyword::Canceled)),
        What::EndingInWait(c, m) => {
            let canceled = word(Keyword::Canceled);
            Three(Keyword::Ending, canceled, cond(script, c), mutex(script, m))
        }
        What::HandlerRun(f, a) => Two(Keyword::Handler, func(script, f), Number(a)),
        What::PassBegun(pass) => One(Keyword::Pass, Number(pass)),
        What::DtorRun { pass, key, f, v } => {
            let destructor = func(script, f);
            let value = Number(v);
            Four(Keyword::Dtor, Number(pass), Number(key), destructor, value)
        }
        What::Leftover(count) => One(Keyword::Leftover, Number(count)),
        What::EndedWith(value) => One(Keyword::Ended, Number(value)),
        What::KeyMade(key) => One(Keyword::Key, Number(key)),
        What::KeyGone(key) => One(Keyword::KeyDelete, Number(key)),
        What::Acquired(m) => One(Keyword::Acquire, mutex(script, m)),
        What::Released(m) => One(Keyword::Release, mutex(script, m)),
        What::Signalled(c, id) => Two(Keyword::Signal, cond(script, c), Number(id)),
        What::BroadcastTo(c, count) => Two(Keyword::Broadcast, cond(script, c), Number(count)),
        What::WaitCanceled(c) => One(Keyword::CancelWait, cond(script, c)),
        What::WaitExpired(c) => One(Keyword::Expire, cond(script, c)),
        What::HandedOn(c, id) => Two(Keyword::HandOn, cond(script, c), Number(id)),
        What::Taken(s) => One(Keyword::Take, sem(script, s)),
        What::Posted(s) => One(Keyword::Post, sem(script, s)),
        What::OnceCalled(o) => Two(Keyword::Once, once(script, o), word(Keyword::Call)),
        What::OnceDone(o) => Two(Keyword::Once, once(script, o), word(Keyword::Done)),
        What::Forked(pid) => One(Keyword::Fork, Number(pid)),
        What::PrepareRun(f) => One(Keyword::Prepare, func(script, f)),
        What::ParentRun(f) => One(Keyword::Parent, func(script, f)),
        What::ChildRun(f) => One(Keyword::Child, func(script, f)),
        What::ExitBegun(value) => One(Keyword::Exit, Number(value)),
        What::ExitRun(f) => One(Keyword::AtExit, func(script, f)),
        What::ProcessEnded(status) => One(Keyword::ProcessEnd, Number(status)),
        What::Reaped(pid, status) => Two(Keyword::Reap, Number(pid), Number(status)),
        What::Stopped(why) => One(why.class(), word(why.name())),
    }
}
