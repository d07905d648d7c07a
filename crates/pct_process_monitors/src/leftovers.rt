//! The events that values are left.

ghost use Rattle.std.specs.Prelude.{◌≡◌, ◌<◌, ◌^◌, length};
ghost use Rattle.pct_process_monitors.specs.UnfollowedEvents.{IsFirstUnfollowed, ends_thread_of, is_unfollowed};

use pct_model::{Event, What};

// Whether an event is the end of the thread of another one.
fn ends_thread(event: Event, thread: Event) -> bool
    ensures { result ≡ ends_thread_of thread event }
{
    match event.what {
        What::EndedWith(_) => event.pid == thread.pid && event.tid == thread.tid,
        _ => false,
    }
}

// Whether the event on a place says that values are left, and is not directly followed by the end of its thread.
fn is_unfollowed(events: &[Event], place: usize) -> bool
    requires count { length events.now < 2 ^ 32 }
    requires within { place < length events.now }
    ensures { result ≡ is_unfollowed events.now place }
{
    let event = events[place];
    match event.what {
        What::Leftover(_) => match events.get(place + 1) {
            Some(next) => !ends_thread(*next, event),
            None => true,
        },
        _ => false,
    }
}

/// The number, counted from 1, of the first event that says that values are left and is not directly followed by the end of its thread;
/// `None` if there is none. The events are listed oldest first.
pub fn first_unfollowed(events: &[Event]) -> Option<u32>
    requires count { length events.now < 2 ^ 32 }
    ensures { IsFirstUnfollowed events.now result }
{
    for index in 0..events.len() {
        if is_unfollowed(events, index) {
            return Some(index as u32 + 1);
        }
    }
    None
}
