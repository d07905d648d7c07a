//! What is found of some events.

ghost use Rattle.std.specs.Prelude.{◌≡◌, ℕ, ◌+◌, ◌∷◌, Bool, List};
ghost use Rattle.pct_model.specs.declared.event.Event.{Event as AnEvent};
ghost use Rattle.pct_audit.specs.AuditOf.{first_events};
ghost use Rattle.pct_event_judge.specs.Allowed.{AreAllowed};
ghost use Rattle.pct_event_judge.specs.Findings.{IsFound};

/// A law that is about events alone. What each says is with the fields of `Findings`.
#[derive(Clone, Copy)]
pub enum EventLaw {
    Once,
    RanAll,
    AfterEnd,
    Process,
    Slot,
    Join,
    Cond,
    CallOnce,
    Requests,
    Keys,
    Leftover,
}

/// Which laws allow an event after those before it.
#[derive(Clone, Copy)]
pub(crate) struct Allowed {
    pub once: bool,
    pub ran_all: bool,
    pub after_end: bool,
    pub process: bool,
    pub slot: bool,
    pub join: bool,
    pub cond: bool,
    pub call_once: bool,
    pub requests: bool,
    pub keys: bool,
}

/// For each law that is about events alone, the number of the first event that it does not allow, counted from 1. `None` says that the
/// law is kept.
#[derive(Clone, Copy)]
pub struct Findings {
    /// The law of cleanup handlers and destructors: each runs at most once, the newest handler first.
    pub once: Option<u32>,
    /// The law of handlers that ran: as a thread ends, they are those that were open as it began to end.
    pub ran_all: Option<u32>,
    /// The law of what follows the end of a thread.
    pub after_end: Option<u32>,
    /// The law of processes.
    pub process: Option<u32>,
    /// The law of thread ids and slots.
    pub slot: Option<u32>,
    /// The law of joins.
    pub join: Option<u32>,
    /// The law of mutexes and condition waits.
    pub cond: Option<u32>,
    /// The law of pthread_once.
    pub call_once: Option<u32>,
    /// The law of cancellation requests.
    pub requests: Option<u32>,
    /// The law of keys of thread-specific data.
    pub keys: Option<u32>,
    /// The law of values that are left: the first event that values are left which is not directly followed by the end of its thread.
    pub leftover: Option<u32>,
}

impl Findings {
    ghost use Rattle.pct_event_judge.specs.Findings.{AreFoundIn, all_kept, are_kept, found_of};

    /// Each law is kept.
    pub const ALL_KEPT: Findings = Findings {
        once: None,
        ran_all: None,
        after_end: None,
        process: None,
        slot: None,
        join: None,
        cond: None,
        call_once: None,
        requests: None,
        keys: None,
        leftover: None,
    };

    /// The first event that a law does not allow.
    pub fn of(&self, law: EventLaw) -> Option<u32>
        ensures { result ≡ found_of law self.now }
    {
        match law {
            EventLaw::Once => self.once,
            EventLaw::RanAll => self.ran_all,
            EventLaw::AfterEnd => self.after_end,
            EventLaw::Process => self.process,
            EventLaw::Slot => self.slot,
            EventLaw::Join => self.join,
            EventLaw::Cond => self.cond,
            EventLaw::CallOnce => self.call_once,
            EventLaw::Requests => self.requests,
            EventLaw::Keys => self.keys,
            EventLaw::Leftover => self.leftover,
        }
    }

    /// Whether each law is kept.
    pub fn are_kept(&self) -> bool
        ensures { result ≡ are_kept self.now }
    {
        self.once.is_none()
            && self.ran_all.is_none()
            && self.after_end.is_none()
            && self.process.is_none()
            && self.slot.is_none()
            && self.join.is_none()
            && self.cond.is_none()
            && self.call_once.is_none()
            && self.requests.is_none()
            && self.keys.is_none()
            && self.leftover.is_none()
    }

    // What is found after one more event, which has this number.
    pub(crate) fn noted(self, allowed: Allowed, number: u32) -> Findings
        ensures { (passes slots n : ℕ) (e : AnEvent) (events : List AnEvent)
            → number ≡ n + 1 → first_events (n + 1) events ≡ e ∷ first_events n events → AreAllowed passes slots e (first_events n events) allowed
            → AreFoundIn passes slots events n self → AreFoundIn passes slots events (n + 1) result }
    {
        Findings {
            once: noted(self.once, allowed.once, number),
            ran_all: noted(self.ran_all, allowed.ran_all, number),
            after_end: noted(self.after_end, allowed.after_end, number),
            process: noted(self.process, allowed.process, number),
            slot: noted(self.slot, allowed.slot, number),
            join: noted(self.join, allowed.join, number),
            cond: noted(self.cond, allowed.cond, number),
            call_once: noted(self.call_once, allowed.call_once, number),
            requests: noted(self.requests, allowed.requests, number),
            keys: noted(self.keys, allowed.keys, number),
            leftover: self.leftover,
        }
    }
}

// The first event that a law does not allow, after one more event.
fn noted(found: Option<u32>, allowed: bool, number: u32) -> Option<u32>
    ensures { (allows : AnEvent → List AnEvent → Bool) (n : ℕ) (e : AnEvent) (events : List AnEvent)
        → number ≡ n + 1 → first_events (n + 1) events ≡ e ∷ first_events n events → allowed ≡ allows e (first_events n events)
        → IsFound allows events n found → IsFound allows events (n + 1) result }
{
    if allowed {
        found
    } else {
        found.or(Some(number))
    }
}
