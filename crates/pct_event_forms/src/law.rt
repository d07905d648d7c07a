//! An empty function whose contract states the theorem on the forms of events.

ghost use Rattle.pct_event_forms.specs.EventForms.{EventsAreReadByForms};

/// Words have the form of an event, as the reader of reports checks it, exactly if they are read as an event. This holds
/// whatever names were read before.
pub fn events_are_read_by_forms()
    ensures { EventsAreReadByForms }
{}
