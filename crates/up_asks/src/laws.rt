//! What holds of events apart from how they happen. Each law is a function with an empty body.
ghost use Rattle.up_asks.specs.Laws.{SameEvents};

/// Events count by the outcome that they say for each kind and page.
pub fn events_are_what_they_say()
    ensures { SameEvents }
{}
