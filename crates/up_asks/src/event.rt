ghost use Rattle.std.specs.Prelude.{◌≡◌, ◌+◌, ◌<◌, ◌^◌, Some, length, slice_get};
ghost use Rattle.up_num.specs.Asks as asks;
ghost use Rattle.up_asks.specs.Asking.{event_of, events_of, fixes, ticket_after};

use crate::ticket::Ticket;
use up_num::{AskKind, Outcome, PageRange};

/// What becomes of those who wait for one of these pages with this kind.
#[derive(Clone, Copy, Debug)]
pub struct Event {
    pub kind: AskKind,
    pub range: PageRange,
    pub outcome: Outcome,
}

/// Where a range starts.
pub(crate) fn start_of(range: &PageRange) -> u32
    ensures { result ≡ range.now.first }
{
    range.first
}

/// How many pages a range has.
pub(crate) fn pages_in(range: &PageRange) -> u32
    ensures same { result ≡ range.now.count }
    ensures below { range.now.first + range.now.count < 2 ^ 32 }
{
    range.count
}

pub(crate) fn is_same_kind(one: AskKind, other: AskKind) -> bool
    ensures { result ≡ asks.same_kind one other }
{
    match (one, other) {
        (AskKind::Read, AskKind::Read) => true,
        (AskKind::Dirty, AskKind::Dirty) => true,
        _ => false,
    }
}

pub(crate) fn is_waiting(outcome: Outcome) -> bool
    ensures { result ≡ asks.is_waiting outcome }
{
    matches!(outcome, Outcome::Waiting)
}

/// The first outcome decides.
pub(crate) fn first_of(first: Outcome, later: Outcome) -> Outcome
    ensures { result ≡ asks.then_outcome first later }
{
    match first {
        Outcome::Waiting => later,
        _ => first,
    }
}

impl Event {
    /// What becomes of those who wait for this page with this kind.
    fn outcome_at(&self, kind: AskKind, page: u32) -> Outcome
        ensures { result ≡ event_of self.now kind page }
    {
        let last = self.range.first + (self.range.count - 1);
        if is_same_kind(self.kind, kind) && self.range.first <= page && page <= last {
            self.outcome
        } else {
            Outcome::Waiting
        }
    }
}

/// The event at this place.
pub(crate) fn event_at(events: &[Event], place: usize) -> &Event
    requires { place < length events.now }
    ensures { slice_get events.now place ≡ Some result.now }
{
    &events[place]
}

/// What the events make of those who wait for this page with this kind.
fn outcome_of(events: &[Event], kind: AskKind, page: u32) -> Outcome
    ensures { result ≡ events_of events.now kind page }
{
    let mut outcome = Outcome::Waiting;
    for place in 0..events.len() {
        outcome = first_of(outcome, event_at(events, place).outcome_at(kind, page));
    }
    outcome
}

/// The events fix the ticket.
pub(crate) fn fixes_ticket(events: &[Event], ticket: &Ticket) -> bool
    ensures { result ≡ fixes (events_of events.now) ticket.now }
{
    is_waiting(ticket.outcome) && !is_waiting(outcome_of(events, ticket.kind, ticket.first))
}

/// The ticket after the events.
pub(crate) fn after_events(events: &[Event], ticket: &Ticket) -> Ticket
    ensures { result ≡ ticket_after (events_of events.now) ticket.now }
{
    let later = outcome_of(events, ticket.kind, ticket.first);
    Ticket {
        outcome: first_of(ticket.outcome, later),
        ..*ticket
    }
}
