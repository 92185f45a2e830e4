//! What a call reads of asked pages, packets and tickets before it changes anything.
ghost use Rattle.std.specs.Prelude.{◌≡◌, ℕ, ◌<◌, ◌^◌, not, true, false, length, is_some, slice_get, Some, IfOk};
ghost use Rattle.up_num.specs.declared.answers.AskKind.{AskKind as AskKindValue};
ghost use Rattle.up_num.specs.declared.answers.Outcome.TheVariants.{Detached};
ghost use Rattle.up_span.specs.Runs.{runs};
ghost use Rattle.up_asks.specs.Asking.{events_of};
ghost use Rattle.up_model.specs.declared.entry.Call.{Call as CallValue};
ghost use Rattle.up_model.specs.Attempts.{parked};
ghost use Rattle.up_model.specs.Asks as asking;
ghost use Rattle.up_model.specs.Packets as packets;
ghost use Rattle.up_model.specs.Tickets as tickets;
ghost use Rattle.up_model.specs.Reply.{within_page};
ghost use Rattle.up_object.specs.Asks.{AsksStand, access_of};

use crate::object::Object;
use std::alloc::Global;
use up_asks::{Asks, Event, Waiter};
use up_num::{AskKind, Memory, Outcome, Packet, PageNo, PageRange, Woken};
use up_span::Runs;

impl Object {
    /// Whether a page is asked for with a kind.
    pub fn asked(&self, kind: AskKind, page: PageNo) -> bool
        ensures { result ≡ asking.asked self.now.birth self.now.journal kind page.0 }
    {
        self.asks.asked(kind, page)
    }

    /// The number of the next ticket.
    pub fn next_ticket(&self) -> u64
        ensures { result ≡ tickets.next_ticket self.now.journal }
    {
        self.asks.count()
    }

    /// What has become of a ticket that somebody holds.
    pub fn outcome(&self, ticket: u64) -> Outcome
        requires held { (is_some (tickets.owner self.now.journal ticket) ≡ true) × (tickets.spent self.now.journal ticket ≡ false) }
        ensures { result ≡ tickets.outcome self.now.birth self.now.journal ticket }
    {
        self.asks.outcome(ticket)
    }

    /// The access that waits under a ticket that somebody holds.
    pub fn waiter(&self, ticket: u64) -> &Waiter
        requires held { (is_some (tickets.owner self.now.journal ticket) ≡ true) × (tickets.spent self.now.journal ticket ≡ false) }
        ensures access { parked self.now.journal ticket ≡ Some (access_of result.now) }
        ensures within { within_page result.now.off result.now.len ≡ true }
        ensures whole { result.now.write ≡ true → length result.now.bytes ≡ result.now.len }
    {
        self.asks.waiter(ticket)
    }

    /// The next packet that no pager has taken.
    pub fn next_packet(&self) -> Option<Packet>
        ensures { result ≡ slice_get (packets.sent self.now.birth self.now.journal) (packets.taken self.now.journal) }
    {
        self.asks.next_packet()
    }

    /// What an ask for these pages would send: the maximal runs of those that aren't asked for already.
    pub fn fresh(&self, alloc: Global, kind: AskKind, range: &PageRange) -> Result<Runs, Memory>
        ensures parts { IfOk result (λ parts. parts ≡ runs (λ p. not (asking.asked self.now.birth self.now.journal kind p)) range.now.first 0 range.now.count) }
        ensures few { IfOk result (λ parts. length parts < 2 ^ 32) }
    {
        self.asks.fresh(alloc, kind, range)
    }

    /// The tickets that a call with these events wakes, rising.
    pub fn waking(&self, alloc: Global, events: &[Event]) -> Result<Woken, Memory>
        ensures { IfOk result (λ woke. (call : CallValue)
            → ((kind : AskKindValue) (page : ℕ) → asking.resolves self.now.birth self.now.journal call kind page ≡ events_of events.now kind page)
            → woke ≡ tickets.woken self.now.birth self.now.journal call) }
    {
        self.asks.waking(alloc, events)
    }

    /// The tickets that a call which detaches the object wakes, rising: all that wait.
    pub fn all_waiting(&self, alloc: Global) -> Result<Woken, Memory>
        ensures { IfOk result (λ woke. (call : CallValue)
            → ((kind : AskKindValue) (page : ℕ) → asking.resolves self.now.birth self.now.journal call kind page ≡ Detached)
            → woke ≡ tickets.woken self.now.birth self.now.journal call) }
    {
        self.asks.waiting(alloc)
    }

    /// How many tickets a call which detaches the object wakes. It takes no memory.
    pub fn count_waiting(&self) -> u64
        ensures { (call : CallValue)
            → ((kind : AskKindValue) (page : ℕ) → asking.resolves self.now.birth self.now.journal call kind page ≡ Detached)
            → result ≡ length (tickets.woken self.now.birth self.now.journal call) }
    {
        self.asks.count_waiting()
    }

    /// The asks, packets and tickets of the object.
    pub fn asks(&self) -> &Asks
        ensures { AsksStand result.now self.now.birth self.now.journal }
    {
        &self.asks
    }
}
