//! Changes of those who wait in the middle of a call: an access parks, events happen, a packet is taken, all are detached, a ticket
//! is spent.
ghost use Rattle.std.specs.Prelude.{◌≡◌, ◌≤◌, ◌<◌, not, true, false, length, is_some, Some};
ghost use Rattle.up_span.specs.Runs.{runs};
ghost use Rattle.up_asks.specs.Asking.{events_of};
ghost use Rattle.up_asks.specs.Keeps.{AllFixed};
ghost use Rattle.up_model.specs.Attempts.{parked};
ghost use Rattle.up_model.specs.Asks.{asked};
ghost use Rattle.up_model.specs.Tickets as tickets;
ghost use Rattle.up_model.specs.Changes.{Parks, Happens, TakesPacket, Detaches, Spends};
ghost use Rattle.up_object.specs.Asks.{access_of};

use crate::changing::Changing;
use up_asks::{Event, Waiter};
use up_num::{AskKind, PageRange};
use up_span::Runs;

impl Changing {
    /// Parks the call's access, which asks for these pages: a packet is sent for each of `parts`, those that aren't asked for already.
    pub fn park(&mut self, who: u32, kind: AskKind, range: PageRange, parts: &Runs, piece: Waiter)
        requires first { self.old.done.asks ≡ false }
        requires ticket { 0 < self.old.room.tickets }
        requires packets { length parts.now ≤ self.old.room.packets }
        requires change { 0 < self.old.room.changes }
        requires fresh { parts.now ≡ runs (λ p. not (asked self.old.birth self.old.journal kind p)) range.first 0 range.count }
        requires by { self.old.entry.who ≡ who }
        requires parks { Parks self.old.birth self.old.entry self.old.journal (access_of piece) (record { kind = kind; first = range.first; count = range.count }) }
        ensures { self.new ≡ record self.old { done = record self.old.done { asks = true }; room = self.new.room } }
    {
        self.asks.park(who, kind, &range, parts, piece);
        self.asks_done = true;
    }

    /// Lets the events of an accepted call happen to those who wait. It takes no memory.
    pub fn resolve(&mut self, events: &[Event])
        requires first { self.old.done.asks ≡ false }
        requires fixed { AllFixed events.now }
        requires room { length events.now ≤ self.old.room.changes }
        requires happens { Happens self.old.birth self.old.entry self.old.journal (events_of events.now) }
        ensures { self.new ≡ record self.old { done = record self.old.done { asks = true }; room = self.new.room } }
    {
        self.asks.settle(events);
        self.asks_done = true;
    }

    /// Takes the next packet. It takes no memory.
    pub fn take_packet(&mut self)
        requires first { self.old.done.asks ≡ false }
        requires takes { TakesPacket self.old.birth self.old.entry self.old.journal }
        ensures { self.new ≡ record self.old { done = record self.old.done { asks = true }; room = self.new.room } }
    {
        let _packet = self.asks.packet();
        self.asks_done = true;
    }

    /// Detaches all who wait, and sends the last packet. It takes no memory.
    pub fn detach(&mut self)
        requires first { self.old.done.asks ≡ false }
        requires detaches { Detaches self.old.birth self.old.entry self.old.journal }
        ensures { self.new ≡ record self.old { done = record self.old.done { asks = true }; room = self.new.room } }
    {
        let _woken = self.asks.close();
        self.asks_done = true;
    }

    /// Spends the ticket that the call retries, and hands out the access that waited under it. It comes before the access parks anew.
    pub fn spend(&mut self, ticket: u64) -> Waiter
        requires first { self.old.done.spent ≡ false }
        requires early { self.old.done.asks ≡ false }
        requires held { (is_some (tickets.owner self.old.journal ticket) ≡ true) × (tickets.spent self.old.journal ticket ≡ false) }
        requires spends { Spends self.old.entry self.old.journal ticket }
        ensures access { parked self.old.journal ticket ≡ Some (access_of result) }
        ensures new { self.new ≡ record self.old { done = record self.old.done { spent = true } } }
    {
        let waiter = self.asks.spend(ticket);
        self.spent_done = true;
        waiter
    }
}
