ghost use Rattle.std.specs.Prelude.{◌≡◌, ℕ, ◌+◌, ◌-◌, ◌<◌, ◌≤◌, ◌^◌, ◌&&◌, ◌||◌, [], ◌∷◌, ◌++◌, false, true, cond, length, map, Some, None, is_some, slice_get, slice_set, IfOk, IfErr, OnOk, OnErr};
ghost use Rattle.up_num.specs.Asks as asking;
ghost use Rattle.up_num.specs.declared.answers.AskKind.{AskKind as AskKindValue};
ghost use Rattle.up_num.specs.declared.answers.Packet.TheVariants.{Complete};
ghost use Rattle.up_span.specs.Pages.{within};
ghost use Rattle.up_span.specs.Sets.{holds};
ghost use Rattle.up_asks.specs.Asking.{Asking, all_detached, pages_of, asked_in, fresh, packets_for, new_ticket, events_of, ticket_after, fixed_among, holder_in, HasRoom, SameAsks, SameButTickets};
ghost use Rattle.up_asks.specs.Keeps.{AllFixed};
ghost use Rattle.up_asks.specs.declared.ticket.Ticket.{Ticket as TicketValue};

use crate::event::{Event, pages_in, start_of};
use crate::pages::Pages;
use crate::sending::send;
use crate::ticket::{Ticket, Waiter};
use crate::waiting::{all_waiting, detach_all, happen, woken_by};
use std::alloc::Global;
use std::marker::Model;
use up_num::{AskKind, Memory, Outcome, Packet, PageNo, PageRange, Woken};
use up_span::Runs;

/// The pages asked of a pager, the packets sent to it, and the tickets of those who wait.
#[derive(Debug, Drop)]
pub struct Asks {
    pages: Pages,
    packets: Vec<Packet>,
    taken: usize,
    closed: bool,
    tickets: Vec<Ticket>,
    waiters: Vec<Option<Waiter>>,
    /// The numbers of the tickets that wait, rising.
    waiting: Vec<u64>,
    packet_room: usize,
    ticket_room: usize,
}

impl Model for Asks {
    ghost use Rattle.up_asks.specs.Asking.{Asking};
    ghost use Rattle.up_asks.specs.Standing.{AsksStand};

    ghost Value = { Asking };

    ghost view = { λ a. record {
      pages = a.pages;
      packets = a.packets.items;
      taken = a.taken;
      closed = a.closed;
      tickets = a.tickets.items;
      waiters = a.waiters.items;
      packet_room = a.packet_room;
      ticket_room = a.ticket_room;
    } };

    ghost invariant = { AsksStand };
}

impl Asks {
    /// Nothing asked, nobody waiting.
    pub fn new(alloc: Global) -> Result<Self, Memory>
        ensures asked { IfOk result (λ made. (kind : AskKindValue) (page : ℕ) → asked_in made kind page ≡ false) }
        ensures packets { IfOk result (λ made. (made.packets ≡ []) × ((made.taken ≡ 0) × (made.closed ≡ false))) }
        ensures tickets { IfOk result (λ made. (made.tickets ≡ []) × (made.waiters ≡ [])) }
    {
        let mut packets = Vec::new(alloc);
        packets.reserve(1)?;
        Ok(Asks {
            pages: Pages::new(alloc),
            packets,
            taken: 0,
            closed: false,
            tickets: Vec::new(alloc),
            waiters: Vec::new(alloc),
            waiting: Vec::new(alloc),
            packet_room: 0,
            ticket_room: 0,
        })
    }

    /// Makes room for one ticket, so many packets, and so many changes of each kind's pages: what then happens in it
    /// takes no memory.
    pub fn reserve(&mut self, packets: u32, changes: usize) -> Result<(), Memory>
        ensures same { SameAsks self.old self.new }
        ensures packets { OnOk result (packets ≤ self.new.packet_room) }
        ensures ticket { OnOk result (0 < self.new.ticket_room) }
        ensures changes { OnOk result ((kind : AskKindValue) → changes ≤ (pages_of self.new.pages kind).room) }
        ensures more { HasRoom self.old self.new 0 0 0 }
    {
        self.pages.reserve(changes)?;
        self.reserve_packets(packets)?;
        self.reserve_ticket()
    }

    fn reserve_packets(&mut self, packets: u32) -> Result<(), Memory>
        ensures same { self.new ≡ record self.old { packet_room = self.new.packet_room } }
        ensures ok { OnOk result (packets ≤ self.new.packet_room) }
        ensures more { self.old.packet_room ≤ self.new.packet_room }
    {
        let wanted = packets as usize;
        if wanted <= self.packet_room {
            return Ok(());
        }
        self.packets.reserve(wanted + 1)?;
        self.packet_room = wanted;
        Ok(())
    }

    fn reserve_ticket(&mut self) -> Result<(), Memory>
        ensures same { self.new ≡ record self.old { ticket_room = self.new.ticket_room } }
        ensures ok { OnOk result (0 < self.new.ticket_room) }
        ensures more { self.old.ticket_room ≤ self.new.ticket_room }
    {
        if self.ticket_room > 0 {
            return Ok(());
        }
        self.tickets.reserve(1)?;
        self.waiters.reserve(1)?;
        self.waiting.reserve(1)?;
        self.ticket_room = 1;
        Ok(())
    }

    /// What an ask for these pages would send: a packet for each run.
    #[tactic(auto, using(crate::proofs::Sends::runs_are_few))]
    pub fn fresh(&self, alloc: Global, kind: AskKind, range: &PageRange) -> Result<Runs, Memory>
        ensures parts { IfOk result (λ parts. parts ≡ fresh self.now kind range.now.first range.now.count) }
        ensures few { IfOk result (λ parts. length parts < 2 ^ 32) }
    {
        let first = start_of(range);
        let count = pages_in(range);
        let parts = self.pages.missing(alloc, kind, first, count)?;
        Ok(parts)
    }

    /// Parks an access: gives it a ticket, and sends the packets that ask for what isn't asked for already. It answers the
    /// ticket and how many packets were sent. After want of memory the access comes back. Once the set is closed nobody
    /// can wait any more.
    pub fn ask(
        &mut self,
        alloc: Global,
        who: u32,
        kind: AskKind,
        range: PageRange,
        piece: Waiter,
    ) -> Result<(u64, u32), (Memory, Waiter)>
        requires open { self.old.closed ≡ false }
        ensures ticket { IfOk result (λ sent. sent.0 ≡ length self.old.tickets) }
        ensures packets { IfOk result (λ sent. sent.1 ≡ length (fresh self.old kind range.first range.count)) }
        ensures pages { OnOk result ((each : AskKindValue) (page : ℕ) → asked_in self.new each page
            ≡ (asking.same_kind kind each && within range.first range.count page || asked_in self.old each page)) }
        ensures rest { OnOk result (self.new ≡ record self.old {
          pages = self.new.pages;
          packets = self.old.packets ++ packets_for kind (fresh self.old kind range.first range.count);
          tickets = self.old.tickets ++ new_ticket who kind range.first range.count ∷ [];
          waiters = self.old.waiters ++ Some piece ∷ [];
          packet_room = self.new.packet_room;
          ticket_room = self.new.ticket_room;
        }) }
        ensures room { HasRoom self.old self.new (length (fresh self.old kind range.first range.count)) 1 1 }
        ensures err { OnErr result (SameAsks self.old self.new) }
        ensures back { IfErr result (λ failed. failed.1 ≡ piece) }
    {
        match self.prepare(alloc, kind, &range) {
            Ok(parts) => {
                let sent = parts.len() as u32;
                let ticket = self.park(who, kind, &range, &parts, piece);
                Ok((ticket, sent))
            }
            Err(memory) => Err((memory, piece)),
        }
    }

    /// What an ask for these pages would send, with room for it.
    fn prepare(&mut self, alloc: Global, kind: AskKind, range: &PageRange) -> Result<Runs, Memory>
        ensures same { SameAsks self.old self.new }
        ensures parts { IfOk result (λ parts. parts ≡ fresh self.old kind range.now.first range.now.count) }
        ensures few { IfOk result (λ parts. length parts < 2 ^ 32) }
        ensures packets { IfOk result (λ parts. length parts ≤ self.new.packet_room) }
        ensures ticket { OnOk result (0 < self.new.ticket_room) }
        ensures change { OnOk result ((each : AskKindValue) → 0 < (pages_of self.new.pages each).room) }
        ensures more { HasRoom self.old self.new 0 0 0 }
    {
        let parts = self.fresh(alloc, kind, range)?;
        self.reserve(parts.len() as u32, 1)?;
        Ok(parts)
    }

    /// Parks an access: gives it a ticket, and sends `parts`, what its ask would send. There is room for all of it.
    pub fn park(
        &mut self,
        who: u32,
        kind: AskKind,
        range: &PageRange,
        parts: &Runs,
        piece: Waiter,
    ) -> u64
        requires open { self.old.closed ≡ false }
        requires fresh { parts.now ≡ fresh self.old kind range.now.first range.now.count }
        requires ticket { 0 < self.old.ticket_room }
        requires packets { length parts.now ≤ self.old.packet_room }
        requires change { (each : AskKindValue) → 0 < (pages_of self.old.pages each).room }
        ensures number { result ≡ length self.old.tickets }
        ensures pages { (each : AskKindValue) (page : ℕ) → asked_in self.new each page
            ≡ (asking.same_kind kind each && within range.now.first range.now.count page || asked_in self.old each page) }
        ensures room { (each : AskKindValue) → (pages_of self.old.pages each).room ≤ (pages_of self.new.pages each).room + 1 }
        ensures rest { self.new ≡ record self.old {
          pages = self.new.pages;
          packets = self.old.packets ++ packets_for kind parts.now;
          tickets = self.old.tickets ++ new_ticket who kind range.now.first range.now.count ∷ [];
          waiters = self.old.waiters ++ Some piece ∷ [];
          packet_room = self.old.packet_room - length parts.now;
          ticket_room = self.old.ticket_room - 1;
        } }
    {
        let number = self.tickets.len() as u64;
        let first = start_of(range);
        let count = pages_in(range);
        send(&mut self.packets, kind, parts);
        self.packet_room -= parts.len();
        self.pages.add(kind, first, count);
        self.tickets.push_reserved(Ticket {
            who,
            kind,
            first,
            count,
            outcome: Outcome::Waiting,
        });
        self.waiters.push_reserved(Some(piece));
        self.waiting.push_reserved(number);
        self.ticket_room -= 1;
        number
    }

    /// How many packets weren't taken yet.
    pub fn untaken(&self) -> u64
        ensures { result ≡ length self.now.packets - self.now.taken }
    {
        (self.packets.len() - self.taken) as u64
    }

    /// The next packet, which stays.
    pub fn next_packet(&self) -> Option<Packet>
        ensures { result ≡ slice_get self.now.packets self.now.taken }
    {
        if self.taken == self.packets.len() {
            return None;
        }
        Some(self.packets[self.taken])
    }

    /// Takes the next packet.
    pub fn packet(&mut self) -> Option<Packet>
        ensures next { result ≡ slice_get self.old.packets self.old.taken }
        ensures new { self.new ≡ record self.old { taken = cond (is_some result) (self.old.taken + 1) self.old.taken } }
    {
        if self.taken == self.packets.len() {
            return None;
        }
        let packet = self.packets[self.taken];
        self.taken += 1;
        Some(packet)
    }

    pub fn asked(&self, kind: AskKind, page: PageNo) -> bool
        ensures { result ≡ asked_in self.now kind page.0 }
    {
        self.pages.holds(kind, page.0)
    }

    /// The tickets that the events would fix.
    pub fn waking(&self, alloc: Global, events: &[Event]) -> Result<Woken, Memory>
        ensures { IfOk result (λ woken. woken ≡ fixed_among (events_of events.now) self.now.tickets 0) }
    {
        woken_by(alloc, &self.tickets, &self.waiting, events)
    }

    /// Lets the events happen, one after another, in the room for as many changes.
    pub fn settle(&mut self, events: &[Event])
        requires fixed { AllFixed events.now }
        requires room { (kind : AskKindValue) → length events.now ≤ (pages_of self.old.pages kind).room }
        ensures pages { (kind : AskKindValue) (page : ℕ) → asked_in self.new kind page ≡ (asked_in self.old kind page && asking.is_waiting (events_of events.now kind page)) }
        ensures tickets { self.new ≡ record self.old { pages = self.new.pages; tickets = map (ticket_after (events_of events.now)) self.old.tickets } }
        ensures room { HasRoom self.old self.new 0 0 (length events.now) }
    {
        self.pages.take_all_out(events);
        happen(&mut self.tickets, &mut self.waiting, events);
    }

    /// Lets the events happen, one after another, and answers the tickets that they fix.
    pub fn resolve(&mut self, alloc: Global, events: &[Event]) -> Result<Woken, Memory>
        requires fixed { AllFixed events.now }
        ensures pages { OnOk result ((kind : AskKindValue) (page : ℕ) → asked_in self.new kind page ≡ (asked_in self.old kind page && asking.is_waiting (events_of events.now kind page))) }
        ensures tickets { OnOk result (SameButTickets self.old self.new (map (ticket_after (events_of events.now)) self.old.tickets)) }
        ensures woken { IfOk result (λ woken. woken ≡ fixed_among (events_of events.now) self.old.tickets 0) }
        ensures room { HasRoom self.old self.new 0 0 (length events.now) }
        ensures err { OnErr result (SameAsks self.old self.new) }
    {
        let woken = self.waking(alloc, events)?;
        self.pages.reserve(events.len())?;
        self.settle(events);
        Ok(woken)
    }

    /// All tickets that wait.
    pub fn waiting(&self, alloc: Global) -> Result<Woken, Memory>
        ensures { IfOk result (λ woken. woken ≡ fixed_among all_detached self.now.tickets 0) }
    {
        all_waiting(alloc, &self.tickets, &self.waiting)
    }

    /// Ends all asking: who waits is detached, no page is asked for any more, and `Complete` is sent, if it wasn't. It
    /// answers how many were waiting, and takes no memory.
    pub fn close(&mut self) -> u64
        ensures woken { result ≡ length (fixed_among all_detached self.old.tickets 0) }
        ensures pages { (kind : AskKindValue) (page : ℕ) → asked_in self.new kind page ≡ false }
        ensures rest { self.new ≡ record self.old {
          pages = self.new.pages;
          packets = cond self.old.closed self.old.packets (self.old.packets ++ Complete ∷ []);
          closed = true;
          tickets = map (ticket_after all_detached) self.old.tickets;
        } }
    {
        let woken = self.waiting.len() as u64;
        self.pages.clear();
        if !self.closed {
            self.packets.push_reserved(Packet::Complete);
            self.closed = true;
        }
        detach_all(&mut self.tickets, &mut self.waiting);
        woken
    }

    /// How many tickets wait.
    pub fn count_waiting(&self) -> u64
        ensures { result ≡ length (fixed_among all_detached self.now.tickets 0) }
    {
        self.waiting.len() as u64
    }

    /// How many tickets were given, which is the number of the next one.
    pub fn count(&self) -> u64
        ensures { result ≡ length self.now.tickets }
    {
        self.tickets.len() as u64
    }

    /// Who holds a ticket, if it was given and isn't spent.
    pub fn holder(&self, ticket: u64) -> Option<u32>
        ensures { result ≡ holder_in self.now ticket }
    {
        let place = ticket as usize;
        if place < self.tickets.len() && self.waiters[place].is_some() {
            Some(self.tickets[place].who)
        } else {
            None
        }
    }

    /// What has become of a ticket that somebody holds.
    pub fn outcome(&self, ticket: u64) -> Outcome
        requires held { is_some (holder_in self.now ticket) ≡ true }
        ensures { (given : TicketValue) → slice_get self.now.tickets ticket ≡ Some given → result ≡ given.outcome }
    {
        self.tickets[ticket as usize].outcome
    }

    /// The access that waits under a ticket that somebody holds.
    pub fn waiter(&self, ticket: u64) -> &Waiter
        requires held { is_some (holder_in self.now ticket) ≡ true }
        ensures { slice_get self.now.waiters ticket ≡ Some (Some result.now) }
    {
        match &self.waiters[ticket as usize] {
            Some(waiter) => waiter,
            None => unreachable!(),
        }
    }

    /// Spends a ticket that somebody holds, and hands out the access that waited under it.
    pub fn spend(&mut self, ticket: u64) -> Waiter
        requires held { is_some (holder_in self.old ticket) ≡ true }
        ensures waiter { slice_get self.old.waiters ticket ≡ Some (Some result) }
        ensures new { self.new ≡ record self.old { waiters = slice_set self.old.waiters ticket None } }
    {
        match self.waiters[ticket as usize].take() {
            Some(waiter) => waiter,
            None => unreachable!(),
        }
    }
}
