//! The tickets that wait, in order, and what becomes of them.
ghost use Rattle.std.specs.Prelude.{◌≡◌, ◌≤◌, map, slice_get, vec_len, IfOk};
ghost use Rattle.std.specs.Vec.{vec_capacity};
ghost use Rattle.up_asks.specs.Asking.{all_detached, events_of, fixed_among, ticket_after};
ghost use Rattle.up_asks.specs.Keeps.{waiting_among, waits, is_fixed, still_waiting, fixed_of, tickets_after, put_after};

use crate::event::{Event, after_events, first_of, fixes_ticket, is_waiting};
use crate::ticket::Ticket;
use std::alloc::Global;
use up_num::{Memory, Outcome, Woken};

/// The ticket of this number waits.
fn is_held_up(tickets: &Vec<Ticket>, number: u64) -> bool
    ensures { result ≡ waits (slice_get tickets.now.items number) }
{
    let place = number as usize;
    place < tickets.len() && is_waiting(tickets[place].outcome)
}

/// The events fix the ticket of this number.
fn is_fixed_by(tickets: &Vec<Ticket>, events: &[Event], number: u64) -> bool
    ensures { result ≡ is_fixed (events_of events.now) (slice_get tickets.now.items number) }
{
    let place = number as usize;
    place < tickets.len() && fixes_ticket(events, &tickets[place])
}

/// Those of the numbers whose tickets the events fix.
fn fixed_tickets(
    alloc: Global,
    tickets: &Vec<Ticket>,
    waiting: &Vec<u64>,
    events: &[Event],
) -> Result<Woken, Memory>
    ensures { IfOk result (λ woken. woken ≡ fixed_of (events_of events.now) tickets.now.items waiting.now.items) }
{
    let mut woken = Woken::new(alloc);
    for place in 0..waiting.len() {
        let number = waiting[place];
        if is_fixed_by(tickets, events, number) {
            woken.push(number).map_err(|failed| failed.0)?;
        }
    }
    Ok(woken)
}

/// The tickets that the events fix, where those that wait are given.
#[tactic(auto, using(crate::proofs::Events::fixed_all))]
pub(crate) fn woken_by(
    alloc: Global,
    tickets: &Vec<Ticket>,
    waiting: &Vec<u64>,
    events: &[Event],
) -> Result<Woken, Memory>
    requires { waiting.now.items ≡ waiting_among tickets.now.items 0 }
    ensures { IfOk result (λ woken. woken ≡ fixed_among (events_of events.now) tickets.now.items 0) }
{
    let woken = fixed_tickets(alloc, tickets, waiting, events)?;
    Ok(woken)
}

/// All tickets that wait.
#[tactic(auto, using(crate::proofs::Events::detached_all))]
pub(crate) fn all_waiting(
    alloc: Global,
    tickets: &Vec<Ticket>,
    waiting: &Vec<u64>,
) -> Result<Woken, Memory>
    requires { waiting.now.items ≡ waiting_among tickets.now.items 0 }
    ensures { IfOk result (λ woken. woken ≡ fixed_among all_detached tickets.now.items 0) }
{
    let woken = Woken::from_slice(alloc, waiting.as_slice())?;
    Ok(woken)
}

/// Lets the events happen to the ticket of this number.
fn settle_one(tickets: &mut Vec<Ticket>, events: &[Event], number: u64)
    ensures items { tickets.new.items ≡ put_after (events_of events.now) tickets.old.items number (slice_get tickets.old.items number) }
    ensures len { vec_len tickets.new ≡ vec_len tickets.old }
    ensures room { vec_capacity tickets.new ≡ vec_capacity tickets.old }
{
    let place = number as usize;
    if place < tickets.len() {
        let after = after_events(events, &tickets[place]);
        tickets[place] = after;
    }
}

/// Lets the events happen to the tickets of these numbers.
fn settle_all(tickets: &mut Vec<Ticket>, waiting: &Vec<u64>, events: &[Event])
    ensures items { tickets.new.items ≡ tickets_after (events_of events.now) tickets.old.items waiting.now.items }
    ensures len { vec_len tickets.new ≡ vec_len tickets.old }
    ensures room { vec_capacity tickets.new ≡ vec_capacity tickets.old }
{
    for place in 0..waiting.len() {
        settle_one(tickets, events, waiting[place]);
    }
}

/// Drops the numbers whose tickets don't wait any more.
fn keep_waiting(waiting: &mut Vec<u64>, tickets: &Vec<Ticket>)
    ensures items { waiting.new.items ≡ still_waiting tickets.now.items waiting.old.items }
    ensures len { vec_len waiting.new ≤ vec_len waiting.old }
    ensures room { vec_capacity waiting.new ≡ vec_capacity waiting.old }
{
    let mut kept = 0;
    for place in 0..waiting.len() {
        let number = waiting[place];
        if is_held_up(tickets, number) {
            waiting[kept] = number;
            kept += 1;
        }
    }
    waiting.truncate(kept);
}

/// Lets the events happen to all tickets, where those that wait are given.
pub(crate) fn happen(tickets: &mut Vec<Ticket>, waiting: &mut Vec<u64>, events: &[Event])
    requires { waiting.old.items ≡ waiting_among tickets.old.items 0 }
    ensures tickets { tickets.new.items ≡ map (ticket_after (events_of events.now)) tickets.old.items }
    ensures waiting { waiting.new.items ≡ waiting_among tickets.new.items 0 }
    ensures len { vec_len tickets.new ≡ vec_len tickets.old }
    ensures fewer { vec_len waiting.new ≤ vec_len waiting.old }
    ensures room { vec_capacity tickets.new ≡ vec_capacity tickets.old }
    ensures waiting_room { vec_capacity waiting.new ≡ vec_capacity waiting.old }
{
    settle_all(tickets, waiting, events);
    keep_waiting(waiting, tickets);
}

/// Detaches the ticket of this number, where it waits.
fn detach_one(tickets: &mut Vec<Ticket>, number: u64)
    ensures items { tickets.new.items ≡ put_after all_detached tickets.old.items number (slice_get tickets.old.items number) }
    ensures len { vec_len tickets.new ≡ vec_len tickets.old }
    ensures room { vec_capacity tickets.new ≡ vec_capacity tickets.old }
{
    let place = number as usize;
    if place < tickets.len() {
        let outcome = first_of(tickets[place].outcome, Outcome::Detached);
        let after = Ticket {
            outcome,
            ..tickets[place]
        };
        tickets[place] = after;
    }
}

/// Detaches all tickets that wait, where these are given.
pub(crate) fn detach_all(tickets: &mut Vec<Ticket>, waiting: &mut Vec<u64>)
    requires { waiting.old.items ≡ waiting_among tickets.old.items 0 }
    ensures tickets { tickets.new.items ≡ map (ticket_after all_detached) tickets.old.items }
    ensures waiting { waiting.new.items ≡ waiting_among tickets.new.items 0 }
    ensures len { vec_len tickets.new ≡ vec_len tickets.old }
    ensures fewer { vec_len waiting.new ≤ vec_len waiting.old }
    ensures room { vec_capacity tickets.new ≡ vec_capacity tickets.old }
    ensures waiting_room { vec_capacity waiting.new ≡ vec_capacity waiting.old }
{
    for place in 0..waiting.len() {
        detach_one(tickets, waiting[place]);
    }
    waiting.truncate(0);
}
