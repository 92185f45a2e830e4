ghost use Rattle.std.specs.Prelude.{◌≡◌, [], ◌∷◌, ◌++◌, cond, reverse, IfOk, OnOk};
ghost use Rattle.up_model.specs.Asks as asking;
ghost use Rattle.up_model.specs.Tickets as ticketing;

use std::alloc::Global;
use up_facts::{Ask, attempt, blocks, is_blocked, is_waiting, resolved, resolves, wanted_by};
use up_model::{Birth, Call, Entry};
use up_num::{Memory, Outcome, Woken};

/// The number of the next ticket.
pub(crate) fn next_ticket(before: &[Entry]) -> u64
    ensures { result ≡ ticketing.next_ticket (reverse before.now) }
{
    let mut count = 0;
    for place in 0..before.len() {
        if is_blocked(&before[place].reply) {
            count += 1;
        }
    }
    count
}

/// What an entry makes of an ask.
fn resolved_for(birth: &Birth, before: &[Entry], entry: &Entry, ask: &Option<Ask>) -> Outcome
    ensures { result ≡ ticketing.resolved_for (asking.resolved birth.now (reverse before.now) entry.now) ask.now }
{
    match ask {
        Some(ask) => resolved(birth, before, entry, ask.kind, ask.first),
        None => Outcome::Waiting,
    }
}

/// What an accepted call makes of an ask.
fn resolves_for(birth: &Birth, before: &[Entry], call: &Call, ask: &Option<Ask>) -> Outcome
    ensures { result ≡ ticketing.resolved_for (asking.resolves birth.now (reverse before.now) call.now) ask.now }
{
    match ask {
        Some(ask) => resolves(birth, before, call, ask.kind, ask.first),
        None => Outcome::Waiting,
    }
}

/// What the access under a ticket asked for when it parked.
fn waits(birth: &Birth, before: &[Entry], ticket: u64) -> Option<Ask>
    ensures { result ≡ ticketing.waits birth.now (reverse before.now) ticket }
{
    for place in (0..before.len()).rev() {
        let entry = &before[place];
        if blocks(&entry.reply, ticket) {
            let earlier = &before[..place];
            return wanted_by(birth, earlier, attempt(earlier, &entry.call));
        }
    }
    None
}

/// What the access under a ticket asked for, after one entry more.
fn waits_after(
    birth: &Birth,
    before: &[Entry],
    entry: &Entry,
    ticket: u64,
    so_far: Option<Ask>,
) -> Option<Ask>
    requires { so_far ≡ ticketing.waits birth.now (reverse before.now) ticket }
    ensures { result ≡ ticketing.waits birth.now (entry.now ∷ reverse before.now) ticket }
{
    if blocks(&entry.reply, ticket) {
        wanted_by(birth, before, attempt(before, &entry.call))
    } else {
        so_far
    }
}

/// What has become of a ticket.
pub(crate) fn outcome(birth: &Birth, before: &[Entry], ticket: u64) -> Outcome
    ensures { result ≡ ticketing.outcome birth.now (reverse before.now) ticket }
{
    let mut so_far = Outcome::Waiting;
    let mut ask = None;
    for place in 0..before.len() {
        let earlier = &before[..place];
        let entry = &before[place];
        so_far = outcome_after(birth, earlier, entry, &ask, so_far);
        ask = waits_after(birth, earlier, entry, ticket, ask);
    }
    so_far
}

/// What has become of a ticket after one entry more, by what it asked for.
fn outcome_after(
    birth: &Birth,
    before: &[Entry],
    entry: &Entry,
    ask: &Option<Ask>,
    so_far: Outcome,
) -> Outcome
    ensures { result ≡ ticketing.then_outcome so_far (ticketing.resolved_for (asking.resolved birth.now (reverse before.now) entry.now) ask.now) }
{
    if is_waiting(so_far) {
        resolved_for(birth, before, entry, ask)
    } else {
        so_far
    }
}

/// The call, where it is accepted, wakes the ticket.
fn wakes(birth: &Birth, before: &[Entry], call: &Call, ticket: u64) -> bool
    ensures { result ≡ ticketing.wakes birth.now (reverse before.now) call.now ticket }
{
    is_waiting(outcome(birth, before, ticket))
        && !is_waiting(resolves_for(birth, before, call, &waits(birth, before, ticket)))
}

/// Appends the ticket where the test holds.
fn put_where(woke: &mut Woken, test: bool, ticket: u64) -> Result<(), Memory>
    ensures { OnOk result (woke.new ≡ cond test (woke.old ++ ticket ∷ []) woke.old) }
{
    if test {
        woke.push(ticket).map_err(|failed| failed.0)?;
    }
    Ok(())
}

/// All tickets that the call wakes, where it is accepted.
#[tactic(auto, using(crate::proofs::PageRuns::woken_step))]
pub(crate) fn woken(
    alloc: Global,
    birth: &Birth,
    before: &[Entry],
    call: &Call,
) -> Result<Woken, Memory>
    ensures { IfOk result (λ woke. woke ≡ ticketing.woken birth.now (reverse before.now) call.now) }
{
    let mut woke = Woken::new(alloc);
    for ticket in 0..next_ticket(before) {
        let wakes = wakes(birth, before, call, ticket);
        put_where(&mut woke, wakes, ticket)?;
    }
    Ok(woke)
}
