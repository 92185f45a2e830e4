ghost use Rattle.std.specs.Prelude.{◌≡◌, ◌+◌, ◌<◌, ◌≤◌, ◌^◌, ◌&&◌, ◌||◌, None, cond, option_map, reverse};
ghost use Rattle.up_num.specs.declared.answers.Outcome.TheVariants.{Waiting as OutcomeWaiting};
ghost use Rattle.up_model.specs.declared.entry.Call.TheVariants.{Resize};
ghost use Rattle.up_model.specs.Asks as asking;
ghost use Rattle.up_model.specs.Attempts as attempting;
ghost use Rattle.up_model.specs.Deeds as deeds;
ghost use Rattle.up_model.specs.Pages as runs;
ghost use Rattle.up_model.specs.Size as sizing;
ghost use Rattle.up_model.specs.States as states;
ghost use Rattle.up_facts.specs.Seen.{access_in};

use crate::attempts::attempt;
use crate::deeds::covers;
use crate::facts::{has_page, is_dirty, is_emptied};
use crate::roles::detaches;
use crate::sizes::{accepts, size};
use std::marker::Model;
use up_model::{Birth, Call, Entry, Reply};
use up_num::{AskKind, Outcome};

/// What an access that waits asks of the pager.
#[derive(Clone, Copy)]
pub struct Ask {
    pub kind: AskKind,
    pub first: u64,
    pub count: u64,
}

impl Model for Ask {
    ghost use Rattle.std.specs.Prelude.{◌+◌, ◌^◌, ◌<◌};
    ghost use Rattle.up_model.specs.Asks as asking;

    ghost Value = { asking.Ask };

    ghost view = { λ ask. record { kind = ask.kind; first = ask.first; count = ask.count } };

    ghost invariant = { λ ask. (ask.first < 2 ^ 52) × (0 < ask.count → ask.first + ask.count < 2 ^ 32) };

    ghost inverse = { λ ask. record { kind = ask.kind; first = ask.first; count = ask.count } };
}

/// The reply parks an access.
pub fn is_blocked(reply: &Reply) -> bool
    ensures { result ≡ attempting.is_blocked reply.now }
{
    matches!(reply, Reply::Blocked(_))
}

/// Nothing was resolved.
pub fn is_waiting(outcome: Outcome) -> bool
    ensures { result ≡ asking.is_waiting outcome }
{
    matches!(outcome, Outcome::Waiting)
}

fn is_same_kind(one: AskKind, other: AskKind) -> bool
    ensures { result ≡ asking.same_kind one other }
{
    match (one, other) {
        (AskKind::Read, AskKind::Read) => true,
        (AskKind::Dirty, AskKind::Dirty) => true,
        _ => false,
    }
}

fn lacks(birth: &Birth, before: &[Entry], kind: AskKind, page: u64) -> bool
    requires { page < 2 ^ 52 }
    ensures { result ≡ asking.lacks birth.now (reverse before.now) kind page }
{
    match kind {
        AskKind::Read => !has_page(birth, before, page),
        AskKind::Dirty => has_page(birth, before, page) && !is_dirty(birth, before, page),
    }
}

/// How many of these pages, from the first on, lack what the kind asks for.
#[tactic(auto, using(crate::proofs::Places::run_step, crate::proofs::Places::run_none))]
fn lacking_run(birth: &Birth, before: &[Entry], kind: AskKind, first: u64, count: u64) -> u64
    requires { first + count < 2 ^ 52 }
    ensures same { result ≡ runs.run_of (asking.lacks birth.now (reverse before.now) kind) first count }
    ensures within { result ≤ count }
{
    for place in 0..count {
        if !lacks(birth, before, kind, first + place) {
            return place;
        }
    }
    count
}

/// What an access at this offset, which ends in this page, asks for.
fn want(birth: &Birth, before: &[Entry], off: u64, last: u32) -> Ask
    ensures { result ≡ asking.want birth.now (reverse before.now) (record { off = off; len = 0; last = last; bytes = None }) }
{
    let first = off / 4096;
    let kind = if has_page(birth, before, first) {
        AskKind::Dirty
    } else {
        AskKind::Read
    };
    let end = u64::from(last) + 1;
    let pages = u64::from(size(birth, before));
    let end = end.min(pages);
    let most = end.saturating_sub(first);
    let count = lacking_run(birth, before, kind, first, most);
    Ask { kind, first, count }
}

/// What an entry asks for.
pub fn wanted(birth: &Birth, before: &[Entry], entry: &Entry) -> Option<Ask>
    ensures { result ≡ asking.wanted birth.now (reverse before.now) entry.now }
{
    if is_blocked(&entry.reply) {
        wanted_by(birth, before, attempt(before, &entry.call))
    } else {
        None
    }
}

/// What an access asks for that must wait.
pub fn wanted_by(birth: &Birth, before: &[Entry], access: Option<&Call>) -> Option<Ask>
    ensures { result ≡ option_map (asking.want birth.now (reverse before.now)) (access_in access.entry) }
{
    match access {
        Some(call) => wanted_of(birth, before, call),
        None => None,
    }
}

/// What a read or write asks for.
fn wanted_of(birth: &Birth, before: &[Entry], call: &Call) -> Option<Ask>
    ensures { result ≡ option_map (asking.want birth.now (reverse before.now)) (attempting.attempt_of (λ ticket. None) call.now) }
{
    match call {
        Call::Read { piece, last, .. } => Some(want(birth, before, piece.off, last.0)),
        Call::Write { off, last, .. } => Some(want(birth, before, *off, last.0)),
        _ => None,
    }
}

fn asks(ask: &Option<Ask>, kind: AskKind, page: u64) -> bool
    ensures { result ≡ asking.asks ask.now kind page }
{
    match ask {
        Some(ask) => {
            is_same_kind(ask.kind, kind) && ask.first <= page && page < ask.first + ask.count
        }
        None => false,
    }
}

/// The outcome where the test holds.
fn where_so(test: bool, outcome: Outcome) -> Outcome
    ensures { result ≡ cond test outcome OutcomeWaiting }
{
    if test { outcome } else { Outcome::Waiting }
}

/// What an accepted call makes of those who wait for a page with a kind.
pub fn resolves(birth: &Birth, before: &[Entry], call: &Call, kind: AskKind, page: u64) -> Outcome
    requires { page < 2 ^ 52 }
    ensures { result ≡ asking.resolves birth.now (reverse before.now) call.now kind page }
{
    match call {
        Call::Zero { range } => where_so(covers(range, page), Outcome::Freed),
        Call::Fail { range, code } => where_so(covers(range, page), Outcome::Failed(*code)),
        Call::Resize { pages } => where_so(is_cut(birth, before, *pages, page), Outcome::Shrunk),
        Call::Detach => where_so(detaches(birth, before, call), Outcome::Detached),
        Call::Leave { .. } => where_so(detaches(birth, before, call), Outcome::Detached),
        _ => match kind {
            AskKind::Read => where_so(frees_readers(call, page), Outcome::Freed),
            AskKind::Dirty => where_so(lets_dirty(birth, before, call, page), Outcome::Freed),
        },
    }
}

/// The resize asks for fewer pages than there are, and this one is among those that go.
fn is_cut(birth: &Birth, before: &[Entry], pages: u32, page: u64) -> bool
    ensures { result ≡ sizing.asks_to_cut (Resize pages) (sizing.size birth.now (reverse before.now)) page }
{
    page < u64::from(size(birth, before)) && u64::from(pages) <= page
}

fn frees_readers(call: &Call, page: u64) -> bool
    ensures { result ≡ deeds.over_supply call.now page }
{
    match call {
        Call::Supply { range, .. } => covers(range, page),
        _ => false,
    }
}

/// The call frees those who wait to make the page dirty.
fn lets_dirty(birth: &Birth, before: &[Entry], call: &Call, page: u64) -> bool
    requires { page < 2 ^ 52 }
    ensures { result ≡ (deeds.over_dirty call.now page
        || deeds.over_end call.now page && states.empty_at_end birth.now (reverse before.now) (deeds.named birth.now call.now) page) }
{
    match call {
        Call::Dirty { range, .. } => covers(range, page),
        Call::End { range, of } => covers(range, page) && is_emptied(birth, before, of, page),
        _ => false,
    }
}

/// What an entry makes of those who wait for a page with a kind.
pub fn resolved(birth: &Birth, before: &[Entry], entry: &Entry, kind: AskKind, page: u64) -> Outcome
    requires { page < 2 ^ 52 }
    ensures { result ≡ asking.resolved birth.now (reverse before.now) entry.now kind page }
{
    if accepts(&entry.reply) {
        resolves(birth, before, &entry.call, kind, page)
    } else {
        Outcome::Waiting
    }
}

/// The page is asked for with this kind: the last entry that asks for it or resolves it asks.
pub fn asked(birth: &Birth, before: &[Entry], kind: AskKind, page: u64) -> bool
    requires { page < 2 ^ 52 }
    ensures { result ≡ asking.asked birth.now (reverse before.now) kind page }
{
    for place in (0..before.len()).rev() {
        let earlier = &before[..place];
        let entry = &before[place];
        if !is_waiting(resolved(birth, earlier, entry, kind, page)) {
            return false;
        }
        if asks(&wanted(birth, earlier, entry), kind, page) {
            return true;
        }
    }
    false
}
