//! How many frames a call needs.
ghost use Rattle.std.specs.Prelude.{◌≡◌, ℕ, ◌+◌, ◌*◌, ◌^◌, ◌<◌, ◌≤◌, ◌&&◌, not, false, true, cond, is_some, nat_le, IsTrue};
ghost use Rattle.up_num.specs.declared.answers.Outcome.TheVariants.{Freed as FreedOutcome};
ghost use Rattle.up_model.specs.Attempts.{parked, page_of};
ghost use Rattle.up_model.specs.Size as sizes;
ghost use Rattle.up_model.specs.Value.{there};
ghost use Rattle.up_model.specs.States.{dirty};
ghost use Rattle.up_model.specs.Tickets as tickets;
ghost use Rattle.up_model.specs.Reply as replies;
ghost use Rattle.up_model.specs.Reply.{retry_reply};
ghost use Rattle.up_model.specs.declared.entry.Brought.TheVariants.{Nothing};
ghost use Rattle.up_model.specs.declared.entry.Call.TheVariants as calls;
ghost use Rattle.up_object.specs.Parts.{shown};
ghost use Rattle.up_core.specs.Enough.{frames_asked, needed};
ghost use Rattle.up_model.specs.Answered as answered;
ghost use Rattle.up_core.specs.Needs as needing;
ghost use Rattle.up_core.specs.Needs.{write_needs, dirty_look};

use up_model::Call;
use up_num::{Outcome, PageNo, PageRange, PageState};
use up_object::Object;
use up_pages::Look;

/// How many frames the call needs now: as many as it is told where it brings none. It takes no memory.
#[tactic(auto, using(crate::proofs::FramesNeeded::write_told, crate::proofs::FramesNeeded::needs_nothing, crate::proofs::FramesNeeded::write_some, crate::proofs::FramesNeeded::retry_held))]
pub fn needs(object: &Object, call: &Call) -> u32
    requires proper { (who : ℕ) × IsTrue (replies.proper object.now.birth object.now.journal who call.now) }
    ensures { result ≡ needed object.now.birth object.now.journal call.now }
{
    if !may_need(call) {
        return 0;
    }
    match call {
        Call::Write { off, bytes, .. } => needs_to_write(object, *off, bytes.len() as u64),
        Call::Retry { ticket, .. } => needs_to_retry(object, *ticket),
        Call::Dirty { range, .. } => needs_to_dirty(object, *range),
        Call::Pin { range, .. } => needs_to_pin(object, *range),
        Call::Borrow { page, .. } => needs_to_borrow(object, *page),
        Call::Vacate { .. } => needs_to_vacate(object),
        _ => unreachable!(),
    }
}

/// Whether a call may be told how many frames it needs.
fn may_need(call: &Call) -> bool
    ensures { result ≡ answered.may_need call.now }
{
    matches!(
        call,
        Call::Write { .. }
            | Call::Retry { .. }
            | Call::Dirty { .. }
            | Call::Pin { .. }
            | Call::Borrow { .. }
            | Call::Vacate { .. }
    )
}

/// A write of bytes in one page.
fn needs_to_write(object: &Object, off: u64, len: u64) -> u32
    requires some { 0 < len }
    ensures { result ≡ write_needs
        (nat_le (off + len) (4096 * sizes.size object.now.birth object.now.journal))
        (there object.now.birth object.now.journal (page_of off))
        (object.now.birth.trap && not (dirty object.now.birth object.now.journal (page_of off)))
        (replies.needs_own_frame object.now.birth object.now.journal (page_of off)) }
{
    let pages = object.size();
    if !ends_within(pages, off, len) {
        return 0;
    }
    let number = off / 4096;
    prove!(number < u64::from(pages));
    let page = PageNo(number as u32);
    if !object.has_page(page) {
        return 0;
    }
    if object.born().trap && !is_dirty(object, page) {
        return 0;
    }
    if object.needs_frame(page) {
        return 1;
    }
    0
}

/// Whether bytes end within so many pages.
fn ends_within(pages: u32, off: u64, len: u64) -> bool
    ensures { result ≡ nat_le (off + len) (4096 * pages) }
{
    match off.checked_add(len) {
        Some(end) => end <= 4096 * u64::from(pages),
        None => false,
    }
}

fn is_dirty_look(look: Look) -> bool
    ensures { result ≡ dirty_look (shown look) }
{
    match look {
        Look::Zero(PageState::Dirty) => true,
        Look::Held(PageState::Dirty, _) => true,
        _ => false,
    }
}

/// Whether a page is there and dirty.
#[tactic(auto, using(crate::proofs::FramesNeeded::dirty_is))]
fn is_dirty(object: &Object, page: PageNo) -> bool
    ensures { result ≡ dirty object.now.birth object.now.journal page.0 }
{
    is_dirty_look(object.look(page))
}

/// What waits under a ticket that somebody holds, where it is free to go on.
fn needs_to_retry(object: &Object, ticket: u64) -> u32
    requires held { (is_some (tickets.owner object.now.journal ticket) ≡ true) × (tickets.spent object.now.journal ticket ≡ false) }
    ensures { result ≡ frames_asked (retry_reply object.now.birth object.now.journal Nothing (tickets.outcome object.now.birth object.now.journal ticket) (parked object.now.journal ticket)) }
{
    match object.outcome(ticket) {
        Outcome::Freed => needs_of_freed(object, ticket),
        _ => 0,
    }
}

/// What waits and was freed.
#[tactic(auto, using(crate::proofs::FramesNeeded::freed_write, crate::proofs::FramesNeeded::freed_read, crate::proofs::FramesNeeded::some_bytes))]
fn needs_of_freed(object: &Object, ticket: u64) -> u32
    requires held { (is_some (tickets.owner object.now.journal ticket) ≡ true) × (tickets.spent object.now.journal ticket ≡ false) }
    ensures { result ≡ frames_asked (retry_reply object.now.birth object.now.journal Nothing FreedOutcome (parked object.now.journal ticket)) }
{
    let waiter = object.waiter(ticket);
    if waiter.write {
        needs_to_write(object, waiter.off, u64::from(waiter.len))
    } else {
        0
    }
}

fn needs_to_dirty(object: &Object, range: PageRange) -> u32
    ensures { result ≡ needed object.now.birth object.now.journal (calls.Dirty range Nothing) }
{
    if !object.has_range(range) || !object.born().trap || object.detached() {
        return 0;
    }
    match object.first_absent(range) {
        Some(_) => 0,
        None => object.count_loaned(range),
    }
}

fn needs_to_pin(object: &Object, range: PageRange) -> u32
    ensures { result ≡ needed object.now.birth object.now.journal (calls.Pin range Nothing) }
{
    if !object.has_range(range) || object.first_absent(range).is_some() {
        return 0;
    }
    match object.first_full(range) {
        Some(_) => 0,
        None => object.count_needing_frames(range),
    }
}

fn needs_to_borrow(object: &Object, page: PageNo) -> u32
    ensures { result ≡ needed object.now.birth object.now.journal (calls.Borrow page Nothing) }
{
    if object.size() <= page.0 || !object.has_page(page) || object.pins(page) != 0 {
        return 0;
    }
    u32::from(!object.is_unclean(page) && !object.is_loaned(page))
}

fn needs_to_vacate(object: &Object) -> u32
    ensures { result ≡ needed object.now.birth object.now.journal (calls.Vacate Nothing) }
{
    let mut found = 0;
    for page in 0..object.size() {
        found = one_more_where(found, is_firm(object, PageNo(page)));
    }
    found
}

/// One more where the test holds.
fn one_more_where(found: u32, test: bool) -> u32
    requires { found + 1 < 2 ^ 32 }
    ensures value { result ≡ cond test (found + 1) found }
    ensures few { result ≤ found + 1 }
{
    if test { found + 1 } else { found }
}

/// Whether a page has a loaned frame and can't be evicted.
fn is_firm(object: &Object, page: PageNo) -> bool
    ensures { result ≡ replies.loaned_firm object.now.birth object.now.journal page.0 }
{
    object.is_loaned(page) && !object.is_loose(page)
}
