ghost use Rattle.std.specs.Prelude.{◌≡◌, ◌==◌, ◌&&◌, ◌+◌, ◌*◌, ◌<◌, ◌^◌, [], Some, None, true, false, cond, length, map, max, not, nat_le, nat_lt, reverse, slice_get, take, IfOk, IsTrue};
ghost use Rattle.up_model.specs.Attempts as attempting;
ghost use Rattle.up_model.specs.Order as ordering;
ghost use Rattle.up_model.specs.Packets as sending;
ghost use Rattle.up_model.specs.Pages as pages;
ghost use Rattle.up_model.specs.Pins as pinning;
ghost use Rattle.up_model.specs.Reply as replies;
ghost use Rattle.up_model.specs.Roles as acting;
ghost use Rattle.up_model.specs.Size as sizing;
ghost use Rattle.up_facts.specs.Seen.{access_in};
ghost use Rattle.up_model.specs.States as states;
ghost use Rattle.up_model.specs.Tickets as ticketing;
ghost use Rattle.up_model.specs.Use as uses;

use crate::slow::numbers::{has_begun, next_number};
use crate::slow::order::order;
use crate::slow::packets::{sent, taken};
use crate::slow::ranges::{
    Test, count_pages, first_page, numbered, one_where, pages_where, unclean_runs,
};
use crate::slow::tickets::{next_ticket, outcome, woken};
use std::alloc::Global;
use up_facts::{
    bytes_from, detached, has_page, in_role, is_dirty, is_plain, is_unclean, loaned, newest_epoch,
    parked, pins, size,
};
use up_model::{Birth, Brought, Call, Entry, Reply, Role};
use up_num::{Items, Memory, Outcome, Packet, PageNo, PageRange, RangeSeq, Refusal};

/// The range ends within the object.
fn range_fits(birth: &Birth, before: &[Entry], range: &PageRange) -> bool
    ensures { result ≡ sizing.range_fits birth.now (reverse before.now) range.now }
{
    range.first + range.count <= size(birth, before)
}

/// So many bytes from an offset on end within the object.
fn bytes_fit(birth: &Birth, before: &[Entry], off: u64, len: u64) -> bool
    ensures same { result ≡ nat_le (off + len) (4096 * sizing.size birth.now (reverse before.now)) }
    ensures small { IsTrue result → off + len < 2 ^ 64 }
{
    let end = 4096 * u64::from(size(birth, before));
    len <= end && off <= end - len
}

/// The reply, where the call has the frames that it needs, so many now.
fn with_frames(count: u32, brought: &Brought, next: Reply) -> Reply
    ensures { result ≡ replies.with_frames count brought.now next }
{
    if count == 0 {
        return next;
    }
    match brought {
        Brought::Scanned => Reply::Refused(Refusal::NoFrames),
        Brought::Frames(brought) if *brought >= count => next,
        _ => Reply::Needs(count),
    }
}

/// An access that must wait.
fn must_wait(birth: &Birth, before: &[Entry]) -> Reply
    ensures { result ≡ replies.must_wait birth.now (reverse before.now) }
{
    if detached(birth, before) {
        Reply::Refused(Refusal::Detached)
    } else {
        Reply::Blocked(next_ticket(before))
    }
}

/// A read of so many bytes from an offset on.
fn read(alloc: Global, birth: &Birth, before: &[Entry], off: u64, len: u32) -> Result<Reply, Memory>
    ensures { IfOk result (λ r. r ≡ replies.access_reply birth.now (reverse before.now)
        (record { off = off; len = len; last = 0; bytes = None }) Brought.Nothing) }
{
    if !bytes_fit(birth, before, off, u64::from(len)) {
        return Ok(Reply::Refused(Refusal::Range));
    }
    if !has_page(birth, before, off / 4096) {
        return Ok(must_wait(birth, before));
    }
    Ok(Reply::Bytes(bytes_from(alloc, birth, before, off, len)?))
}

/// A write of so many bytes from an offset on.
fn write(birth: &Birth, before: &[Entry], off: u64, len: u64, brought: &Brought) -> Reply
    ensures { result ≡ replies.access_reply birth.now (reverse before.now)
        (record { off = off; len = len; last = 0; bytes = Some [] }) brought.now }
{
    let page = off / 4096;
    if !bytes_fit(birth, before, off, len) {
        return Reply::Refused(Refusal::Range);
    }
    if !has_page(birth, before, page) || (birth.trap && !is_dirty(birth, before, page)) {
        return must_wait(birth, before);
    }
    let count = one_where(is_plain(birth, before, page) || loaned(birth, before, page));
    with_frames(count, brought, Reply::Done)
}

/// A read or a write.
pub(crate) fn access(
    alloc: Global,
    birth: &Birth,
    before: &[Entry],
    call: &Call,
    brought: &Brought,
) -> Result<Reply, Memory>
    ensures { IfOk result (λ r. r ≡ replies.retry_reply birth.now (reverse before.now) brought.now Outcome.Freed
        (attempting.attempt_of (λ ticket. None) call.now)) }
{
    match call {
        Call::Read { piece, .. } => read(alloc, birth, before, piece.off, piece.len),
        Call::Write { off, bytes, .. } => {
            Ok(write(birth, before, *off, bytes.len() as u64, brought))
        }
        _ => Ok(Reply::Waiting),
    }
}

pub(crate) fn retry(
    alloc: Global,
    birth: &Birth,
    before: &[Entry],
    ticket: u64,
    brought: &Brought,
) -> Result<Reply, Memory>
    ensures { IfOk result (λ r. r ≡ replies.retry_reply birth.now (reverse before.now) brought.now
        (ticketing.outcome birth.now (reverse before.now) ticket) (attempting.parked (reverse before.now) ticket)) }
{
    match outcome(birth, before, ticket) {
        Outcome::Waiting => Ok(Reply::Waiting),
        Outcome::Shrunk => Ok(Reply::Refused(Refusal::Range)),
        Outcome::Detached => Ok(Reply::Refused(Refusal::Detached)),
        Outcome::Failed(code) => Ok(Reply::Refused(Refusal::Pager(code))),
        Outcome::Freed => freed(alloc, birth, before, parked(before, ticket), brought),
    }
}

/// The access that waited under a freed ticket.
fn freed(
    alloc: Global,
    birth: &Birth,
    before: &[Entry],
    call: Option<&Call>,
    brought: &Brought,
) -> Result<Reply, Memory>
    ensures { IfOk result (λ r. r ≡ replies.retry_reply birth.now (reverse before.now) brought.now Outcome.Freed (access_in call.entry)) }
{
    match call {
        Some(call) => access(alloc, birth, before, call, brought),
        None => Ok(Reply::Waiting),
    }
}

/// `call` is this supply.
pub(crate) fn supply(
    alloc: Global,
    birth: &Birth,
    before: &[Entry],
    call: &Call,
    range: &PageRange,
    brought: &Brought,
) -> Result<Reply, Memory>
    ensures { IfOk result (λ r. r ≡
        replies.refuse_where (not (sizing.range_fits birth.now (reverse before.now) range.now)) Refusal.Range
        (replies.refuse_where (acting.detached birth.now (reverse before.now)) Refusal.Detached
        (replies.refuse_where (replies.is_scan brought.now) Refusal.NoFrames
        (Reply.Took (replies.missing birth.now (reverse before.now) range.now.first range.now.count)
        (ticketing.woken birth.now (reverse before.now) call.now))))) }
{
    if !range_fits(birth, before, range) {
        return Ok(Reply::Refused(Refusal::Range));
    }
    if detached(birth, before) {
        return Ok(Reply::Refused(Refusal::Detached));
    }
    if matches!(brought, Brought::Scanned) {
        return Ok(Reply::Refused(Refusal::NoFrames));
    }
    let pages = count_pages(birth, before, &Test::Absent, range.first, range.count);
    let woke = woken(alloc, birth, before, call)?;
    Ok(Reply::Took { pages, woke })
}

/// `call` fails this range.
pub(crate) fn fail(
    alloc: Global,
    birth: &Birth,
    before: &[Entry],
    call: &Call,
    range: &PageRange,
) -> Result<Reply, Memory>
    ensures { IfOk result (λ r. r ≡
        replies.refuse_where (not (sizing.range_fits birth.now (reverse before.now) range.now)) Refusal.Range
        (replies.refuse_where (acting.detached birth.now (reverse before.now)) Refusal.Detached
        (Reply.Woke (ticketing.woken birth.now (reverse before.now) call.now)))) }
{
    if !range_fits(birth, before, range) {
        return Ok(Reply::Refused(Refusal::Range));
    }
    if detached(birth, before) {
        return Ok(Reply::Refused(Refusal::Detached));
    }
    Ok(Reply::Woke(woken(alloc, birth, before, call)?))
}

/// `call` lets this range get dirty.
pub(crate) fn dirty(
    alloc: Global,
    birth: &Birth,
    before: &[Entry],
    call: &Call,
    range: &PageRange,
    brought: &Brought,
) -> Result<Reply, Memory>
    ensures { IfOk result (λ r. r ≡
        replies.refuse_where (not (sizing.range_fits birth.now (reverse before.now) range.now)) Refusal.Range
        (replies.refuse_where (not birth.now.trap) Refusal.NotTrap
        (replies.refuse_where (acting.detached birth.now (reverse before.now)) Refusal.Detached
        (replies.refuse_at (replies.first_in (replies.absent birth.now (reverse before.now)) range.now) (λ page. Refusal.NotFound page)
        (replies.with_frames (replies.count_in (pinning.loaned birth.now (reverse before.now)) range.now) brought.now
        (Reply.Woke (ticketing.woken birth.now (reverse before.now) call.now))))))) }
{
    if !range_fits(birth, before, range) {
        return Ok(Reply::Refused(Refusal::Range));
    }
    if !birth.trap {
        return Ok(Reply::Refused(Refusal::NotTrap));
    }
    if detached(birth, before) {
        return Ok(Reply::Refused(Refusal::Detached));
    }
    if let Some(page) = first_page(birth, before, &Test::Absent, range.first, range.count) {
        return Ok(Reply::Refused(Refusal::NotFound(PageNo(page))));
    }
    let count = count_pages(birth, before, &Test::Loaned, range.first, range.count);
    let woke = woken(alloc, birth, before, call)?;
    Ok(with_frames(count, brought, Reply::Woke(woke)))
}

/// A begin of the writeback of this range.
pub(crate) fn begin(birth: &Birth, before: &[Entry], range: &PageRange) -> Reply
    ensures { result ≡ replies.refuse_where (not (sizing.range_fits birth.now (reverse before.now) range.now)) Refusal.Range
        (replies.begin_reply birth.now (reverse before.now)) }
{
    if !range_fits(birth, before, range) {
        return Reply::Refused(Refusal::Range);
    }
    if birth.numbered {
        Reply::Began(next_number(before))
    } else {
        Reply::Done
    }
}

/// A hint.
pub(crate) fn done_within(birth: &Birth, before: &[Entry], range: &PageRange) -> Reply
    ensures { result ≡ replies.refuse_where (not (sizing.range_fits birth.now (reverse before.now) range.now)) Refusal.Range Reply.Done }
{
    if range_fits(birth, before, range) {
        Reply::Done
    } else {
        Reply::Refused(Refusal::Range)
    }
}

/// `call` ends the writeback of this range, of the begin with the number that it names.
pub(crate) fn end(
    alloc: Global,
    birth: &Birth,
    before: &[Entry],
    call: &Call,
    range: &PageRange,
    of: &Option<u64>,
) -> Result<Reply, Memory>
    ensures { IfOk result (λ r. r ≡
        replies.refuse_where (not (sizing.range_fits birth.now (reverse before.now) range.now)) Refusal.Range
        (replies.refuse_unbegun (reverse before.now) of.now
        (Reply.Woke (ticketing.woken birth.now (reverse before.now) call.now)))) }
{
    if !range_fits(birth, before, range) {
        return Ok(Reply::Refused(Refusal::Range));
    }
    if let Some(number) = of
        && !has_begun(before, *number)
    {
        return Ok(Reply::Refused(Refusal::NotBegun(*number)));
    }
    Ok(Reply::Woke(woken(alloc, birth, before, call)?))
}

pub(crate) fn query(
    alloc: Global,
    birth: &Birth,
    before: &[Entry],
    range: &PageRange,
    room: u32,
) -> Result<Reply, Memory>
    ensures { IfOk result (λ r. r ≡
        replies.refuse_where (not (sizing.range_fits birth.now (reverse before.now) range.now)) Refusal.Range
        (replies.ranges_reply room (replies.unclean_runs birth.now (reverse before.now) range.now))) }
{
    if !range_fits(birth, before, range) {
        return Ok(Reply::Refused(Refusal::Range));
    }
    let found = unclean_runs(alloc, birth, before, range)?;
    let total = found.len() as u32;
    let list = first_runs(alloc, &found, room)?;
    Ok(Reply::Ranges { total, list })
}

/// The first of these runs, at most so many.
fn first_runs(alloc: Global, found: &RangeSeq, room: u32) -> Result<RangeSeq, Memory>
    ensures { IfOk result (λ list. list ≡ take room found.now) }
{
    let count = found.len().min(room as usize);
    RangeSeq::from_slice(alloc, &found.as_slice()[..count])
}

pub(crate) fn pin(birth: &Birth, before: &[Entry], range: &PageRange, brought: &Brought) -> Reply
    ensures { result ≡
        replies.refuse_where (not (sizing.range_fits birth.now (reverse before.now) range.now)) Refusal.Range
        (replies.refuse_at (replies.first_in (replies.absent birth.now (reverse before.now)) range.now) (λ page. Refusal.NotFound page)
        (replies.refuse_at (replies.first_in (replies.is_full_of_pins (reverse before.now)) range.now) (λ page. Refusal.PinLimit page)
        (replies.with_frames (replies.count_in (replies.needs_own_frame birth.now (reverse before.now)) range.now) brought.now Reply.Done))) }
{
    if !range_fits(birth, before, range) {
        return Reply::Refused(Refusal::Range);
    }
    if let Some(page) = first_page(birth, before, &Test::Absent, range.first, range.count) {
        return Reply::Refused(Refusal::NotFound(PageNo(page)));
    }
    if let Some(page) = first_page(birth, before, &Test::FullOfPins, range.first, range.count) {
        return Reply::Refused(Refusal::PinLimit(PageNo(page)));
    }
    let count = count_pages(
        birth,
        before,
        &Test::NeedsOwnFrame,
        range.first,
        range.count,
    );
    with_frames(count, brought, Reply::Done)
}

pub(crate) fn unpin(birth: &Birth, before: &[Entry], range: &PageRange) -> Reply
    ensures { result ≡
        replies.refuse_where (not (sizing.range_fits birth.now (reverse before.now) range.now)) Refusal.Range
        (replies.refuse_at (replies.first_in (replies.is_unpinned (reverse before.now)) range.now) (λ page. Refusal.Unpinned page) Reply.Done) }
{
    if !range_fits(birth, before, range) {
        return Reply::Refused(Refusal::Range);
    }
    if let Some(page) = first_page(birth, before, &Test::Unpinned, range.first, range.count) {
        return Reply::Refused(Refusal::Unpinned(PageNo(page)));
    }
    Reply::Done
}

/// The greatest epoch before is at least the entry's own.
pub(crate) fn evict(
    alloc: Global,
    birth: &Birth,
    before: &[Entry],
    epoch: u64,
    limit: u32,
    most: u32,
) -> Result<Reply, Memory>
    ensures { IfOk result (λ r. r ≡ Reply.Pages (map pages.page_number (take most
        (ordering.order birth.now (reverse before.now) (max epoch (uses.newest_epoch (reverse before.now))) limit)))) }
{
    let newest = epoch.max(newest_epoch(before));
    let list = order(alloc, birth, before, newest, limit)?;
    Ok(Reply::Pages(numbered(alloc, list.as_slice(), most)?))
}

pub(crate) fn borrow(birth: &Birth, before: &[Entry], page: PageNo, brought: &Brought) -> Reply
    ensures { result ≡
        replies.refuse_where (not (nat_lt page.0 (sizing.size birth.now (reverse before.now)))) Refusal.Range
        (replies.refuse_where (replies.absent birth.now (reverse before.now) page.0) (Refusal.NotFound page)
        (replies.refuse_where (replies.is_pinned (reverse before.now) page.0) (Refusal.Pinned page)
        (replies.refuse_where (states.unclean birth.now (reverse before.now) page.0) (Refusal.Unclean page)
        (cond (pinning.loaned birth.now (reverse before.now) page.0) (Reply.Borrowed false)
        (replies.with_frames 1 brought.now (Reply.Borrowed true)))))) }
{
    let number = u64::from(page.0);
    if page.0 >= size(birth, before) {
        return Reply::Refused(Refusal::Range);
    }
    if !has_page(birth, before, number) {
        return Reply::Refused(Refusal::NotFound(page));
    }
    if pins(before, number) != 0 {
        return Reply::Refused(Refusal::Pinned(page));
    }
    if is_unclean(birth, before, number) {
        return Reply::Refused(Refusal::Unclean(page));
    }
    if loaned(birth, before, number) {
        return Reply::Borrowed(false);
    }
    with_frames(1, brought, Reply::Borrowed(true))
}

pub(crate) fn vacate(
    alloc: Global,
    birth: &Birth,
    before: &[Entry],
    brought: &Brought,
) -> Result<Reply, Memory>
    ensures { IfOk result (λ r. r ≡
        replies.with_frames (length (replies.pages_where birth.now (reverse before.now) (replies.loaned_firm birth.now (reverse before.now)))) brought.now
        (Reply.Vacated
        (map pages.page_number (replies.pages_where birth.now (reverse before.now) (replies.loaned_firm birth.now (reverse before.now))))
        (map pages.page_number (replies.pages_where birth.now (reverse before.now) (replies.loaned_loose birth.now (reverse before.now)))))) }
{
    let firm = pages_where(alloc, birth, before, &Test::LoanedFirm)?;
    let loose = pages_where(alloc, birth, before, &Test::LoanedLoose)?;
    let count = firm.len() as u32;
    let moved = numbered(alloc, firm.as_slice(), u32::MAX)?;
    let evicted = numbered(alloc, loose.as_slice(), u32::MAX)?;
    Ok(with_frames(count, brought, Reply::Vacated { moved, evicted }))
}

/// `call` is this resize.
pub(crate) fn resize(
    alloc: Global,
    birth: &Birth,
    before: &[Entry],
    call: &Call,
    pages: u32,
) -> Result<Reply, Memory>
    requires { call.now ≡ Call.Resize pages }
    ensures { IfOk result (λ r. r ≡ replies.resize_reply birth.now (reverse before.now) pages birth.now.limit) }
{
    let Some(limit) = birth.limit else {
        return Ok(Reply::Refused(Refusal::Fixed));
    };
    if limit < pages {
        return Ok(Reply::Refused(Refusal::Range));
    }
    let test = Test::PinnedFrom(pages);
    if let Some(page) = first_page(birth, before, &test, 0, size(birth, before)) {
        return Ok(Reply::Refused(Refusal::Pinned(PageNo(page))));
    }
    Ok(Reply::Woke(woken(alloc, birth, before, call)?))
}

/// `call` makes this range zeros.
pub(crate) fn zero(
    alloc: Global,
    birth: &Birth,
    before: &[Entry],
    call: &Call,
    range: &PageRange,
) -> Result<Reply, Memory>
    ensures { IfOk result (λ r. r ≡
        replies.refuse_where (not (sizing.range_fits birth.now (reverse before.now) range.now)) Refusal.Range
        (replies.refuse_at (replies.first_in (replies.is_pinned (reverse before.now)) range.now) (λ page. Refusal.Pinned page)
        (Reply.Woke (ticketing.woken birth.now (reverse before.now) call.now)))) }
{
    if !range_fits(birth, before, range) {
        return Ok(Reply::Refused(Refusal::Range));
    }
    if let Some(page) = first_page(birth, before, &Test::Pinned, range.first, range.count) {
        return Ok(Reply::Refused(Refusal::Pinned(PageNo(page))));
    }
    Ok(Reply::Woke(woken(alloc, birth, before, call)?))
}

/// `call` is the detach.
pub(crate) fn detach(
    alloc: Global,
    birth: &Birth,
    before: &[Entry],
    call: &Call,
) -> Result<Reply, Memory>
    ensures { IfOk result (λ r. r ≡ replies.refuse_where (acting.detached birth.now (reverse before.now)) Refusal.Detached
        (Reply.Woke (ticketing.woken birth.now (reverse before.now) call.now))) }
{
    if detached(birth, before) {
        return Ok(Reply::Refused(Refusal::Detached));
    }
    Ok(Reply::Woke(woken(alloc, birth, before, call)?))
}

/// `call` leaves this role.
pub(crate) fn leave(
    alloc: Global,
    birth: &Birth,
    before: &[Entry],
    call: &Call,
    role: Role,
) -> Result<Reply, Memory>
    ensures { IfOk result (λ r. r ≡ replies.refuse_where (acting.in_role birth.now (reverse before.now) role == 0) Refusal.Detached
        (Reply.Left (length (ticketing.woken birth.now (reverse before.now) call.now)))) }
{
    if in_role(birth, before, role) == 0 {
        return Ok(Reply::Refused(Refusal::Detached));
    }
    let woke = woken(alloc, birth, before, call)?;
    Ok(Reply::Left(woke.len() as u64))
}

fn packet_at(list: &Items<Packet>, place: u64) -> Option<Packet>
    ensures { result ≡ slice_get list.now place }
{
    if place < list.len() as u64 {
        Some(*list.at(place as usize))
    } else {
        None
    }
}

pub(crate) fn packet(alloc: Global, birth: &Birth, before: &[Entry]) -> Result<Reply, Memory>
    ensures { IfOk result (λ r. r ≡ replies.packet_reply birth.now (reverse before.now)
        (slice_get (sending.sent birth.now (reverse before.now)) (sending.taken (reverse before.now)))) }
{
    let list = sent(alloc, birth, before)?;
    match packet_at(&list, taken(before)) {
        Some(packet) => Ok(Reply::Packet(packet)),
        None if detached(birth, before) => Ok(Reply::Finished),
        None => Ok(Reply::Empty),
    }
}
