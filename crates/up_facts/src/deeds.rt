ghost use Rattle.std.specs.Prelude.{◌≡◌, reverse};
ghost use Rattle.up_num.specs.Span as spans;
ghost use Rattle.up_model.specs.Deeds as deeds;
ghost use Rattle.up_model.specs.Size as sizes;
ghost use Rattle.up_facts.specs.Seen.{access_in};

use crate::attempts::attempt;
use crate::sizes::{accepts, size};
use up_model::{Birth, Call, Entry, HintKind, Reply};
use up_num::{PageNo, PageRange};

/// Whether the range has the page.
pub(crate) fn covers(range: &PageRange, page: u64) -> bool
    ensures { result ≡ spans.covers range.now page }
{
    let first = u64::from(range.first);
    let end = first + u64::from(range.count);
    first <= page && page < end
}

fn writes_in(access: Option<&Call>, page: u64) -> bool
    ensures { result ≡ deeds.writes_in (access_in access.entry) page }
{
    match access {
        Some(Call::Write { off, .. }) => *off / 4096 == page,
        _ => false,
    }
}

fn reads_in(access: Option<&Call>, page: u64) -> bool
    ensures { result ≡ deeds.reads_in (access_in access.entry) page }
{
    match access {
        Some(Call::Read { piece, .. }) => piece.off / 4096 == page,
        _ => false,
    }
}

/// Whether the entry is a write in the page.
pub(crate) fn writes(before: &[Entry], entry: &Entry, page: u64) -> bool
    ensures { result ≡ deeds.writes (reverse before.now) entry.now page }
{
    writes_in(attempt(before, &entry.call), page) && matches!(entry.reply, Reply::Done)
}

/// Whether the entry is a read in the page.
pub(crate) fn reads(before: &[Entry], entry: &Entry, page: u64) -> bool
    ensures { result ≡ deeds.reads (reverse before.now) entry.now page }
{
    reads_in(attempt(before, &entry.call), page) && matches!(entry.reply, Reply::Bytes(_))
}

/// Whether the entry is an accepted supply over the page.
pub(crate) fn supplies(entry: &Entry, page: u64) -> bool
    ensures { result ≡ deeds.supplies entry.now page }
{
    match &entry.call {
        Call::Supply { range, .. } => covers(range, page) && accepts(&entry.reply),
        _ => false,
    }
}

/// Whether the entry is an accepted dirty call over the page.
pub(crate) fn lets_dirty(entry: &Entry, page: u64) -> bool
    ensures { result ≡ deeds.lets_dirty entry.now page }
{
    match &entry.call {
        Call::Dirty { range, .. } => covers(range, page) && accepts(&entry.reply),
        _ => false,
    }
}

/// Whether the entry is an accepted begin over the page.
pub(crate) fn begins(entry: &Entry, page: u64) -> bool
    ensures { result ≡ deeds.begins entry.now page }
{
    match &entry.call {
        Call::Begin { range, .. } => covers(range, page) && accepts(&entry.reply),
        _ => false,
    }
}

/// Whether the entry is an accepted end over the page.
pub(crate) fn ends(entry: &Entry, page: u64) -> bool
    ensures { result ≡ deeds.ends entry.now page }
{
    match &entry.call {
        Call::End { range, .. } => covers(range, page) && accepts(&entry.reply),
        _ => false,
    }
}

/// Whether the entry is an accepted pin over the page.
pub(crate) fn pins_one(entry: &Entry, page: u64) -> bool
    ensures { result ≡ deeds.pins_one entry.now page }
{
    match &entry.call {
        Call::Pin { range, .. } => covers(range, page) && accepts(&entry.reply),
        _ => false,
    }
}

/// Whether the entry is an accepted unpin over the page.
pub(crate) fn unpins_one(entry: &Entry, page: u64) -> bool
    ensures { result ≡ deeds.unpins_one entry.now page }
{
    match &entry.call {
        Call::Unpin { range } => covers(range, page) && accepts(&entry.reply),
        _ => false,
    }
}

/// Whether the entry is an accepted zero call over the page.
pub(crate) fn zeroes(entry: &Entry, page: u64) -> bool
    ensures { result ≡ deeds.zeroes entry.now page }
{
    match &entry.call {
        Call::Zero { range } => covers(range, page) && accepts(&entry.reply),
        _ => false,
    }
}

/// Whether the entry is an accepted hint over the page that protects it.
pub(crate) fn hints_always(entry: &Entry, page: u64) -> bool
    ensures { result ≡ deeds.hints_always entry.now page }
{
    match &entry.call {
        Call::Hint {
            range,
            kind: HintKind::Always,
        } => covers(range, page) && accepts(&entry.reply),
        _ => false,
    }
}

/// Whether the entry is an accepted hint over the page that makes it cold.
pub(crate) fn hints_cold(entry: &Entry, page: u64) -> bool
    ensures { result ≡ deeds.hints_cold entry.now page }
{
    match &entry.call {
        Call::Hint {
            range,
            kind: HintKind::Cold,
        } => covers(range, page) && accepts(&entry.reply),
        _ => false,
    }
}

fn has_page(pages: &[PageNo], page: u64) -> bool
    ensures { result ≡ deeds.has_page pages.now page }
{
    pages.iter().any(|listed| u64::from(listed.0) == page)
}

fn reclaims(call: &Call) -> bool
    ensures { result ≡ deeds.reclaims call.now }
{
    matches!(call, Call::Evict { .. } | Call::Vacate { .. })
}

fn says_evicted(reply: &Reply, page: u64) -> bool
    ensures { result ≡ deeds.says_evicted reply.now page }
{
    match reply {
        Reply::Pages(pages) => has_page(pages.as_slice(), page),
        Reply::Vacated { evicted, .. } => has_page(evicted.as_slice(), page),
        _ => false,
    }
}

fn says_moved(reply: &Reply, page: u64) -> bool
    ensures { result ≡ deeds.says_moved reply.now page }
{
    match reply {
        Reply::Vacated { moved, .. } => has_page(moved.as_slice(), page),
        _ => false,
    }
}

/// Whether the entry evicts the page.
pub(crate) fn evicts(entry: &Entry, page: u64) -> bool
    ensures { result ≡ deeds.evicts entry.now page }
{
    reclaims(&entry.call) && says_evicted(&entry.reply, page)
}

/// Whether the entry puts another frame under the page.
pub(crate) fn moves(entry: &Entry, page: u64) -> bool
    ensures { result ≡ deeds.moves entry.now page }
{
    reclaims(&entry.call) && says_moved(&entry.reply, page)
}

/// Whether the entry puts a loaned frame under the page.
pub(crate) fn borrows(entry: &Entry, page: u64) -> bool
    ensures { result ≡ deeds.borrows entry.now page }
{
    match &entry.call {
        Call::Borrow { page: lent, .. } => {
            u64::from(lent.0) == page && matches!(entry.reply, Reply::Borrowed(true))
        }
        _ => false,
    }
}

/// Whether the entry is an accepted resize that brings the page.
pub(crate) fn grows(birth: &Birth, before: &[Entry], entry: &Entry, page: u64) -> bool
    ensures { result ≡ sizes.grows birth.now (reverse before.now) entry.now page }
{
    match &entry.call {
        Call::Resize { pages } => {
            u64::from(size(birth, before)) <= page
                && page < u64::from(*pages)
                && accepts(&entry.reply)
        }
        _ => false,
    }
}

/// Whether the entry is an accepted resize that cuts the page off.
pub(crate) fn cuts(birth: &Birth, before: &[Entry], entry: &Entry, page: u64) -> bool
    ensures { result ≡ sizes.cuts birth.now (reverse before.now) entry.now page }
{
    match &entry.call {
        Call::Resize { pages } => {
            page < u64::from(size(birth, before))
                && u64::from(*pages) <= page
                && accepts(&entry.reply)
        }
        _ => false,
    }
}

/// Whether the page is zeros after the entry.
pub(crate) fn blanks(birth: &Birth, before: &[Entry], entry: &Entry, page: u64) -> bool
    ensures { result ≡ deeds.blanks birth.now (reverse before.now) entry.now page }
{
    zeroes(entry, page) || grows(birth, before, entry, page)
}

/// Whether the entry dirties the page.
pub(crate) fn dirties(birth: &Birth, before: &[Entry], entry: &Entry, page: u64) -> bool
    ensures { result ≡ deeds.dirties birth.now (reverse before.now) entry.now page }
{
    writes(before, entry, page) || (lets_dirty(entry, page) || blanks(birth, before, entry, page))
}

/// Whether the entry evicts the page or cuts it off.
pub(crate) fn drops(birth: &Birth, before: &[Entry], entry: &Entry, page: u64) -> bool
    ensures { result ≡ deeds.drops birth.now (reverse before.now) entry.now page }
{
    evicts(entry, page) || cuts(birth, before, entry, page)
}
