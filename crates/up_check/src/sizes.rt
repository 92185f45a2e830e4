//! How many frames the banks of a replayed journal are to have.
ghost use Rattle.std.specs.Prelude.{◌<◌, ◌≤◌, IsTrue, IfSome};
ghost use Rattle.up_bank.specs.Standing.{most_frames};

use crate::replay::kind_of;
use up_bank::FrameKind;
use up_model::{Birth, Brought, Call, Entry, Reply};
use up_text::Named;

/// How many ordinary and loaned frames there are for a journal.
#[derive(Clone, Copy, Debug)]
pub struct Sizes {
    pub ordinary: u32,
    pub loaned: u32,
}

/// The most frames that a bank has.
const MOST: u32 = 131_072;

/// Whether an object may be born so.
pub fn is_fair(birth: &Birth) -> bool
    ensures { IsTrue result → (0 < birth.now.users) × (birth.now.users ≤ 64) × (0 < birth.now.pagers) × (birth.now.pagers ≤ 64) }
{
    0 < birth.users && birth.users <= 64 && 0 < birth.pagers && birth.pagers <= 64
}

/// What a journal's entries tell of the frames that replay needs.
#[derive(Clone, Copy)]
struct Need {
    /// The most pages that the object has.
    pages: u32,
    /// The most pages that one supply has bytes for.
    supplied: u32,
    /// How many ordinary and loaned frames the entries bring.
    brought: Sizes,
}

/// As many frames of each kind as the journal's entries bring, but no more than a replay can have out at once:
/// one for each page that the object ever has, and an ordinary one besides for each page of its greatest supply.
/// Nothing where no bank can have as many as that.
pub(crate) fn sizes_for(journal: &Named) -> Option<Sizes>
    ensures ordinary { IfSome result (λ sizes. (0 < sizes.ordinary) × (sizes.ordinary ≤ most_frames)) }
    ensures loaned { IfSome result (λ sizes. (0 < sizes.loaned) × (sizes.loaned ≤ most_frames)) }
{
    let entries = journal.entries.as_slice();
    let brought = Sizes {
        ordinary: 0,
        loaned: 0,
    };
    let mut need = Need {
        pages: journal.birth.pages,
        supplied: 0,
        brought,
    };
    for place in 0..entries.len() {
        need = need_with(need, &entries[place]);
    }
    let ordinary = within(
        need.pages.checked_add(need.supplied)?,
        need.brought.ordinary,
    )?;
    let loaned = within(need.pages, need.brought.loaned)?;
    Some(Sizes { ordinary, loaned })
}

/// What is needed with one entry more.
fn need_with(need: Need, entry: &Entry) -> Need {
    Need {
        pages: need.pages.max(pages_after(entry)),
        supplied: need.supplied.max(pages_supplied(entry)),
        brought: brought_with(need.brought, &entry.call),
    }
}

/// How many frames are brought with those of one call more.
fn brought_with(brought: Sizes, call: &Call) -> Sizes {
    let frames = match call.brought() {
        Brought::Frames(count) => count,
        _ => 0,
    };
    match kind_of(call) {
        FrameKind::Ordinary => Sizes {
            ordinary: brought.ordinary.saturating_add(frames),
            ..brought
        },
        FrameKind::Loaned => Sizes {
            loaned: brought.loaned.saturating_add(frames),
            ..brought
        },
    }
}

/// So many frames, but no more than are brought, and at least one; nothing where no bank has so many.
fn within(frames: u32, brought: u32) -> Option<u32>
    ensures { IfSome result (λ count. (0 < count) × (count ≤ most_frames)) }
{
    if MOST < frames {
        return None;
    }
    Some(frames.min(brought).max(1))
}

/// How many pages an accepted resize gives.
fn pages_after(entry: &Entry) -> u32 {
    match (&entry.call, &entry.reply) {
        (Call::Resize { pages }, Reply::Woke(_)) => *pages,
        _ => 0,
    }
}

/// For how many pages a supply has bytes.
fn pages_supplied(entry: &Entry) -> u32 {
    match &entry.call {
        Call::Supply { range, bytes, .. } => pages_of(range.count, bytes.len() / 4096),
        _ => 0,
    }
}

/// The count, where there are bytes for as many pages.
fn pages_of(count: u32, pages: usize) -> u32 {
    if count as usize <= pages { count } else { 0 }
}
