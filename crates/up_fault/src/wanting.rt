//! What an access that waits asks for.
ghost use Rattle.std.specs.Prelude.{◌≡◌, ◌+◌, ◌-◌, ◌≤◌, ◌^◌, ◌<◌, [], ◌∷◌, List, ℕ, true, false, length, min, Some, IfOk};
ghost use Rattle.up_bank.specs.declared.kind.FrameKind.{FrameKind as FrameKindValue};
ghost use Rattle.up_pages.specs.Frames.{count_kind};
ghost use Rattle.up_span.specs.Runs.{run_of};
ghost use Rattle.up_model.specs.declared.entry.Reply.TheVariants.{Blocked as BlockedReply};
ghost use Rattle.up_model.specs.Attempts.{page_of, attempt};
ghost use Rattle.up_model.specs.Asks as asking;
ghost use Rattle.up_model.specs.Changes.{IsDue};
ghost use Rattle.up_model.specs.Concerns.{is_touch, keeps_spent};
ghost use Rattle.up_model.specs.Roles.{detached};
ghost use Rattle.up_model.specs.Size as sizes;
ghost use Rattle.up_model.specs.Tickets.{next_ticket};
ghost use Rattle.up_object.specs.Asks.{access_of};
ghost use Rattle.up_object.specs.Change.{of_kind, AllOwn};
ghost use Rattle.up_object.specs.Whole.{held};
ghost use Rattle.up_fault.specs.Accesses.{access_in, Wants};

use crate::access::{Attempt, is_dirty, page_in};
use std::alloc::Global;
use up_asks::Waiter;
use up_num::{AskKind, Memory, PageNo, PageRange};
use up_object::changing::Changing;
use up_object::{Object, end_of, first_of};
use up_pages::Frames;
use up_span::Runs;

/// Pages that an access asks for, with the runs of them that nobody asked for yet.
#[derive(Drop)]
pub(crate) struct Shortfall {
    pub(crate) kind: AskKind,
    pub(crate) range: PageRange,
    pub(crate) parts: Runs,
}

impl Shortfall {
    /// How many packets ask for it.
    pub(crate) fn packets(&self) -> u32
        requires { length self.now.parts < 2 ^ 32 }
        ensures { result ≡ length self.now.parts }
    {
        self.parts.len() as u32
    }
}

/// The page is one that an ask of this kind is for.
fn lacks(object: &Object, kind: AskKind, page: u32) -> bool
    ensures { result ≡ asking.lacks object.now.birth object.now.journal kind page }
{
    let page = PageNo(page);
    match kind {
        AskKind::Read => !object.has_page(page),
        AskKind::Dirty => object.has_page(page) && !is_dirty(object, page),
    }
}

/// How many of some pages, from the first on, lack the same.
fn lacking(object: &Object, kind: AskKind, first: u32, count: u32) -> u32
    requires below { first + count < 2 ^ 32 }
    ensures { result ≡ run_of (asking.lacks object.now.birth object.now.journal kind) first count }
{
    for place in 0..count {
        if !lacks(object, kind, first + place) {
            return place;
        }
    }
    count
}

/// How many pages there are from one on, up to another, within an object of so many pages.
fn room_within(first: u32, last: u32, pages: u32) -> u32
    requires low { first < pages }
    requires order { first ≤ last }
    ensures { result ≡ min (last + 1) pages - first }
{
    if last < pages {
        last - first + 1
    } else {
        pages - first
    }
}

/// What an access that waits asks for.
pub(crate) fn want(
    object: &Object,
    alloc: Global,
    attempt: &Attempt,
    kind: AskKind,
) -> Result<Shortfall, Memory>
    requires asks { asking.kind_of object.now.birth object.now.journal (access_in attempt.now []) ≡ kind }
    requires lacking { asking.lacks object.now.birth object.now.journal kind (page_of attempt.now.off) ≡ true }
    requires low { page_of attempt.now.off < sizes.size object.now.birth object.now.journal }
    requires order { page_of attempt.now.off ≤ attempt.now.last.0 }
    ensures wants { IfOk result (λ wanted. (bytes : List ℕ) → Wants object.now.birth object.now.journal (access_in attempt.now bytes) wanted) }
    ensures few { IfOk result (λ wanted. length wanted.parts < 2 ^ 32) }
{
    let first = page_in(object, attempt.off);
    let pages = object.size();
    let room = room_within(first, attempt.last.0, pages);
    let count = lacking(object, kind, first, room);
    let range = PageRange { first, count };
    let parts = object.fresh(alloc, kind, &range)?;
    Ok(Shortfall { kind, range, parts })
}

/// Parks an access: the call's entry answers that it waits. It gives the object, and all frames that were given.
pub(crate) fn park(
    mut changing: Changing,
    who: u32,
    wanted: Shortfall,
    piece: Waiter,
) -> (Object, Frames)
    requires first { changing.done.asks ≡ false }
    requires none { changing.done.mark ≡ changing.done.first }
    requires ticket { 0 < changing.room.tickets }
    requires packets { length wanted.parts ≤ changing.room.packets }
    requires change { 0 < changing.room.changes }
    requires by { changing.entry.who ≡ who }
    requires wants { Wants changing.birth changing.journal (access_of piece) wanted }
    requires blocked { changing.entry.reply ≡ BlockedReply (next_ticket changing.journal) }
    requires attempted { attempt changing.journal changing.entry ≡ Some (access_of piece) }
    requires attached { detached changing.birth changing.journal ≡ false }
    requires pages { changing.pages ≡ sizes.size changing.birth changing.journal }
    requires touch { is_touch changing.entry.call ≡ true }
    requires spent { changing.done.spent ≡ false → keeps_spent changing.entry ≡ true }
    requires due { IsDue changing.birth changing.entry changing.journal }
    ensures object { result.0 ≡ record { birth = changing.birth; journal = changing.entry ∷ changing.journal; banks = changing.banks } }
    ensures frames { (kind : FrameKindValue) → count_kind kind result.1.items + held changing.birth (changing.entry ∷ changing.journal) kind ≡ of_kind kind changing.frames }
    ensures own { AllOwn changing.banks result.1.items }
{
    let Shortfall { kind, range, parts } = wanted;
    let first = first_of(range);
    let end = end_of(range);
    changing.park(who, kind, range, &parts, piece);
    changing.close(first, end)
}
