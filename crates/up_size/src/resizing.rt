ghost use Rattle.std.specs.Prelude.{◌≡◌, ◌-◌, ◌<◌, [], Some, None, IfOk, IfErr, OnOk, OnErr, IsNone};
ghost use Rattle.up_model.specs.Size as sizes;
ghost use Rattle.up_model.specs.Tickets.{woken};
ghost use Rattle.up_model.specs.Pages.{first_page};
ghost use Rattle.up_model.specs.Reply as replies;
ghost use Rattle.up_model.specs.declared.entry.Call.TheVariants.{Resize as ResizeCall};
ghost use Rattle.up_model.specs.declared.entry.Reply.TheVariants.{Woke};
ghost use Rattle.up_object.specs.Change.{AllOwn};
ghost use Rattle.up_object.specs.Whole.{after};
ghost use Rattle.up_object.specs.Answered.{RepliesAsDue, FramesBalance};
ghost use Rattle.up_object.specs.OneCall.{DoesCall};
ghost use Rattle.up_size.specs.Sizes.{or_refused, pinned_past};

use crate::cutting::cut;
use crate::growing::grow;
use core::mem::replace_with;
use std::alloc::Global;
use up_bank::FrameKind;
use up_model::Call;
use up_num::{PageNo, PageRange, Refusal};
use up_object::{By, Declined, Object, Step, decline};
use up_pages::Frames;

/// Gives an object this number of pages: pages that are brought are zeros that need no frame, and pages past it are cut off. It answers
/// `Woke` with the tickets of those who waited for a page that is cut off; or why it is refused: `Fixed` where the object's
/// size is fixed, `Range` above its limit, or `Pinned` with the first page with a pin that would be cut off.
pub fn resize(object: &mut Object, alloc: Global, who: u32, epoch: u64, pages: u32) -> Step
    ensures reply { RepliesAsDue object.old who epoch (ResizeCall pages) result }
    ensures object { OnOk result (object.new ≡ after object.old who epoch (ResizeCall pages)) }
    ensures frames { FramesBalance object.old object.new [] result }
    ensures own { IfOk result (λ s. AllOwn object.old.banks s.back.items) }
    ensures same { OnErr result (object.new ≡ object.old) }
    ensures back { IfErr result (λ failed. failed.1.items ≡ []) }
{
    let by = By { who, epoch };
    replace_with(object, Resizing { alloc, by, pages }, resize_to)
}

#[derive(Clone, Copy)]
pub(crate) struct Resizing {
    pub(crate) alloc: Global,
    pub(crate) by: By,
    pub(crate) pages: u32,
}

impl Resizing {
    pub(crate) fn call(&self) -> Call
        ensures { result ≡ ResizeCall self.now.pages }
    {
        Call::Resize { pages: self.pages }
    }
}

fn resize_to(object: Object, resizing: Resizing) -> (Object, Step)
    ensures { DoesCall object result.0 result.1 resizing.by.who resizing.by.epoch (ResizeCall resizing.pages) [] }
{
    let alloc = resizing.alloc;
    let Some(why) = refusal(&object, resizing.pages) else {
        return resize_waking(object, resizing);
    };
    let none = Frames::new(alloc);
    let why = Declined::Refused(why);
    decline(
        object,
        alloc,
        resizing.by,
        resizing.call(),
        why,
        FrameKind::Ordinary,
        none,
    )
}

/// Why an object may not have this number of pages.
fn refusal(object: &Object, pages: u32) -> Option<Refusal>
    ensures reply { replies.resize_reply object.now.birth object.now.journal pages object.now.birth.limit ≡ or_refused result (Woke (woken object.now.birth object.now.journal (ResizeCall pages))) }
    ensures unpinned { IsNone result → first_page (pinned_past object.now.journal pages) 0 (sizes.size object.now.birth object.now.journal) ≡ None }
{
    let Some(limit) = object.born().limit else {
        return Some(Refusal::Fixed);
    };
    if limit < pages {
        return Some(Refusal::Range);
    }
    match first_pinned_past(object, pages) {
        Some(page) => Some(Refusal::Pinned(PageNo(page))),
        None => None,
    }
}

/// The first page with a pin that this number of pages cuts off.
fn first_pinned_past(object: &Object, pages: u32) -> Option<u32>
    ensures { result ≡ first_page (pinned_past object.now.journal pages) 0 (sizes.size object.now.birth object.now.journal) }
{
    let size = object.size();
    if size <= pages {
        return None;
    }
    object.first_pinned(range_between(pages, size))
}

/// The pages from one on, up to another.
pub(crate) fn range_between(first: u32, end: u32) -> PageRange
    requires { first < end }
    ensures { result ≡ record { first = first; count = end - first } }
{
    PageRange {
        first,
        count: end - first,
    }
}

/// Gives an object this number of pages, which isn't refused.
fn resize_waking(object: Object, resizing: Resizing) -> (Object, Step)
    requires due { replies.reply object.birth object.journal resizing.by.who resizing.by.epoch (ResizeCall resizing.pages) ≡ Woke (woken object.birth object.journal (ResizeCall resizing.pages)) }
    requires unpinned { first_page (pinned_past object.journal resizing.pages) 0 (sizes.size object.birth object.journal) ≡ None }
    ensures { DoesCall object result.0 result.1 resizing.by.who resizing.by.epoch (ResizeCall resizing.pages) [] }
{
    let size = object.size();
    if size <= resizing.pages {
        grow(object, resizing, size)
    } else {
        cut(object, resizing, size)
    }
}
