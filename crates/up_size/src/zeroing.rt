ghost use Rattle.std.specs.Prelude.{◌≡◌, not, [], true, IfOk, IfErr, OnOk, OnErr, IsNone};
ghost use Rattle.up_num.specs.declared.answers.Refusal.TheVariants as refusals;
ghost use Rattle.up_model.specs.Size.{range_fits};
ghost use Rattle.up_model.specs.Tickets.{woken};
ghost use Rattle.up_model.specs.Reply as replies;
ghost use Rattle.up_model.specs.declared.entry.Call.TheVariants.{Zero as ZeroCall};
ghost use Rattle.up_model.specs.declared.entry.Reply.{Reply as ReplyValue};
ghost use Rattle.up_model.specs.declared.entry.Reply.TheVariants.{Woke};
ghost use Rattle.up_object.specs.Change.{AllOwn};
ghost use Rattle.up_object.specs.Whole.{after};
ghost use Rattle.up_object.specs.Answered.{RepliesAsDue, FramesBalance};
ghost use Rattle.up_object.specs.OneCall.{DoesCall};
ghost use Rattle.up_size.specs.Sizes.{or_refused};

use crate::blanking::blank_all;
use crate::waking::{resolve_over, waking_over};
use core::mem::replace_with;
use std::alloc::Global;
use up_bank::FrameKind;
use up_model::{Call, Reply};
use up_num::{Memory, Outcome, PageNo, PageRange, Refusal, Woken};
use up_object::changing::open_asking;
use up_object::{By, Declined, Object, Step, Stepped, decline, end_of, first_of};
use up_pages::Frames;

/// Makes the pages of a range zeros that need no frame. It answers `Woke` with the tickets of those who waited for one of them; or why
/// it is refused: `Range`, or `Pinned` with the first page that has a pin.
pub fn zero(object: &mut Object, alloc: Global, who: u32, epoch: u64, range: PageRange) -> Step
    ensures reply { RepliesAsDue object.old who epoch (ZeroCall range) result }
    ensures object { OnOk result (object.new ≡ after object.old who epoch (ZeroCall range)) }
    ensures frames { FramesBalance object.old object.new [] result }
    ensures own { IfOk result (λ s. AllOwn object.old.banks s.back.items) }
    ensures same { OnErr result (object.new ≡ object.old) }
    ensures back { IfErr result (λ failed. failed.1.items ≡ []) }
{
    let by = By { who, epoch };
    replace_with(object, Zeroing { alloc, by, range }, zero_range)
}

#[derive(Clone, Copy)]
struct Zeroing {
    alloc: Global,
    by: By,
    range: PageRange,
}

impl Zeroing {
    fn call(&self) -> Call
        ensures { result ≡ ZeroCall self.now.range }
    {
        Call::Zero { range: self.range }
    }
}

fn zero_range(object: Object, zeroing: Zeroing) -> (Object, Step)
    ensures { DoesCall object result.0 result.1 zeroing.by.who zeroing.by.epoch (ZeroCall zeroing.range) [] }
{
    let alloc = zeroing.alloc;
    let Some(why) = refusal(&object, zeroing.range) else {
        return zero_waking(object, zeroing);
    };
    let none = Frames::new(alloc);
    let why = Declined::Refused(why);
    decline(
        object,
        alloc,
        zeroing.by,
        zeroing.call(),
        why,
        FrameKind::Ordinary,
        none,
    )
}

/// Why the pages of a range may not become zeros.
fn refusal(object: &Object, range: PageRange) -> Option<Refusal>
    ensures reply { (next : ReplyValue) → replies.refuse_where (not (range_fits object.now.birth object.now.journal range)) refusals.Range
        (replies.refuse_at (replies.first_in (replies.is_pinned object.now.journal) range) refusals.Pinned next) ≡ or_refused result next }
    ensures fits { IsNone result → range_fits object.now.birth object.now.journal range ≡ true }
{
    if !object.has_range(range) {
        return Some(Refusal::Range);
    }
    match object.first_pinned(range) {
        Some(page) => Some(Refusal::Pinned(PageNo(page))),
        None => None,
    }
}

/// Makes pages zeros, whose tickets wake.
fn zero_waking(object: Object, zeroing: Zeroing) -> (Object, Step)
    requires fits { range_fits object.birth object.journal zeroing.range ≡ true }
    requires due { replies.reply object.birth object.journal zeroing.by.who zeroing.by.epoch (ZeroCall zeroing.range) ≡ Woke (woken object.birth object.journal (ZeroCall zeroing.range)) }
    ensures { DoesCall object result.0 result.1 zeroing.by.who zeroing.by.epoch (ZeroCall zeroing.range) [] }
{
    let alloc = zeroing.alloc;
    let Ok(woke) = waking_over(&object, alloc, zeroing.range, Outcome::Freed) else {
        return (object, Err((Memory {}, Frames::new(alloc))));
    };
    let Ok(noted) = woke.copy(alloc) else {
        return (object, Err((Memory {}, Frames::new(alloc))));
    };
    zero_pages(object, zeroing, woke, noted)
}

/// Makes pages zeros, where these tickets wake.
fn zero_pages(object: Object, zeroing: Zeroing, woke: Woken, noted: Woken) -> (Object, Step)
    requires fits { range_fits object.birth object.journal zeroing.range ≡ true }
    requires due { replies.reply object.birth object.journal zeroing.by.who zeroing.by.epoch (ZeroCall zeroing.range) ≡ Woke woke }
    requires notes { noted ≡ woke }
    ensures { DoesCall object result.0 result.1 zeroing.by.who zeroing.by.epoch (ZeroCall zeroing.range) [] }
{
    let alloc = zeroing.alloc;
    let none = Frames::new(alloc);
    let first = first_of(zeroing.range);
    let limit = end_of(zeroing.range);
    let entry = zeroing.by.entry(zeroing.call(), Reply::Woke(noted));
    match open_asking(
        object,
        alloc,
        entry,
        FrameKind::Ordinary,
        none,
        first,
        limit,
        0,
        2,
    ) {
        Ok(mut changing) => {
            blank_all(&mut changing, first, limit);
            resolve_over(&mut changing, zeroing.range, Outcome::Freed);
            changing.set_changed(true);
            let (object, back) = changing.close(first, limit);
            let reply = Reply::Woke(woke);
            (object, Ok(Stepped { reply, back }))
        }
        Err((memory, object, given)) => (object, Err((memory, given))),
    }
}
