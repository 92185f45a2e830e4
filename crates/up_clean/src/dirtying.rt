ghost use Rattle.std.specs.Prelude.{◌≡◌, ◌+◌, ◌-◌, ◌<◌, ◌≤◌, true, false, length, IfOk, IfErr, OnOk, OnErr, IsNone};
ghost use Rattle.up_num.specs.Span.{covers};
ghost use Rattle.up_bank.specs.declared.kind.FrameKind.TheVariants.{Ordinary as OrdinaryKind};
ghost use Rattle.up_model.specs.Attempts.{accepts};
ghost use Rattle.up_model.specs.Size.{range_fits};
ghost use Rattle.up_model.specs.Pins as pinning;
ghost use Rattle.up_model.specs.Tickets.{woken};
ghost use Rattle.up_model.specs.Reply as replies;
ghost use Rattle.up_model.specs.declared.entry.Call.TheVariants.{Dirty as DirtyCall};
ghost use Rattle.up_model.specs.declared.entry.Reply.{Reply as ReplyValue};
ghost use Rattle.up_model.specs.declared.entry.Reply.TheVariants.{Woke};
ghost use Rattle.up_object.specs.Parts.{bank_of, is_loan};
ghost use Rattle.up_object.specs.Change.{next_using, AllAre, AllOwn};
ghost use Rattle.up_object.specs.Whole.{after};
ghost use Rattle.up_object.specs.Answered.{RepliesAsDue, FramesBalance};
ghost use Rattle.up_object.specs.OneCall.{DoesCall, brought_of, frames_of, or_declined};
ghost use Rattle.up_clean.specs.Dirties.{refused_or, or_refused, lent, freed, further_using};

use core::mem::replace_with;
use std::alloc::Global;
use up_asks::Event;
use up_bank::FrameKind;
use up_model::{Brought, Call, Reply};
use up_num::{AskKind, Memory, Outcome, PageNo, PageRange, Refusal, Woken};
use up_object::changing::{Changing, open_asking};
use up_object::{
    By, Declined, FramesIn, Object, Step, Stepped, count_of, decline, end_of, first_of, lacking,
};
use up_pages::Frames;

/// Lets the pages of a range get dirty. It answers `Woke` with the tickets of those who waited for it; `Needs` where a loaned frame has
/// to be exchanged and too few are given; or why it is refused: `Range`, `NotTrap` where the object doesn't ask before a page gets
/// dirty, `Detached`, `NotFound` with the first page that isn't there, `NoFrames` where a frame is needed and a scan found none.
pub fn dirty(
    object: &mut Object,
    alloc: Global,
    who: u32,
    epoch: u64,
    range: PageRange,
    frames: FramesIn,
) -> Step
    requires given { AllAre (bank_of object.old.banks OrdinaryKind) (frames_of frames) }
    ensures reply { RepliesAsDue object.old who epoch (DirtyCall range (brought_of frames)) result }
    ensures object { OnOk result (object.new
        ≡ after object.old who epoch (DirtyCall range (brought_of frames))) }
    ensures frames { FramesBalance object.old object.new (frames_of frames) result }
    ensures own { IfOk result (λ s. AllOwn object.old.banks s.back.items) }
    ensures same { OnErr result (object.new ≡ object.old) }
    ensures back { IfErr result (λ failed. failed.1.items ≡ frames_of frames) }
{
    let by = By { who, epoch };
    let brought = frames.brought();
    let given = frames.into_frames(alloc);
    let dirtying = Dirtying {
        alloc,
        by,
        range,
        brought,
    };
    replace_with(object, (dirtying, given), dirty_range)
}

#[derive(Clone, Copy)]
struct Dirtying {
    alloc: Global,
    by: By,
    range: PageRange,
    brought: Brought,
}

impl Dirtying {
    fn call(&self) -> Call
        ensures { result ≡ DirtyCall self.now.range self.now.brought }
    {
        Call::Dirty {
            range: self.range,
            brought: self.brought,
        }
    }
}

fn dirty_range(object: Object, load: (Dirtying, Frames)) -> (Object, Step)
    requires given { AllAre (bank_of object.banks OrdinaryKind) load.1.items }
    requires brings { length load.1.items ≡ replies.frames_in load.0.brought }
    requires counts { replies.counts_frames load.0.brought ≡ true }
    ensures { DoesCall object result.0 result.1 load.0.by.who load.0.by.epoch (DirtyCall load.0.range load.0.brought) load.1.items }
{
    let (dirtying, given) = load;
    let Some(why) = obstacle(&object, dirtying.range, dirtying.brought) else {
        return dirty_woken(object, dirtying, given);
    };
    decline(
        object,
        dirtying.alloc,
        dirtying.by,
        dirtying.call(),
        why,
        FrameKind::Ordinary,
        given,
    )
}

/// What keeps the pages of a range from getting dirty.
fn obstacle(object: &Object, range: PageRange, brought: Brought) -> Option<Declined>
    ensures reply { (next : ReplyValue) → refused_or object.now.birth object.now.journal range (replies.with_frames (replies.count_in (pinning.loaned object.now.birth object.now.journal) range) brought next) ≡ or_declined result next }
    ensures fits { IsNone result → range_fits object.now.birth object.now.journal range ≡ true }
    ensures enough { IsNone result → replies.count_in (pinning.loaned object.now.birth object.now.journal) range ≤ replies.frames_in brought }
{
    match refusal(object, range) {
        Some(why) => Some(Declined::Refused(why)),
        None => lacking(object.count_loaned(range), brought),
    }
}

/// Why the pages of a range may not get dirty.
fn refusal(object: &Object, range: PageRange) -> Option<Refusal>
    ensures reply { (next : ReplyValue) → refused_or object.now.birth object.now.journal range next ≡ or_refused result next }
    ensures fits { IsNone result → range_fits object.now.birth object.now.journal range ≡ true }
{
    if !object.has_range(range) {
        return Some(Refusal::Range);
    }
    if !object.born().trap {
        return Some(Refusal::NotTrap);
    }
    if object.detached() {
        return Some(Refusal::Detached);
    }
    match object.first_absent(range) {
        Some(page) => Some(Refusal::NotFound(PageNo(page))),
        None => None,
    }
}

/// Lets pages get dirty, with as many frames given as they need.
fn dirty_woken(object: Object, dirtying: Dirtying, given: Frames) -> (Object, Step)
    requires given { AllAre (bank_of object.banks OrdinaryKind) given.items }
    requires enough { replies.count_in (pinning.loaned object.birth object.journal) dirtying.range ≤ length given.items }
    requires counts { replies.counts_frames dirtying.brought ≡ true }
    requires fits { range_fits object.birth object.journal dirtying.range ≡ true }
    requires due { replies.reply object.birth object.journal dirtying.by.who dirtying.by.epoch (DirtyCall dirtying.range dirtying.brought) ≡ Woke (woken object.birth object.journal (DirtyCall dirtying.range dirtying.brought)) }
    ensures { DoesCall object result.0 result.1 dirtying.by.who dirtying.by.epoch (DirtyCall dirtying.range dirtying.brought) given.items }
{
    let alloc = dirtying.alloc;
    object.is_legal();
    let events = [freeing(dirtying.range)];
    let Ok(woke) = object.waking(alloc, &events) else {
        return (object, Err((Memory {}, given)));
    };
    let Ok(noted) = woke.copy(alloc) else {
        return (object, Err((Memory {}, given)));
    };
    dirty_freeing(object, dirtying, given, woke, noted)
}

/// Those who wait to make these pages dirty may do so.
fn freeing(range: PageRange) -> Event
    ensures { result ≡ freed range }
{
    Event {
        kind: AskKind::Dirty,
        range,
        outcome: Outcome::Freed,
    }
}

/// Lets pages get dirty, where these tickets wake.
fn dirty_freeing(
    object: Object,
    dirtying: Dirtying,
    given: Frames,
    woke: Woken,
    noted: Woken,
) -> (Object, Step)
    requires given { AllAre (bank_of object.banks OrdinaryKind) given.items }
    requires enough { replies.count_in (lent object.birth object.journal) dirtying.range ≤ length given.items }
    requires counts { replies.counts_frames dirtying.brought ≡ true }
    requires fits { range_fits object.birth object.journal dirtying.range ≡ true }
    requires due { replies.reply object.birth object.journal dirtying.by.who dirtying.by.epoch (DirtyCall dirtying.range dirtying.brought) ≡ Woke woke }
    requires notes { noted ≡ woke }
    ensures { DoesCall object result.0 result.1 dirtying.by.who dirtying.by.epoch (DirtyCall dirtying.range dirtying.brought) given.items }
{
    let alloc = dirtying.alloc;
    let first = first_of(dirtying.range);
    let limit = end_of(dirtying.range);
    let entry = dirtying.by.entry(dirtying.call(), Reply::Woke(noted));
    match open_asking(
        object,
        alloc,
        entry,
        FrameKind::Ordinary,
        given,
        first,
        limit,
        0,
        1,
    ) {
        Ok(mut changing) => {
            dirty_pages(&mut changing, dirtying.range, dirtying.brought);
            changing.resolve(&[freeing(dirtying.range)]);
            let (object, back) = changing.close(first, limit);
            let reply = Reply::Woke(woke);
            (object, Ok(Stepped { reply, back }))
        }
        Err((memory, object, given)) => (object, Err((memory, given))),
    }
}

/// Lets the pages of a range get dirty.
fn dirty_pages(changing: &mut Changing, range: PageRange, brought: Brought)
    requires call { changing.old.entry.call ≡ DirtyCall range brought }
    requires accepted { accepts changing.old.entry.reply ≡ true }
    requires ordinary { is_loan changing.old.brings ≡ false }
    requires at { changing.old.done.mark ≡ range.first }
    requires limit { changing.old.done.limit ≡ range.first + range.count }
    requires enough { replies.count_in (lent changing.old.birth changing.old.journal) range ≤ changing.old.given }
    ensures { changing.new ≡ further_using (replies.count_in (lent changing.old.birth changing.old.journal) range) range.count changing.old }
{
    for _place in 0..count_of(range) {
        dirty_page(changing, range, brought);
    }
}

/// Lets the page at the mark get dirty. A loaned frame is exchanged.
fn dirty_page(changing: &mut Changing, range: PageRange, brought: Brought)
    requires left { changing.old.done.mark < changing.old.done.limit }
    requires call { changing.old.entry.call ≡ DirtyCall range brought }
    requires accepted { accepts changing.old.entry.reply ≡ true }
    requires ordinary { is_loan changing.old.brings ≡ false }
    requires inside { covers range changing.old.done.mark ≡ true }
    requires frame { lent changing.old.birth changing.old.journal changing.old.done.mark ≡ true → 0 < changing.old.given }
    ensures { changing.new ≡ next_using (lent changing.old.birth changing.old.journal changing.old.done.mark) changing.old }
{
    changing.dirty();
}
