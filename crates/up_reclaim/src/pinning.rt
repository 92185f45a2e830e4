ghost use Rattle.std.specs.Prelude.{◌≡◌, ◌+◌, ◌≤◌, true, false, length, None, IfOk, IfErr, OnOk, OnErr};
ghost use Rattle.up_bank.specs.declared.kind.FrameKind.TheVariants.{Ordinary as OrdinaryKind};
ghost use Rattle.up_model.specs.Attempts.{accepts};
ghost use Rattle.up_model.specs.Size.{range_fits};
ghost use Rattle.up_model.specs.Legal.{Legal};
ghost use Rattle.up_model.specs.declared.entry.Call.TheVariants.{Pin as PinCall};
ghost use Rattle.up_model.specs.declared.entry.Reply.TheVariants.{Done as DoneReply};
ghost use Rattle.up_model.specs.Reply as replies;
ghost use Rattle.up_object.specs.Parts.{bank_of, is_loan};
ghost use Rattle.up_object.specs.Change.{AllAre, AllOwn};
ghost use Rattle.up_object.specs.Whole.{after};
ghost use Rattle.up_object.specs.Answered.{RepliesAsDue, FramesBalance};
ghost use Rattle.up_object.specs.OneCall.{DoesCall, brought_of, frames_of, declined_reply, further};

use core::mem::replace_with;
use std::alloc::Global;
use up_bank::FrameKind;
use up_model::{Brought, Call, Reply};
use up_num::{PageNo, PageRange, Refusal};
use up_object::changing::{Changing, open};
use up_object::{
    By, Declined, FramesIn, Object, Step, Stepped, count_of, decline, end_of, first_of, lacking,
};
use up_pages::Frames;

/// Gives each page of a range one pin more. A page of zeros gets a frame, and a page in a loaned frame one of its own.
///
/// It answers `Done`; `Refused(Range)` past the object's end; `Refused(NotFound)` with the first page that isn't there;
/// `Refused(PinLimit)` with the first page that has all its pins; or what it lacks, where some pages need frames: `Refused(NoFrames)`
/// after a scan, or `Needs` with their number.
pub fn pin(
    object: &mut Object,
    alloc: Global,
    who: u32,
    epoch: u64,
    range: PageRange,
    frames: FramesIn,
) -> Step
    requires own { AllAre (bank_of object.old.banks OrdinaryKind) (frames_of frames) }
    ensures reply { RepliesAsDue object.old who epoch (PinCall range (brought_of frames)) result }
    ensures object { OnOk result (object.new
        ≡ after object.old who epoch (PinCall range (brought_of frames))) }
    ensures frames { FramesBalance object.old object.new (frames_of frames) result }
    ensures own { IfOk result (λ s. AllOwn object.old.banks s.back.items) }
    ensures same { OnErr result (object.new ≡ object.old) }
    ensures back { IfErr result (λ failed. failed.1.items ≡ frames_of frames) }
{
    let by = By { who, epoch };
    let brought = frames.brought();
    let given = frames.into_frames(alloc);
    let pinning = Pinning {
        alloc,
        by,
        range,
        brought,
    };
    replace_with(object, (pinning, given), pin_by)
}

#[derive(Clone, Copy)]
struct Pinning {
    alloc: Global,
    by: By,
    range: PageRange,
    brought: Brought,
}

impl Pinning {
    fn call(&self) -> Call
        ensures { result ≡ PinCall self.now.range self.now.brought }
    {
        Call::Pin {
            range: self.range,
            brought: self.brought,
        }
    }

    fn refuse(self, object: Object, given: Frames, why: Declined) -> (Object, Step)
        requires own { AllAre (bank_of object.banks OrdinaryKind) given.items }
        requires some { replies.counts_frames self.brought ≡ true }
        requires due { replies.reply object.birth object.journal self.by.who self.by.epoch (PinCall self.range self.brought) ≡ declined_reply why }
        ensures { DoesCall object result.0 result.1 self.by.who self.by.epoch (PinCall self.range self.brought) given.items }
    {
        decline(
            object,
            self.alloc,
            self.by,
            self.call(),
            why,
            FrameKind::Ordinary,
            given,
        )
    }
}

fn pin_by(object: Object, load: (Pinning, Frames)) -> (Object, Step)
    requires own { AllAre (bank_of object.banks OrdinaryKind) load.1.items }
    requires some { replies.counts_frames load.0.brought ≡ true }
    requires count { length load.1.items ≡ replies.frames_in load.0.brought }
    ensures { DoesCall object result.0 result.1 load.0.by.who load.0.by.epoch (PinCall load.0.range load.0.brought) load.1.items }
{
    let (pinning, given) = load;
    if !object.has_range(pinning.range) {
        return pinning.refuse(object, given, Declined::Refused(Refusal::Range));
    }
    if let Some(page) = object.first_absent(pinning.range) {
        let why = Refusal::NotFound(PageNo(page));
        return pinning.refuse(object, given, Declined::Refused(why));
    }
    if let Some(page) = object.first_full(pinning.range) {
        let why = Refusal::PinLimit(PageNo(page));
        return pinning.refuse(object, given, Declined::Refused(why));
    }
    let count = object.count_needing_frames(pinning.range);
    match lacking(count, pinning.brought) {
        Some(why) => pinning.refuse(object, given, why),
        None => pin_pages(object, pinning, given),
    }
}

/// Pins the pages of a range, all of which are there and have room for a pin.
fn pin_pages(object: Object, pinning: Pinning, given: Frames) -> (Object, Step)
    requires own { AllAre (bank_of object.banks OrdinaryKind) given.items }
    requires some { replies.counts_frames pinning.brought ≡ true }
    requires fits { range_fits object.birth object.journal pinning.range ≡ true }
    requires there { replies.first_in (replies.absent object.birth object.journal) pinning.range ≡ None }
    requires few { replies.first_in (replies.is_full_of_pins object.journal) pinning.range ≡ None }
    requires enough { replies.count_in (replies.needs_own_frame object.birth object.journal) pinning.range ≤ length given.items }
    requires due { replies.reply object.birth object.journal pinning.by.who pinning.by.epoch (PinCall pinning.range pinning.brought) ≡ DoneReply }
    ensures { DoesCall object result.0 result.1 pinning.by.who pinning.by.epoch (PinCall pinning.range pinning.brought) given.items }
{
    let entry = pinning.by.entry(pinning.call(), Reply::Done);
    let first = first_of(pinning.range);
    let end = end_of(pinning.range);
    object.is_legal();
    match open(
        object,
        pinning.alloc,
        entry,
        FrameKind::Ordinary,
        given,
        first,
        end,
    ) {
        Ok(mut changing) => {
            pin_each(&mut changing, pinning.range, pinning.brought);
            let (object, back) = changing.close(first, end);
            let reply = Reply::Done;
            (object, Ok(Stepped { reply, back }))
        }
        Err((memory, object, given)) => (object, Err((memory, given))),
    }
}

fn pin_each(changing: &mut Changing, range: PageRange, brought: Brought)
    requires legal { Legal changing.old.birth changing.old.journal }
    requires call { changing.old.entry.call ≡ PinCall range brought }
    requires accepted { accepts changing.old.entry.reply ≡ true }
    requires ordinary { is_loan changing.old.brings ≡ false }
    requires there { replies.first_in (replies.absent changing.old.birth changing.old.journal) range ≡ None }
    requires few { replies.first_in (replies.is_full_of_pins changing.old.journal) range ≡ None }
    requires enough { replies.count_in (replies.needs_own_frame changing.old.birth changing.old.journal) range ≤ changing.old.given }
    requires first { changing.old.done.mark ≡ range.first }
    requires limit { changing.old.done.limit ≡ range.first + range.count }
    ensures { changing.new ≡ record (further range.count changing.old) { given = changing.new.given } }
{
    for _place in 0..count_of(range) {
        changing.pin();
    }
}
