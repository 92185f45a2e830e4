ghost use Rattle.std.specs.Prelude.{◌≡◌, ◌+◌, [], true, None, IfOk, IfErr, OnOk, OnErr};
ghost use Rattle.up_model.specs.Attempts.{accepts};
ghost use Rattle.up_model.specs.Size.{range_fits};
ghost use Rattle.up_model.specs.declared.entry.Call.TheVariants.{Unpin as UnpinCall};
ghost use Rattle.up_model.specs.declared.entry.Reply.TheVariants.{Refused as RefusedReply};
ghost use Rattle.up_model.specs.Reply as replies;
ghost use Rattle.up_object.specs.Change.{AllOwn};
ghost use Rattle.up_object.specs.Whole.{after};
ghost use Rattle.up_object.specs.Answered.{RepliesAsDue, FramesBalance};
ghost use Rattle.up_object.specs.OneCall.{DoesCall, further};

use core::mem::replace_with;
use std::alloc::Global;
use up_bank::FrameKind;
use up_model::{Call, Reply};
use up_num::{PageNo, PageRange, Refusal};
use up_object::changing::{Changing, open};
use up_object::{By, Declined, Object, Step, Stepped, count_of, decline, end_of, first_of};
use up_pages::Frames;

/// Takes one pin off each page of a range. It answers `Done`; `Refused(Range)` past the object's end; or `Refused(Unpinned)` with the
/// first page that has no pin.
pub fn unpin(object: &mut Object, alloc: Global, who: u32, epoch: u64, range: PageRange) -> Step
    ensures reply { RepliesAsDue object.old who epoch (UnpinCall range) result }
    ensures object { OnOk result (object.new ≡ after object.old who epoch (UnpinCall range)) }
    ensures frames { FramesBalance object.old object.new [] result }
    ensures own { IfOk result (λ s. AllOwn object.old.banks s.back.items) }
    ensures same { OnErr result (object.new ≡ object.old) }
    ensures back { IfErr result (λ failed. failed.1.items ≡ []) }
{
    let by = By { who, epoch };
    replace_with(object, Unpinning { alloc, by, range }, unpin_by)
}

#[derive(Clone, Copy)]
struct Unpinning {
    alloc: Global,
    by: By,
    range: PageRange,
}

impl Unpinning {
    fn call(&self) -> Call
        ensures { result ≡ UnpinCall self.now.range }
    {
        Call::Unpin { range: self.range }
    }

    fn refuse(self, object: Object, why: Refusal) -> (Object, Step)
        requires { replies.reply object.birth object.journal self.by.who self.by.epoch (UnpinCall self.range) ≡ RefusedReply why }
        ensures { DoesCall object result.0 result.1 self.by.who self.by.epoch (UnpinCall self.range) [] }
    {
        let none = Frames::new(self.alloc);
        decline(
            object,
            self.alloc,
            self.by,
            self.call(),
            Declined::Refused(why),
            FrameKind::Ordinary,
            none,
        )
    }
}

fn unpin_by(object: Object, unpinning: Unpinning) -> (Object, Step)
    ensures { DoesCall object result.0 result.1 unpinning.by.who unpinning.by.epoch (UnpinCall unpinning.range) [] }
{
    if !object.has_range(unpinning.range) {
        return unpinning.refuse(object, Refusal::Range);
    }
    match object.first_unpinned(unpinning.range) {
        Some(page) => unpinning.refuse(object, Refusal::Unpinned(PageNo(page))),
        None => unpin_pages(object, unpinning),
    }
}

/// Takes a pin off each page of a range that fits and whose pages have pins.
fn unpin_pages(object: Object, unpinning: Unpinning) -> (Object, Step)
    requires fits { range_fits object.birth object.journal unpinning.range ≡ true }
    requires pinned { replies.first_in (replies.is_unpinned object.journal) unpinning.range ≡ None }
    ensures { DoesCall object result.0 result.1 unpinning.by.who unpinning.by.epoch (UnpinCall unpinning.range) [] }
{
    let entry = unpinning.by.entry(unpinning.call(), Reply::Done);
    let first = first_of(unpinning.range);
    let end = end_of(unpinning.range);
    let none = Frames::new(unpinning.alloc);
    match open(
        object,
        unpinning.alloc,
        entry,
        FrameKind::Ordinary,
        none,
        first,
        end,
    ) {
        Ok(mut changing) => {
            unpin_each(&mut changing, unpinning.range);
            let (object, back) = changing.close(first, end);
            let reply = Reply::Done;
            (object, Ok(Stepped { reply, back }))
        }
        Err((memory, object, none)) => (object, Err((memory, none))),
    }
}

fn unpin_each(changing: &mut Changing, range: PageRange)
    requires call { changing.old.entry.call ≡ UnpinCall range }
    requires accepted { accepts changing.old.entry.reply ≡ true }
    requires pinned { replies.first_in (replies.is_unpinned changing.old.journal) range ≡ None }
    requires first { changing.old.done.mark ≡ range.first }
    requires limit { changing.old.done.limit ≡ range.first + range.count }
    ensures { changing.new ≡ further range.count changing.old }
{
    for _place in 0..count_of(range) {
        changing.unpin();
    }
}
