ghost use Rattle.std.specs.Prelude.{◌≡◌, ◌+◌, [], true, IfOk, IfErr, OnOk, OnErr};
ghost use Rattle.up_model.specs.Attempts.{accepts};
ghost use Rattle.up_model.specs.Deeds as deeds;
ghost use Rattle.up_model.specs.Size.{range_fits};
ghost use Rattle.up_model.specs.declared.entry.Call.TheVariants.{Hint as HintCall};
ghost use Rattle.up_object.specs.Change.{AllOwn};
ghost use Rattle.up_object.specs.Whole.{after};
ghost use Rattle.up_object.specs.Answered.{RepliesAsDue, FramesBalance};
ghost use Rattle.up_object.specs.OneCall.{DoesCall, further};

use core::mem::replace_with;
use std::alloc::Global;
use up_bank::FrameKind;
use up_model::{Call, HintKind, Reply};
use up_num::{PageRange, Refusal};
use up_object::changing::{Changing, open};
use up_object::{By, Declined, Object, Step, Stepped, count_of, decline, end_of, first_of};
use up_pages::Frames;

/// Protects the pages of a range from eviction, or calls them cold. It answers `Done`, or `Refused(Range)` past the object's end.
pub fn hint(
    object: &mut Object,
    alloc: Global,
    who: u32,
    epoch: u64,
    range: PageRange,
    kind: HintKind,
) -> Step
    ensures reply { RepliesAsDue object.old who epoch (HintCall range kind) result }
    ensures object { OnOk result (object.new ≡ after object.old who epoch (HintCall range kind)) }
    ensures frames { FramesBalance object.old object.new [] result }
    ensures own { IfOk result (λ s. AllOwn object.old.banks s.back.items) }
    ensures same { OnErr result (object.new ≡ object.old) }
    ensures back { IfErr result (λ failed. failed.1.items ≡ []) }
{
    let by = By { who, epoch };
    replace_with(
        object,
        Hinting {
            alloc,
            by,
            range,
            kind,
        },
        hint_by,
    )
}

#[derive(Clone, Copy)]
struct Hinting {
    alloc: Global,
    by: By,
    range: PageRange,
    kind: HintKind,
}

impl Hinting {
    fn call(&self) -> Call
        ensures { result ≡ HintCall self.now.range self.now.kind }
    {
        Call::Hint {
            range: self.range,
            kind: self.kind,
        }
    }
}

fn protects(kind: HintKind) -> bool
    ensures { result ≡ deeds.is_always kind }
{
    match kind {
        HintKind::Always => true,
        HintKind::Cold => false,
    }
}

fn hint_by(object: Object, hinting: Hinting) -> (Object, Step)
    ensures { DoesCall object result.0 result.1 hinting.by.who hinting.by.epoch (HintCall hinting.range hinting.kind) [] }
{
    if object.has_range(hinting.range) {
        return hint_pages(object, hinting);
    }
    decline(
        object,
        hinting.alloc,
        hinting.by,
        hinting.call(),
        Declined::Refused(Refusal::Range),
        FrameKind::Ordinary,
        Frames::new(hinting.alloc),
    )
}

/// Hints the pages of a range that fits.
fn hint_pages(object: Object, hinting: Hinting) -> (Object, Step)
    requires fits { range_fits object.birth object.journal hinting.range ≡ true }
    ensures { DoesCall object result.0 result.1 hinting.by.who hinting.by.epoch (HintCall hinting.range hinting.kind) [] }
{
    let entry = hinting.by.entry(hinting.call(), Reply::Done);
    let first = first_of(hinting.range);
    let end = end_of(hinting.range);
    let none = Frames::new(hinting.alloc);
    match open(
        object,
        hinting.alloc,
        entry,
        FrameKind::Ordinary,
        none,
        first,
        end,
    ) {
        Ok(mut changing) => {
            hint_each(&mut changing, hinting.range, hinting.kind);
            let (object, back) = changing.close(first, end);
            let reply = Reply::Done;
            (object, Ok(Stepped { reply, back }))
        }
        Err((memory, object, none)) => (object, Err((memory, none))),
    }
}

fn hint_each(changing: &mut Changing, range: PageRange, kind: HintKind)
    requires call { changing.old.entry.call ≡ HintCall range kind }
    requires accepted { accepts changing.old.entry.reply ≡ true }
    requires first { changing.old.done.mark ≡ range.first }
    requires limit { changing.old.done.limit ≡ range.first + range.count }
    ensures { changing.new ≡ further range.count changing.old }
{
    let always = protects(kind);
    for _place in 0..count_of(range) {
        changing.hint(always);
    }
}
