//! Detachment.
ghost use Rattle.std.specs.Prelude.{◌≡◌, [], true, false, IfOk, IfErr, OnOk, OnErr};
ghost use Rattle.up_model.specs.declared.entry.Call.TheVariants.{Detach as DetachCall};
ghost use Rattle.up_model.specs.Roles as roles;
ghost use Rattle.up_object.specs.Change.{AllOwn};
ghost use Rattle.up_object.specs.Whole.{after};
ghost use Rattle.up_object.specs.Answered.{RepliesAsDue, FramesBalance};
ghost use Rattle.up_object.specs.OneCall.{DoesCall};

use core::mem::replace_with;
use std::alloc::Global;
use up_bank::FrameKind;
use up_model::{Call, Reply};
use up_num::{Memory, Refusal};
use up_object::changing::open;
use up_object::{By, Declined, Object, Step, Stepped, decline};
use up_pages::Frames;

/// Detaches the object: all who wait are woken, and the packet `Complete` is sent. It answers `Woke`; `Refused(Detached)`
/// where it is detached already.
pub fn detach(object: &mut Object, alloc: Global, who: u32, epoch: u64) -> Step
    ensures reply { RepliesAsDue object.old who epoch DetachCall result }
    ensures object { OnOk result (object.new ≡ after object.old who epoch DetachCall) }
    ensures frames { FramesBalance object.old object.new [] result }
    ensures own { IfOk result (λ step. AllOwn object.old.banks step.back.items) }
    ensures same { OnErr result (object.new ≡ object.old) }
    ensures back { IfErr result (λ failed. failed.1.items ≡ []) }
{
    let by = By { who, epoch };
    replace_with(object, Detaching { alloc, by }, detach_object)
}

#[derive(Clone, Copy)]
struct Detaching {
    alloc: Global,
    by: By,
}

fn detach_object(object: Object, detaching: Detaching) -> (Object, Step)
    ensures { DoesCall object result.0 result.1 detaching.by.who detaching.by.epoch DetachCall [] }
{
    if object.detached() {
        refuse_detach(object, detaching)
    } else {
        detach_all(object, detaching)
    }
}

fn refuse_detach(object: Object, detaching: Detaching) -> (Object, Step)
    requires gone { roles.detached object.birth object.journal ≡ true }
    ensures { DoesCall object result.0 result.1 detaching.by.who detaching.by.epoch DetachCall [] }
{
    decline(
        object,
        detaching.alloc,
        detaching.by,
        Call::Detach,
        Declined::Refused(Refusal::Detached),
        FrameKind::Ordinary,
        Frames::new(detaching.alloc),
    )
}

fn detach_all(object: Object, detaching: Detaching) -> (Object, Step)
    requires attached { roles.detached object.birth object.journal ≡ false }
    ensures { DoesCall object result.0 result.1 detaching.by.who detaching.by.epoch DetachCall [] }
{
    let alloc = detaching.alloc;
    let frames = Frames::new(alloc);
    let Ok(answer) = object.all_waiting(alloc) else {
        return (object, Err((Memory {}, frames)));
    };
    let Ok(noted) = object.all_waiting(alloc) else {
        return (object, Err((Memory {}, frames)));
    };
    let pages = object.size();
    let entry = detaching.by.entry(Call::Detach, Reply::Woke(noted));
    match open(object, alloc, entry, FrameKind::Ordinary, frames, 0, 0) {
        Ok(mut changing) => {
            changing.detach();
            changing.set_detached();
            let (object, back) = changing.close(0, pages);
            let reply = Reply::Woke(answer);
            (object, Ok(Stepped { reply, back }))
        }
        Err((memory, object, frames)) => (object, Err((memory, frames))),
    }
}
