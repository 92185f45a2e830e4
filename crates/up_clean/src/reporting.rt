ghost use Rattle.std.specs.Prelude.{◌≡◌, [], true, IfOk, IfErr, OnOk, OnErr};
ghost use Rattle.up_model.specs.Modified.{modified};
ghost use Rattle.up_model.specs.declared.entry.Call.TheVariants.{Stats};
ghost use Rattle.up_model.specs.declared.entry.Reply.TheVariants.{Modified as ModifiedReply};
ghost use Rattle.up_object.specs.Change.{AllOwn};
ghost use Rattle.up_object.specs.Whole.{after};
ghost use Rattle.up_object.specs.Answered.{RepliesAsDue, FramesBalance};
ghost use Rattle.up_object.specs.OneCall.{DoesCall};

use core::mem::replace_with;
use std::alloc::Global;
use up_bank::FrameKind;
use up_model::{Call, Entry, Reply};
use up_object::changing::open;
use up_object::{By, Object, Step, Stepped, note_with};
use up_pages::Frames;

/// Tells whether the object was changed since its birth, or the last call with `reset`. It answers `Modified`.
pub fn stats(object: &mut Object, alloc: Global, who: u32, epoch: u64, reset: bool) -> Step
    ensures reply { RepliesAsDue object.old who epoch (Stats reset) result }
    ensures object { OnOk result (object.new ≡ after object.old who epoch (Stats reset)) }
    ensures frames { FramesBalance object.old object.new [] result }
    ensures own { IfOk result (λ s. AllOwn object.old.banks s.back.items) }
    ensures same { OnErr result (object.new ≡ object.old) }
    ensures back { IfErr result (λ failed. failed.1.items ≡ []) }
{
    let by = By { who, epoch };
    replace_with(object, Reporting { alloc, by, reset }, report)
}

#[derive(Clone, Copy)]
struct Reporting {
    alloc: Global,
    by: By,
    reset: bool,
}

impl Reporting {
    fn entry(&self, changed: bool) -> Entry
        ensures { result ≡ record { who = self.now.by.who; epoch = self.now.by.epoch; call = Stats self.now.reset; reply = ModifiedReply changed } }
    {
        let call = Call::Stats { reset: self.reset };
        self.by.entry(call, Reply::Modified(changed))
    }
}

fn report(object: Object, reporting: Reporting) -> (Object, Step)
    ensures { DoesCall object result.0 result.1 reporting.by.who reporting.by.epoch (Stats reporting.reset) [] }
{
    let alloc = reporting.alloc;
    let changed = object.changed();
    if reporting.reset {
        return forget(object, reporting, changed);
    }
    let entry = reporting.entry(changed);
    let reply = Reply::Modified(changed);
    note_with(
        object,
        alloc,
        entry,
        reply,
        FrameKind::Ordinary,
        Frames::new(alloc),
    )
}

/// Tells it, and from now on the object counts as unchanged.
fn forget(object: Object, reporting: Reporting, changed: bool) -> (Object, Step)
    requires changed { changed ≡ modified object.birth object.journal }
    requires resets { reporting.reset ≡ true }
    ensures { DoesCall object result.0 result.1 reporting.by.who reporting.by.epoch (Stats reporting.reset) [] }
{
    let alloc = reporting.alloc;
    let entry = reporting.entry(changed);
    match open(
        object,
        alloc,
        entry,
        FrameKind::Ordinary,
        Frames::new(alloc),
        0,
        0,
    ) {
        Ok(mut changing) => {
            changing.set_changed(false);
            let (object, back) = changing.close(0, 0);
            let reply = Reply::Modified(changed);
            (object, Ok(Stepped { reply, back }))
        }
        Err((memory, object, given)) => (object, Err((memory, given))),
    }
}
