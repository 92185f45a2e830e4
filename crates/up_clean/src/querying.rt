ghost use Rattle.std.specs.Prelude.{◌≡◌, [], true, IfOk, IfErr, OnOk, OnErr};
ghost use Rattle.up_model.specs.Size.{range_fits};
ghost use Rattle.up_model.specs.declared.entry.Call.TheVariants.{Query};
ghost use Rattle.up_object.specs.Change.{AllOwn};
ghost use Rattle.up_object.specs.Whole.{after};
ghost use Rattle.up_object.specs.Answered.{RepliesAsDue, FramesBalance};
ghost use Rattle.up_object.specs.OneCall.{DoesCall};

use core::mem::replace_with;
use std::alloc::Global;
use up_bank::FrameKind;
use up_model::{Call, Reply};
use up_num::{Memory, PageRange, Refusal};
use up_object::{By, Declined, Object, Step, decline, note_with};
use up_pages::Frames;

/// Lists the runs of pages of a range that await writeback, at most `room` of them. It answers `Ranges`, or `Refused(Range)` where
/// the range passes the object's size.
pub fn query(
    object: &mut Object,
    alloc: Global,
    who: u32,
    epoch: u64,
    range: PageRange,
    room: u32,
) -> Step
    ensures reply { RepliesAsDue object.old who epoch (Query range room) result }
    ensures object { OnOk result (object.new ≡ after object.old who epoch (Query range room)) }
    ensures frames { FramesBalance object.old object.new [] result }
    ensures own { IfOk result (λ s. AllOwn object.old.banks s.back.items) }
    ensures same { OnErr result (object.new ≡ object.old) }
    ensures back { IfErr result (λ failed. failed.1.items ≡ []) }
{
    let by = By { who, epoch };
    let querying = Querying {
        alloc,
        by,
        range,
        room,
    };
    replace_with(object, querying, query_range)
}

#[derive(Clone, Copy)]
struct Querying {
    alloc: Global,
    by: By,
    range: PageRange,
    room: u32,
}

impl Querying {
    fn call(&self) -> Call
        ensures { result ≡ Query self.now.range self.now.room }
    {
        Call::Query {
            range: self.range,
            room: self.room,
        }
    }
}

fn query_range(object: Object, querying: Querying) -> (Object, Step)
    ensures { DoesCall object result.0 result.1 querying.by.who querying.by.epoch (Query querying.range querying.room) [] }
{
    let alloc = querying.alloc;
    if object.has_range(querying.range) {
        return query_within(object, querying);
    }
    let why = Declined::Refused(Refusal::Range);
    let none = Frames::new(alloc);
    decline(
        object,
        alloc,
        querying.by,
        querying.call(),
        why,
        FrameKind::Ordinary,
        none,
    )
}

fn query_within(object: Object, querying: Querying) -> (Object, Step)
    requires fits { range_fits object.birth object.journal querying.range ≡ true }
    ensures { DoesCall object result.0 result.1 querying.by.who querying.by.epoch (Query querying.range querying.room) [] }
{
    let alloc = querying.alloc;
    let none = Frames::new(alloc);
    let Ok((list, total)) = object.unclean_runs(alloc, querying.range, querying.room) else {
        return (object, Err((Memory {}, none)));
    };
    let Ok(noted) = list.copy(alloc) else {
        return (object, Err((Memory {}, none)));
    };
    let entry = querying
        .by
        .entry(querying.call(), Reply::Ranges { total, list: noted });
    let reply = Reply::Ranges { total, list };
    note_with(object, alloc, entry, reply, FrameKind::Ordinary, none)
}
