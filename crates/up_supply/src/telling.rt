//! Told facts.
ghost use Rattle.std.specs.Prelude.{◌≡◌, [], true, IfOk, IfErr, OnOk, OnErr};
ghost use Rattle.up_model.specs.declared.entry.Call.TheVariants.{Tell as TellCall};
ghost use Rattle.up_object.specs.Change.{AllOwn};
ghost use Rattle.up_object.specs.Whole.{after};
ghost use Rattle.up_object.specs.Answered.{RepliesAsDue, FramesBalance};
ghost use Rattle.up_object.specs.OneCall.{DoesCall};
ghost use Rattle.up_supply.specs.Calls.{is_tell};

use core::mem::replace_with;
use std::alloc::Global;
use up_bank::FrameKind;
use up_model::{Call, Reply, Told};
use up_object::{By, Object, Step, note_with};
use up_pages::Frames;

/// Notes what the sample pager says that it did. It answers `Noted`.
pub fn tell(object: &mut Object, alloc: Global, who: u32, epoch: u64, told: Told) -> Step
    ensures reply { RepliesAsDue object.old who epoch (TellCall told) result }
    ensures object { OnOk result (object.new ≡ after object.old who epoch (TellCall told)) }
    ensures frames { FramesBalance object.old object.new [] result }
    ensures own { IfOk result (λ step. AllOwn object.old.banks step.back.items) }
    ensures same { OnErr result (object.new ≡ object.old) }
    ensures back { IfErr result (λ failed. failed.1.items ≡ []) }
{
    let by = By { who, epoch };
    let call = Call::Tell(told);
    replace_with(object, Telling { alloc, by, call }, note_told)
}

#[derive(Drop)]
struct Telling {
    alloc: Global,
    by: By,
    call: Call,
}

fn note_told(object: Object, telling: Telling) -> (Object, Step)
    requires tells { is_tell telling.call ≡ true }
    ensures { DoesCall object result.0 result.1 telling.by.who telling.by.epoch telling.call [] }
{
    let Telling { alloc, by, call } = telling;
    match call {
        Call::Tell(told) => note_fact(object, alloc, by, told),
        _ => unreachable!(),
    }
}

fn note_fact(object: Object, alloc: Global, by: By, told: Told) -> (Object, Step)
    ensures { DoesCall object result.0 result.1 by.who by.epoch (TellCall told) [] }
{
    let entry = by.entry(Call::Tell(told), Reply::Noted);
    note_with(
        object,
        alloc,
        entry,
        Reply::Noted,
        FrameKind::Ordinary,
        Frames::new(alloc),
    )
}
